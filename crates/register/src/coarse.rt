// Keys that are equal and not the same: of the notes with one number, the first is kept.
use super::{OneBucket, Register, distinct};
use std::test::Fail;

#[derive(Clone, Copy)]
#[derive_where(PartialEq, Eq)]
struct Note {
    number: u8,
    #[derive_where(skip)]
    line: u8,
}

fn noted(number: u8, line: u8) -> OneBucket<Note> {
    OneBucket(Note { number, line })
}

#[test]
fn coarse(rt: HostRuntime) -> Result<(), Fail> {
    let mut table = [noted(0, 0); 2];
    let mut register = Register::new(&mut table);
    assert_eq!(rt; register.enter(noted(7, 1)), Some(0), "a note");
    assert_eq!(rt; register.enter(noted(5, 2)), Some(1), "another number");
    assert_eq!(rt;
        register.enter(noted(7, 3)),
        Some(0),
        "the first one's number"
    );
    assert_eq!(rt; register.enter(noted(6, 4)), None, "no room for a third");
    assert_eq!(rt;
        register.get(0).map(|key| key.0.line),
        Some(1),
        "the first is kept"
    );
    let came = [noted(5, 1), noted(5, 2), noted(6, 3), noted(5, 4)];
    assert_eq!(rt; distinct(&came, &mut table), Some(2), "two numbers");
    assert_eq!(rt; table[0].0.line, 1, "the first of its number");
    Ok(())
}
