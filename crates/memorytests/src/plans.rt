// A plan on a pile is made whole, or memory ran out; then what the written-out book does not need is as it was.
use crate::site::crossing;
use promise::{Journey, Tables, Unplanned, Walks, plan_and_walk, write_pile};
use refusal::Unread;
use slotplan::{WeighBy, plan_by};
use std::alloc::AllocError;
use std::test::Fail;
use walk::{Sight, Step};
use weighing::Mean;
use writeout::Written;

// A step that was not told, which no walk on the crossing comes to.
const UNTOLD: Step = Step {
    refusal: None,
    sight: Sight {
        site: 7,
        slot: 7,
        reward: 7,
        total: 7,
    },
};

const NUMBERS: [u32; 2] = [0, 1];

#[test]
fn plan_and_walk_or_not(rt: HostRuntime) -> Result<(), Fail> {
    let heap = rt.alloc();
    let pile = match crossing(heap) {
        Ok(pile) => pile,
        Err(why) => {
            assert_eq!(rt; why, Unread::Memory(AllocError));
            println!(rt; "want of memory: the site is not read")?;
            return Ok(());
        }
    };
    let mut listed = [0; 5];
    let mut book = [0; 120];
    let written = write_pile(&pile, &mut listed, &mut book);
    assert_eq!(rt;
        written,
        Ok(Written {
            states: 5,
            words: 30
        })
    );
    let mut codes = [7; 5];
    let mut bytes = [7; 120];
    let mut worths = [7; 15];
    let mut choices = [7; 10];
    let mut on_pile = [UNTOLD; 2];
    let mut in_book = [UNTOLD; 2];
    let mut tables = Tables {
        codes: &mut codes,
        bytes: &mut bytes,
        worths: &mut worths,
        choices: &mut choices,
    };
    let mut walks = Walks {
        on_pile: &mut on_pile,
        in_book: &mut in_book,
    };
    let journey = plan_and_walk(heap, &pile, &Mean, 2, &NUMBERS, &mut tables, &mut walks);
    let Journey {
        plan,
        on_pile: course,
        in_book: second,
    } = journey;
    let why = plan.err();
    assert_eq!(rt;
        on_pile[1].sight,
        course.last,
        "the walk on the pile is told in either case"
    );
    assert!(rt; course.closed);
    assert_eq!(rt; course.last.site, 1);
    assert_eq!(rt; codes, listed, "the codes are listed in either case");
    assert!(rt; bytes == book, "the book is written in either case");
    if why.is_none() {
        assert_eq!(rt;
            &worths[10..],
            [54000, 142200, 142200, 163840, 54000].as_slice()
        );
        assert_eq!(rt; &choices[5..], [0, 1, 1, 0, 0].as_slice());
        assert_eq!(rt; on_pile, in_book);
        assert_eq!(rt; second, Some(course));
        println!(rt; "planned")?;
    } else {
        assert_eq!(rt; why, Some(Unplanned::Memory(AllocError)));
        assert_eq!(rt; worths, [7; 15]);
        assert_eq!(rt; choices, [7; 10]);
        assert_eq!(rt; in_book, [UNTOLD; 2]);
        assert_eq!(rt; second, None);
        println!(rt; "want of memory: there is no plan")?;
    }
    Ok(())
}

#[test]
fn largest_plan_or_not(rt: HostRuntime) -> Result<(), Fail> {
    let heap = rt.alloc();
    let pile = match crossing(heap) {
        Ok(pile) => pile,
        Err(why) => {
            assert_eq!(rt; why, Unread::Memory(AllocError));
            println!(rt; "want of memory: the site is not read")?;
            return Ok(());
        }
    };
    match plan_by(heap, &pile, WeighBy::Mean, 2) {
        Ok(plan) => {
            for (state, action) in [0, 1, 1, 0, 0].into_iter().enumerate() {
                assert_eq!(rt; plan.choice(0, state as u64), Some(action));
            }
            println!(rt; "planned")?;
        }
        Err(why) => {
            assert_eq!(rt; why, Unplanned::Memory(AllocError));
            println!(rt; "want of memory: there is no plan")?;
        }
    }
    Ok(())
}
