// A site book is read whole, or memory ran out; a file that is no book is refused, whatever memory there is.
use crate::site::{BYTES, site_file};
use refusal::{Refusal, Unread};
use sitebook::read_site;
use std::alloc::AllocError;
use std::test::Fail;
use writeout::{Written, write_out};

#[test]
fn whole_or_not(rt: HostRuntime) -> Result<(), Fail> {
    let file = site_file();
    match read_site(rt.alloc(), &file) {
        Ok(book) => {
            let mut codes = [0; 3];
            let mut bytes = [0; BYTES];
            let written = write_out(&book, &mut codes, &mut bytes);
            assert_eq!(rt;
                written,
                Ok(Written {
                    states: 3,
                    words: 18
                })
            );
            assert_eq!(rt; codes, [0, 1, 2]);
            assert!(rt; bytes == file, "it says what its file says");
            println!(rt; "read")?;
        }
        Err(why) => {
            assert_eq!(rt; why, Unread::Memory(AllocError));
            println!(rt; "want of memory")?;
        }
    }
    Ok(())
}

#[test]
fn refused_in_any_case(rt: HostRuntime) -> Result<(), Fail> {
    let file = site_file();
    let [cut_off @ .., _, _, _, _] = file.as_slice() else {
        return Err(Fail::new("the file is shorter than a word"));
    };
    assert_eq!(rt;
        read_site(rt.alloc(), cut_off).err(),
        Some(Unread::Refused(Refusal::CutOff.at(17)))
    );
    Ok(())
}
