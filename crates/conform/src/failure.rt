// What is answered where a command is not carried out.
use promise::Unplanned;
use refusal::{Fault, Refusal, Unread};
use std::alloc::{AllocError, AllocFailed};
use std::fmt;

// A book is faulty at a word; what is asked of a model that was built is refused as a whole. That there is no memory to read a book or to
// plan is an answer; where there is no room for a command's own words and bytes, or for its answer, it has none.
#[derive(Clone, Copy, Debug, PartialEq, Eq)]
pub enum Failure {
    Unknown,
    Unreadable,
    Unwritable,
    Faulty(Fault),
    Refused(Refusal),
    Memory,
    NoRoom(AllocError),
}

impl fmt::Display for Failure {
    fn fmt<W: fmt::Write>(&self, f: &mut fmt::Formatter<W>) -> fmt::Result {
        match self {
            Failure::Unknown => f.write_str("unknown"),
            Failure::Unreadable => f.write_str("unreadable"),
            Failure::Unwritable => f.write_str("unwritable"),
            Failure::Faulty(fault) => {
                write!(f, "refused {} {}", fault.refusal.number(), fault.place)
            }
            Failure::Refused(refusal) => write!(f, "refused {}", refusal.number()),
            Failure::Memory | Failure::NoRoom(_) => f.write_str("no memory"),
        }
    }
}

impl From<Unread> for Failure {
    fn from(why: Unread) -> Failure {
        match why {
            Unread::Refused(fault) => Failure::Faulty(fault),
            Unread::Memory(_) => Failure::Memory,
        }
    }
}

impl From<Fault> for Failure {
    fn from(fault: Fault) -> Failure {
        Failure::Faulty(fault)
    }
}

impl From<Refusal> for Failure {
    fn from(refusal: Refusal) -> Failure {
        Failure::Refused(refusal)
    }
}

// Where the book is not written out there is nothing to plan on, and which table was too short is not told.
impl From<Unplanned> for Failure {
    fn from(why: Unplanned) -> Failure {
        match why {
            Unplanned::Refused(Refusal::TooManyStates | Refusal::BookTableShort) => {
                Failure::Unwritable
            }
            Unplanned::Refused(refusal) => Failure::Refused(refusal),
            Unplanned::Memory(_) => Failure::Memory,
        }
    }
}

impl From<AllocError> for Failure {
    fn from(error: AllocError) -> Failure {
        Failure::NoRoom(error)
    }
}

impl<T: Drop> From<AllocFailed<T>> for Failure {
    fn from(failed: AllocFailed<T>) -> Failure {
        Failure::NoRoom(failed.into())
    }
}
