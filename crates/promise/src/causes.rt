// Why no plan was made.
ghost use Rattle.std.specs.Prelude.{◌≡◌};
ghost use Rattle.promise.specs.Causes.{unread_as};
ghost use Rattle.promise.specs.declared.causes.Unplanned.TheVariants as unplanned;

use refusal::{Refusal, Unread};
use std::alloc::AllocError;

/// Want of memory is no refusal: where it is told, nothing was refused.
#[derive(Clone, Copy, Debug, Drop, PartialEq, Eq)]
pub enum Unplanned {
    Refused(Refusal),
    Memory(AllocError),
}

impl From<Refusal> for Unplanned {
    ghost from_gives = { λ refusal why. why ≡ unplanned.Refused refusal };

    fn from(refusal: Refusal) -> Unplanned {
        Unplanned::Refused(refusal)
    }
}

impl From<Unread> for Unplanned {
    ghost from_gives = { λ unread why. why ≡ unread_as unread };

    fn from(unread: Unread) -> Unplanned {
        match unread {
            Unread::Refused(fault) => Unplanned::Refused(fault.refusal),
            Unread::Memory(error) => Unplanned::Memory(error),
        }
    }
}

impl From<AllocError> for Unplanned {
    ghost from_gives = { λ error why. why ≡ unplanned.Memory error };

    fn from(error: AllocError) -> Unplanned {
        Unplanned::Memory(error)
    }
}
