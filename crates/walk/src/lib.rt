// A walk along a site model: a choice, then a told outcome, slot by slot.

#![tactic(auto)]

ghost use Rattle.std.specs.Prelude.{◌≡◌};

use refusal::Refusal;

mod runs;
mod states;
mod walker;

pub use runs::replay;
pub use states::{Chosen, Standing};
pub use walker::{Turned, Walker};

/// What a walk has: the site state, the slot, the reward there, and the total of the rewards so far, each times the discount of its slot
/// in 256ths.
#[derive(Clone, Copy, Debug, PartialEq, Eq)]
pub struct Sight {
    pub site: u64,
    pub slot: usize,
    pub reward: i32,
    pub total: i32,
}

/// What a number did to a walk, and what the walk has after it.
#[derive(Clone, Copy, Debug, PartialEq, Eq)]
pub struct Step {
    pub refusal: Option<Refusal>,
    pub sight: Sight,
}

/// What a walk through numbers had at its opening and has at its end, and whether it closed there. Where it did not, an outcome of the
/// open choice is missing.
#[derive(Clone, Copy, Debug, PartialEq, Eq)]
pub struct Course {
    pub opening: Sight,
    pub last: Sight,
    pub closed: bool,
}

/// A refusal, and the walk as it was before.
#[derive(Drop)]
pub struct Refused<W> {
    pub refusal: Refusal,
    pub walk: W,
}

impl<W> Refused<W> {
    fn new(refusal: Refusal, walk: W) -> Refused<W>
        ensures { result ≡ record { refusal = refusal; walk = walk } }
    {
        Refused { refusal, walk }
    }
}
