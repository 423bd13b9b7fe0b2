// Planning on the book that is written out of a pile, and the plan that it makes.
ghost use Rattle.std.specs.Prelude.{◌≤◌};

mod making;

use crate::advising::Advice;
pub use making::plan_pile;
use model::Numbered;
use outbook::OriginBook;
use walk::Walker;
use writeout::Written;

/// The tables that a plan is made in: listed codes, the book's bytes, worths and choices.
#[derive(Drop)]
pub struct Tables<'a> {
    pub codes: &'a mut [u64],
    pub bytes: &'a mut [u8],
    pub worths: &'a mut [i64],
    pub choices: &'a mut [u8],
}

/// A plan on the written-out book of a pile, whole: how large the book is, the book as it reads back, what the start is worth, the horizon,
/// how much more each slot's reward counts than the next one's, and every choice. `plan_pile` alone makes one.
#[derive(Drop)]
pub struct Plan {
    written: Written,
    book: OriginBook,
    worth: i64,
    horizon: usize,
    unit: u8,
    choices: Vec<u8>,
    ghost short: { horizon ≤ 12 },
    ghost some: { 1 ≤ unit },
    ghost few: { unit ≤ 8 },
}

impl Plan {
    ghost use Rattle.std.specs.Prelude.{◌≡◌};
    ghost use Rattle.promise.specs.WholePlan.{AdvisesAsPolicy, TellsChoice};
    ghost use Rattle.walk.specs.Views.{walk_of};

    /// How many states and words the book has.
    pub fn written(&self) -> Written
        ensures { result ≡ self.now.written }
    {
        self.written
    }

    /// The book that was planned on, by its origins.
    pub fn book(&self) -> &OriginBook
        ensures { result.now ≡ self.now.book }
    {
        &self.book
    }

    /// What the start is worth with all slots left, in parts of a reward: 256 × unit^horizon.
    pub fn worth(&self) -> i64
        ensures { result ≡ self.now.worth }
    {
        self.worth
    }

    /// How many slots the plan has.
    pub fn horizon(&self) -> usize
        ensures slots { result ≡ self.now.horizon }
        ensures short { result ≤ 12 }
    {
        self.horizon
    }

    /// How much more each slot's reward counts than the next one's.
    pub fn unit(&self) -> u8
        ensures unit { result ≡ self.now.unit }
        ensures some { 1 ≤ result }
        ensures few { result ≤ 8 }
    {
        self.unit
    }

    /// The choice for a slot in a listed state; from the horizon on, and past the listed states, there is none.
    pub fn choice(&self, slot: usize, state: u64) -> Option<u8>
        ensures { TellsChoice self.now slot state result }
    {
        let states = self.book.count();
        let place = state as usize;
        if slot >= self.horizon || place >= states {
            return None;
        }
        self.choices
            .get((self.horizon - slot - 1) * states + place)
            .copied()
    }

    /// What the plan advises to a walk on its book.
    pub fn advice(&self, walker: &Walker) -> Advice
        ensures { AdvisesAsPolicy self.now (walk_of walker.now) result }
    {
        if walker.is_choosing() {
            return Advice::Tell;
        }
        let slot = walker.sight(&self.book).slot;
        match self.choice(slot, walker.state()) {
            Some(action) => Advice::Choose(action),
            None => Advice::Ended,
        }
    }
}
