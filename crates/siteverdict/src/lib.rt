// Whether a file is a site book: one pass over its words that stores nothing.

#![tactic(auto)]

ghost use Rattle.words.specs.Format.{reading};
ghost use Rattle.sitelayout.specs.Layout.{site_format};
ghost use Rattle.siteverdict.specs.Counting.{Judges};

use refusal::Fault;
use sitelayout::Head;
use words::read;

mod state;
mod steps;

use state::State;

/// How large a book is, how many outcomes it has in all, and its bound: the largest size of a reward in it, at most 2,000.
#[derive(Clone, Copy, Debug, PartialEq, Eq)]
pub struct Counts {
    pub head: Head,
    pub moves: u32,
    pub bound: u32,
}

/// The counts of the book that a file is, or the first refusal and the place of the word that it is about, in words from 0
/// (docs/REFUSALS.md, "Reading"). It allocates nothing.
pub fn verdict(bytes: &[u8]) -> Result<Counts, Fault>
    ensures { Judges result (reading site_format bytes.now) }
{
    read::<State>(bytes)
}
