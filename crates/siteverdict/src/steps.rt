// What one word does to the state of the pass.

#![tactic(auto, unfolding(sitelayout::specs::Layout::read_word, sitelayout::specs::Layout::whole_book))]

ghost use Rattle.sitelayout.specs.Layout as layout;
ghost use Rattle.sitelayout.specs.Layout.{site_format};
ghost use Rattle.sitelayout.specs.Site.{Site};
ghost use Rattle.siteverdict.specs.Counting.{Counted};
ghost use Rattle.siteverdict.specs.Tracking.{Tracks};

use crate::Counts;
use crate::state::{Marks, State};
use refusal::Refusal;
use sitelayout::Kind;
use words::{Draft, Turn};

impl Draft for State {
    type Book = Counts;

    ghost Words = { layout.Draft };

    ghost Text = { Site };

    ghost format = { site_format };

    ghost Follows = { Tracks };

    ghost Means = { Counted };

    fn blank() -> State {
        State::Fresh
    }

    fn step(&mut self, word: u32) -> Result<Turn, Refusal> {
        *self = match *self {
            State::Fresh => State::Mask(Marks::head(word)?),
            State::Mask(marks) => State::Reward(marks.mask(word)?),
            State::Reward(marks) => marks.reward(word)?,
            State::Entry(_) if Kind::try_from(word) == Ok(Kind::End) => return Ok(Turn::End),
            State::Entry(table) => State::Move(table.entry(word)?),
            State::Move(open) => open.outcome(word)?,
        };
        Ok(Turn::More)
    }

    // An end word comes after whole entries, and action 0 is offered in every state.
    fn finish(self) -> Result<Counts, Refusal> {
        let State::Entry(table) = self else {
            return Err(Refusal::WrongKind);
        };
        if table.waits != table.counts.head.states {
            return Err(Refusal::NoWait);
        }
        Ok(table.counts)
    }
}
