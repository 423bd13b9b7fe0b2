// What the pass keeps of the words so far: the counts of the book being read, up to here; and what one word more does to it.

#![tactic(auto, unfolding(sitelayout::specs::Layout::read_word))]

ghost use Rattle.std.specs.Prelude.{◌+◌, ◌*◌, ◌<◌, ◌≤◌, length};
ghost use Rattle.bounded.specs.Listed.{listed};

use crate::Counts;
use bounded::Bounded;
use refusal::Refusal;
use sitelayout::{Head, read_entry, read_head, read_mask, read_move, read_reward};

// By what is due next.
#[derive(Clone, Copy)]
pub enum State {
    Fresh,
    Mask(Marks),
    Reward(Marks),
    Entry(Table),
    Move(Open),
}

// How many states are read, and the largest size of a reward among them.
#[derive(Clone, Copy)]
pub struct Marks {
    pub head: Head,
    pub read: u32,
    pub bound: u32,
    ghost few: { read < head.states },
    ghost narrow: { head.actions ≤ 8 },
}

// How many places of the table are filled, and how many leading states are known to offer action 0.
#[derive(Clone, Copy)]
pub struct Table {
    pub counts: Counts,
    pub cells: u32,
    pub waits: u32,
    ghost narrow: { counts.head.actions ≤ 8 },
    ghost small: { cells ≤ 32768 },
    ghost few: { counts.moves ≤ 8 * cells },
    ghost leading: { waits ≤ cells },
}

// An open entry: how many outcomes are due after the next, and the weights and targets so far.
#[derive(Clone, Copy)]
pub struct Open {
    pub table: Table,
    pub due: u32,
    pub total: u32,
    pub targets: Bounded<u16, 8>,
    ghost room: { table.cells < 32768 },
    ghost left: { length (listed targets) + due < 8 },
    ghost light: { total ≤ 8 * length (listed targets) },
}

impl Marks {
    ghost use Rattle.sitelayout.specs.Layout as layout;
    ghost use Rattle.sitelayout.specs.Layout.{read_word, fresh};
    ghost use Rattle.siteverdict.specs.Tracking.{AtMask, AtReward, Tracks, Leads};

    // The head: no state is read yet.
    pub fn head(word: u32) -> Result<Marks, Refusal>
        ensures { Leads AtMask (read_word fresh word) result }
    {
        Ok(Marks {
            head: read_head(word)?,
            read: 0,
            bound: 0,
        })
    }

    // A mask, whose reward is due.
    pub fn mask(self, word: u32) -> Result<Marks, Refusal>
        ensures { (d : layout.Draft) → AtMask self d → Leads AtReward (read_word d word) result }
    {
        read_mask(word, self.head.labels)?;
        Ok(self)
    }

    // One state more: the entries begin after the last.
    pub fn reward(self, word: u32) -> Result<State, Refusal>
        ensures { (d : layout.Draft) → AtReward self d → Leads Tracks (read_word d word) result }
    {
        let worth = read_reward(word)?;
        let head = self.head;
        let read = self.read + 1;
        let bound = self.bound.max(worth.raised.abs_diff(2000) as u32);
        if read < head.states {
            return Ok(State::Mask(Marks { head, read, bound }));
        }
        Ok(State::Entry(Table {
            counts: Counts {
                head,
                moves: 0,
                bound,
            },
            cells: 0,
            waits: 0,
        }))
    }
}

impl Table {
    ghost use Rattle.std.specs.Prelude.{◌≢◌};
    ghost use Rattle.words.specs.Words.{kind};
    ghost use Rattle.sitelayout.specs.declared.kind.Kind.TheVariants.{End};
    ghost use Rattle.sitelayout.specs.Kinds.{number_of};
    ghost use Rattle.sitelayout.specs.Layout as layout;
    ghost use Rattle.sitelayout.specs.Layout.{read_word};
    ghost use Rattle.siteverdict.specs.Tracking.{AtEntry, AtMove, Leads};

    // Entries rise strictly by state and action.
    pub fn entry(mut self, word: u32) -> Result<Open, Refusal>
        ensures { (d : layout.Draft) → AtEntry self d → kind word ≢ number_of End
            → Leads AtMove (read_word d word) result }
    {
        let head = self.counts.head;
        let entry = read_entry(word, head.states, head.actions)?;
        let place = entry.state * head.actions + entry.action;
        if place < self.cells {
            return Err(Refusal::NotRising);
        }
        self.cells = place;
        Ok(Open {
            table: self,
            due: entry.outcomes - 1,
            total: 0,
            targets: Bounded::new(),
        })
    }
}

impl Open {
    ghost use Rattle.sitelayout.specs.Layout as layout;
    ghost use Rattle.sitelayout.specs.Layout.{read_word};
    ghost use Rattle.siteverdict.specs.Tracking.{AtMove, Tracks, Leads};

    // No target comes twice in an entry, and the weights of the whole entry total 8.
    pub fn outcome(self, word: u32) -> Result<State, Refusal>
        ensures { (d : layout.Draft) → AtMove self d → Leads Tracks (read_word d word) result }
    {
        let Open {
            table,
            due,
            mut total,
            mut targets,
        } = self;
        let way = read_move(word, table.counts.head.states)?;
        if targets.contains(&way.target) {
            return Err(Refusal::NotRising);
        }
        // There is room: fewer than eight are in.
        let _ = targets.push(way.target);
        total += way.weight as u32;
        if due > 0 {
            return Ok(State::Move(Open {
                table,
                due: due - 1,
                total,
                targets,
            }));
        }
        if total != 8 {
            return Err(Refusal::WrongTotal);
        }
        Ok(State::Entry(Table {
            counts: Counts {
                moves: table.counts.moves + targets.len() as u32,
                ..table.counts
            },
            cells: table.cells + 1,
            waits: table.waits + (table.cells == table.waits * table.counts.head.actions) as u32,
        }))
    }
}
