// The tables of a book while it is being stored, word by word. All that they need is allocated before the first word.
ghost use Rattle.std.specs.Prelude.{◌≡◌, IfOk, vec_capacity};
ghost use Rattle.sitebook.specs.Storing.{held_by, nothing, put_of, filled};

use crate::tables::Tables;
use sitelayout::{Kind, Mark, entry_in, head_in, mask_in, move_in, worth_in};
use siteverdict::Counts;
use std::alloc::{AllocError, Global};

// `mask` is that of the state whose reward is due.
#[derive(Drop)]
pub struct Store {
    pub tables: Tables,
    pub mask: u32,
}

impl Store {
    // Nothing yet, with room for all of the book.
    pub fn with_room(heap: Global, counts: Counts) -> Result<Store, AllocError>
        ensures { IfOk result (λ s. held_by s ≡ nothing counts) }
    {
        let states = counts.head.states as usize;
        let cells = states * counts.head.actions as usize;
        Ok(Store {
            tables: Tables {
                labels: 0,
                actions: 0,
                marks: Vec::with_capacity(heap, states)?,
                starts: Vec::with_capacity(heap, cells)?,
                moves: Vec::with_capacity(heap, counts.moves as usize)?,
            },
            mask: 0,
        })
    }

    // What the next word of the book says. An end word says nothing more, and no other kind comes in a book.
    pub fn put(&mut self, word: u32)
        ensures { held_by self.new ≡ put_of (held_by self.old) word }
    {
        match Kind::try_from(word) {
            Ok(Kind::Head) => {
                let head = head_in(word);
                self.tables.labels = head.labels;
                self.tables.actions = head.actions;
            }
            Ok(Kind::Mask) => self.mask = mask_in(word),
            Ok(Kind::Reward) => {
                let mark = Mark {
                    mask: self.mask,
                    worth: worth_in(word),
                };
                // There is room: a mark for each state.
                if self.tables.marks.len() < self.tables.marks.capacity() {
                    self.tables.marks.push_reserved(mark);
                }
            }
            Ok(Kind::Entry) => {
                let entry = entry_in(word);
                let row = entry.state as usize * self.tables.actions as usize;
                let place = row + entry.action as usize;
                let end = self.tables.moves.len() as u32;
                fill(&mut self.tables.starts, place + 1, end);
            }
            Ok(Kind::Move) => {
                // There is room: the verdict counted the outcomes.
                if self.tables.moves.len() < self.tables.moves.capacity() {
                    self.tables.moves.push_reserved(move_in(word));
                }
            }
            _ => {}
        }
    }
}

// The beginnings of so many cells, as far as there is room: those that are missing are at `end`. A loop, since the contract of `resize`
// does not say that the room stays.
fn fill(starts: &mut Vec<u32>, cells: usize, end: u32)
    ensures begun { starts.new.items ≡ filled (vec_capacity starts.old) cells end starts.old.items }
    ensures room { vec_capacity starts.new ≡ vec_capacity starts.old }
{
    while starts.len() < cells.min(starts.capacity()) {
        starts.push_reserved(end);
    }
}
