// Gathering follows the draft of the wish book's format.
ghost use Rattle.bounded.specs.Listed.{listed};
ghost use Rattle.refusal.specs.declared.Refusal.{Refusal};
ghost use Rattle.std.specs.Prelude.{◌≡◌, Result};
ghost use Rattle.wishbook.specs.Book.{book_of};
ghost use Rattle.wishbook.specs.Contents.{contents};
ghost use Rattle.wishbook.specs.Gathering.{draft_of};
ghost use Rattle.wishbook.specs.Steps.{Added};
ghost use Rattle.wishlayout.specs.Layout.{Draft as Drafted, wish_format};
ghost use Rattle.wishlayout.specs.Wishes.{Wishes};

use super::Gathered;
use super::make::{remember, rename_all};
use crate::book::WishBook;
use bounded::Bounded;
use formula::merge;
use refusal::Refusal;
use wishlayout::{END, WISH, read_node, read_wish_word};
use words::{Draft, Turn};

// One item more, unless the list is full: that is tested before the word is read.
fn add<T: Copy, const MOST: usize, F: FnOnce() -> Result<T, Refusal>>(
    all: &mut Bounded<T, MOST>,
    read: F,
) -> Result<Turn, Refusal>
    requires { F.pre read }
    ensures { (said : Result T Refusal) → ((r : Result T Refusal) → F.post read r → r ≡ said)
        → Added MOST (listed all.old) said (listed all.new) result }
{
    if all.len() >= MOST {
        return Err(Refusal::WrongKind);
    }
    let _ = all.push(read()?);
    Ok(Turn::More)
}

impl Draft for Gathered {
    type Book = WishBook;

    ghost Words = { Drafted };

    ghost Text = { Wishes };

    ghost format = { wish_format };

    ghost Follows = { λ gathered draft. draft_of gathered ≡ draft };

    ghost Means = { λ book text. contents book ≡ book_of text };

    fn blank() -> Gathered {
        Gathered {
            nodes: Bounded::new(),
            wishes: Bounded::new(),
        }
    }

    // A draft is a state machine: which words may come depends on what has come, and so the tests stand in this order.
    fn step(&mut self, word: u32) -> Result<Turn, Refusal> {
        let kind = word >> 28;
        let (count, wished) = (self.nodes.len(), self.wishes.len());
        if wished == 0 {
            if kind != WISH {
                return add(&mut self.nodes, || read_node(word, count as u32));
            }
            if count == 0 {
                return Err(Refusal::WrongKind);
            }
        } else if kind == END {
            return Ok(Turn::End);
        }
        add(&mut self.wishes, || read_wish_word(word, count as u32))
    }

    // Equal nodes are merged, and the items that are kept are found. A book has a wish.
    fn finish(self) -> Result<WishBook, Refusal> {
        if self.wishes.is_empty() {
            return Err(Refusal::WrongKind);
        }
        let merged = merge(&self.nodes).unwrap();
        let wishes = rename_all(&self.wishes, &merged.numbers);
        let items = remember(&merged.nodes, &wishes).ok_or(Refusal::TooManyItems)?;
        Ok(WishBook {
            nodes: merged.nodes,
            wishes,
            items,
        })
    }
}
