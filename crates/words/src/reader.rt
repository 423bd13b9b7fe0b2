// Reading a book, whatever its format: word by word into a draft of it, up to the end word.
ghost use Rattle.words.specs.Drafts.{Stepped, Finished, Answers};
ghost use Rattle.words.specs.Format.{Format, reading, ending};
ghost use Rattle.words.specs.Tests.{none};

use crate::{is_last, next_word};
use refusal::{Fault, Refusal};

/// What a word that is read does: more follow, or the book ends with it.
#[derive(Clone, Copy, Debug, PartialEq, Eq)]
pub enum Turn {
    More,
    End,
}

/// What has been read of a book so far. It follows the draft of the book's format, which says what each word does (docs/FORMATS.md).
pub trait Draft: Drop {
    /// What the words come to.
    type Book: Drop;

    ghost Words: { Type 0 };

    ghost Text: { Type 0 };

    ghost format: { Format Words Text };

    ghost Follows: { Self → Words → Type 0 };

    ghost Means: { Self.Book → Text → Type 0 };

    /// Nothing yet.
    fn blank() -> Self
        ensures { Follows result format.start };

    /// One word more. Nothing is promised of the draft after a refusal.
    fn step(&mut self, word: u32) -> Result<Turn, Refusal>
        ensures { (s : Words) → Follows self.old s
            → Stepped Follows s (format.step s word) self.new result };

    /// The whole, at its end word, whose number the reader has compared.
    fn finish(self) -> Result<Self::Book, Refusal>
        ensures { (s : Words) → Follows self s → Finished Means (format.finish s) result };
}

/// The book that a file is, or the first refusal and the place of its word, counted from 0 (docs/REFUSALS.md, "Reading").
pub fn read<D: Draft>(bytes: &[u8]) -> Result<D::Book, Fault>
    ensures { Answers D.Means (reading D.format bytes.now) result }
{
    let mut draft = D::blank();
    // The words are counted as they are taken off the bytes: what is left decides too, at the end word. That a word is not there is told
    // by `let else`, as in every reader.
    let mut rest = bytes;
    let mut place = 0;
    loop {
        let Some((word, next)) = next_word(rest) else {
            return Err(Refusal::CutOff.at(place));
        };
        match draft.step(word).map_err(|refusal| refusal.at(place))? {
            Turn::More => {}
            Turn::End => return ended(draft, word, place, next),
        }
        rest = next;
        place += 1;
    }
}

// At the end word: its number is that of the words before it, nothing follows it, and the whole is in order.
fn ended<D: Draft>(draft: D, word: u32, place: usize, rest: &[u8]) -> Result<D::Book, Fault>
    ensures { (s : D.Words) → D.Follows draft s
        → Answers D.Means (ending (D.format.finish s) place word (none rest.now)) result }
{
    if !is_last(word, place, rest) {
        return Err(Refusal::WrongEnd.at(place));
    }
    draft.finish().map_err(|refusal| refusal.at(place))
}
