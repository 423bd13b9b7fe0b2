// Reading a site book: the verdict on the file first, and then the tables.
ghost use Rattle.std.specs.Prelude.{◌≡◌, IsTrue, MatchResult};
ghost use Rattle.words.specs.Format.{Faithful, got, reading};
ghost use Rattle.words.specs.Refusing.{RefusesRightly};
ghost use Rattle.sitelayout.specs.Layout.{site_format, site_words, Good, written};
ghost use Rattle.sitelayout.specs.Site.{Site, valid};
ghost use Rattle.sitelayout.specs.WordTests.{may_end, passes, closes};
ghost use Rattle.siteverdict.specs.Counting.{Counted};
ghost use Rattle.sitebook.specs.Contents.{contents};
ghost use Rattle.sitebook.specs.Reading.{Reads};
ghost use Rattle.sitebook.specs.Storing.{held_by, nothing};

use crate::book::SiteBook;
use crate::store::Store;
use refusal::{Fault, Refusal, Unread};
use sitelayout::Kind;
use siteverdict::{Counts, verdict};
use std::alloc::Global;
use words::next_word;

/// The book that a file is, or the first refusal and the place of the word that it is about, in words from 0 (docs/REFUSALS.md,
/// "Reading"); want of memory only where the file is a book. The words are those of docs/FORMATS.md.
#[tactic(auto, using(sitelayout::proofs::Way::site_faithful, sitelayout::proofs::Refusing::site_refuses))]
pub fn read_site(heap: Global, bytes: &[u8]) -> Result<SiteBook, Unread>
    ensures reads { Reads bytes.now result }
    ensures faithful { Faithful site_format (λ b. IsTrue (valid b)) site_words }
    ensures refuses { RefusesRightly site_format Good written may_end passes closes }
{
    let counts = verdict(bytes)?;
    let store = Store::with_room(heap, counts)?;
    Ok(stored(store, bytes, counts)?)
}

// The tables of a file that is known to be a book: this pass allocates nothing, and the kind of a word is all that it tests. No word of a
// book is missing, so nothing is refused.
fn stored(mut store: Store, bytes: &[u8], counts: Counts) -> Result<SiteBook, Fault>
    requires known { (b : Site) × ((reading site_format bytes.now ≡ got b) × Counted counts b) }
    requires unwritten { held_by store ≡ nothing counts }
    ensures { MatchResult result (λ k. reading site_format bytes.now ≡ got (contents k)) (λ _. ⊥) }
{
    let mut rest = bytes;
    let mut place = 0;
    loop {
        let Some((word, next)) = next_word(rest) else {
            return Err(Refusal::CutOff.at(place));
        };
        match Kind::try_from(word) {
            Ok(Kind::End) => {
                let Store { tables, .. } = store;
                return Ok(SiteBook {
                    tables,
                    bound: counts.bound,
                });
            }
            _ => store.put(word),
        }
        rest = next;
        place += 1;
    }
}
