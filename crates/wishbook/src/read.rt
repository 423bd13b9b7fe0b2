// Reading a wish book.
ghost use Rattle.std.specs.Prelude.{◌≡◌, IfOk, IsTrue};
ghost use Rattle.words.specs.Format.{Faithful};
ghost use Rattle.words.specs.Refusing.{RefusesRightly};
ghost use Rattle.wishlayout.specs.Layout.{wish_format, wish_words, Good, written};
ghost use Rattle.wishlayout.specs.WordTests.{may_end, passes, closes};
ghost use Rattle.wishlayout.specs.Wishes.{valid};
ghost use Rattle.wishbook.specs.Book.{SameWishes, KeepsItems};
ghost use Rattle.wishbook.specs.Contents.{Reads, contents};

use crate::book::WishBook;
use crate::gathered::Gathered;
use refusal::Fault;
use words::read;

/// The wish book in a file's bytes, or the first refusal and the place of the word that it is about, in words from 0 (docs/REFUSALS.md,
/// "Reading"). The words are those of docs/FORMATS.md.
#[tactic(auto, using(crate::proofs::Whole::same_wishes, crate::proofs::Remembering::answer_keeps, wishlayout::proofs::Way::wish_faithful, wishlayout::proofs::Refusing::wish_refuses))]
pub fn read_wish(bytes: &[u8]) -> Result<WishBook, Fault>
    ensures reads { Reads bytes.now result }
    ensures faithful { Faithful wish_format (λ b. IsTrue (valid b)) wish_words }
    ensures refuses { RefusesRightly wish_format Good written may_end passes closes }
    ensures means { SameWishes }
    ensures remembers { IfOk result (λ book. KeepsItems (contents book)) }
{
    read::<Gathered>(bytes)
}
