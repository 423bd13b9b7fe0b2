// Writing a pile out.
ghost use Rattle.std.specs.Prelude.{◌≡◌, length};
ghost use Rattle.promise.specs.Promises.{Promises};
ghost use Rattle.reach.specs.Search.{codes_of};
ghost use Rattle.sitelayout.specs.Layout.{site_words};
ghost use Rattle.words.specs.Format.{file};
ghost use Rattle.writeout.specs.Tables.{out_book, outcome, table_after};

use pile::Pile;
use refusal::Refusal;
use writeout::{Written, write_out};

/// Writes the pile out: the codes of exactly its reachable states into one table, eight bytes each, and the site book of them into the
/// other, four bytes a word. A refusal leaves both tables all 0. What holds of every pile is in `pile`.
pub fn write_pile<P: Pile>(
    pile: &P,
    codes: &mut [u64],
    bytes: &mut [u8],
) -> Result<Written, Refusal>
    ensures answer { result ≡ outcome (P.SiteModel.meaning pile.now) (length codes.old)
        (length bytes.old) }
    ensures codes { codes.new ≡ table_after result (length codes.old)
        (codes_of (P.SiteModel.meaning pile.now)) }
    ensures bytes { bytes.new ≡ table_after result (length bytes.old)
        (file (site_words (out_book (P.SiteModel.meaning pile.now)))) }
    ensures pile { Promises (P.SiteModel.meaning pile.now) (P.Pile.piling pile.now) }
{
    write_out(pile, codes, bytes)
}
