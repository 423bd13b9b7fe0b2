// Words that are written for what no struct of its own says. A number too wide for its bits runs into those above it.
ghost use Rattle.std.specs.Prelude.{◌≡◌, ◌+◌, ◌*◌, ◌%◌, ◌^◌};
ghost use Rattle.sitelayout.specs.Kinds.{number_of};
ghost use Rattle.sitelayout.specs.OneWord.{word_of_mask};
ghost use Rattle.words.specs.Words.{end_word as word_of_end};

use crate::Kind;

// A word of a kind, with its fields below.
pub(crate) fn word(kind: Kind, fields: u32) -> u32
    ensures { result ≡ (number_of kind * 2 ^ 28 + fields) % 2 ^ 32 }
{
    ((kind as u32) << 28).wrapping_add(fields)
}

/// The mask word of a state: the labels that hold there, bit p for label p.
pub fn mask_word(mask: u32) -> u32
    ensures { result ≡ word_of_mask mask % 2 ^ 32 }
{
    word(Kind::Mask, mask)
}

/// The last word of a book: how many come before it.
pub fn end_word(count: u32) -> u32
    ensures { result ≡ word_of_end count % 2 ^ 32 }
{
    word(Kind::End, count)
}
