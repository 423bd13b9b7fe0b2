//! Words of a book: four bytes each, lowest first (docs/FORMATS.md).

#![tactic(auto)]

ghost use Rattle.std.specs.Prelude.{◌≡◌, ◌%◌, ◌^◌, ◌<◌, ◌≤◌, ◌&&◌, length, drop, MatchOption, ◌==◌, nat_lt};
ghost use Rattle.words.specs.Format.{opened};
ghost use Rattle.words.specs.Tests.{none};
ghost use Rattle.words.specs.Words.{first_word, field as field_of};

use refusal::Refusal;

mod bytes;
mod reader;

pub use bytes::bytes_of;
pub use reader::{Draft, Turn, read};

/// The next word and what follows it; `None` where fewer than four bytes are left.
pub fn next_word(bytes: &[u8]) -> Option<(u32, &[u8])>
    ensures { MatchOption result (length bytes.now < 4) (λ x.
        (4 ≤ length bytes.now) × (x.0 ≡ first_word bytes.now) × (x.1.now ≡ drop 4 bytes.now)) }
{
    let [a, b, c, d, rest @ ..] = bytes else {
        return None;
    };
    Some((u32::from_le_bytes([*a, *b, *c, *d]), rest))
}

/// The bits of a word from bit `low` on, `width` of them; bits past the word are 0.
// An `if` for a shift past the word: `checked_shr` leaves the same two cases.
pub fn field(word: u32, low: u32, width: u32) -> u32
    ensures { result ≡ field_of word low width }
{
    if low >= 32 {
        return 0;
    }
    let high = word >> low;
    if width >= 32 {
        high
    } else {
        high % (1 << width)
    }
}

/// Whether a mask has no bit at or above `count`.
pub fn fits(mask: u32, count: u32) -> bool
    ensures { result ≡ nat_lt mask (2 ^ count) }
{
    count >= 32 || mask >> count == 0
}

/// Whether an end word at that place has the right number, that of the words before it, and no byte follows. Its kind is not looked at.
pub fn is_last(word: u32, place: usize, rest: &[u8]) -> bool
    ensures { result ≡ (word % 2 ^ 28 == place && none rest.now) }
{
    word as usize % (1 << 28) == place && rest.is_empty()
}

/// A word of this kind, whose fields are its lowest `width` bits: any other kind is refused with `WrongKind`, and then a bit above
/// them with `UnusedBit` (docs/REFUSALS.md, "Reading").
pub fn open(word: u32, kind: u32, width: u32) -> Result<(), Refusal>
    ensures { result ≡ opened kind width word }
{
    if word >> 28 != kind {
        return Err(Refusal::WrongKind);
    }
    if field(word, width, 28u32.saturating_sub(width)) != 0 {
        return Err(Refusal::UnusedBit);
    }
    Ok(())
}
