// Rule books: switches, and actions whose outcomes set and clear them. This crate says what such a book is and how it is
// written, and tests one word at a time.

#![tactic(auto)]

ghost use Rattle.std.specs.Prelude.{◌≡◌, ◌<◌, ◌≤◌, length, MatchOption};
ghost use Rattle.rulelayout.specs.Rule.{total};
ghost use Rattle.rulelayout.specs.Layout.{head_of, masks_of, effect_of};

use refusal::Refusal;
use words::{field, fits, open};

/// The kinds of a rule book's words (docs/FORMATS.md).
#[derive(Clone, Copy, Debug, PartialEq, Eq)]
pub enum Kind {
    Head = 6,
    Action = 7,
    Outcome = 8,
    End = 15,
}

/// One outcome of an action: the switches that it sets and clears, bit k for switch k, and its weight, a chance in eighths.
#[derive(Clone, Copy, Debug, Default, PartialEq, Eq)]
pub struct Effect {
    pub set: u16,
    pub clear: u16,
    pub weight: u8,
}

/// The first word of a book: how many switches and actions it has, 1 to 10 and 1 to 8, and the switches that are on at the start.
#[derive(Clone, Copy, Debug, PartialEq, Eq)]
pub struct RuleHead {
    pub switches: u8,
    pub actions: u8,
    pub start: u16,
}

/// A word with two masks of switches: of an action, what must be on and what off, and the number of outcomes; of an outcome,
/// what it sets and clears, and the weight.
#[derive(Clone, Copy, Debug, PartialEq, Eq)]
pub struct Masks {
    pub first: u16,
    pub second: u16,
    pub count: u8,
}

// An outcome's word, as the outcome that it says.
impl From<Masks> for Effect {
    ghost from_gives = { λ masks effect. effect ≡ effect_of masks };

    fn from(masks: Masks) -> Effect {
        Effect {
            set: masks.first,
            clear: masks.second,
            weight: masks.count,
        }
    }
}

/// The head of a book, or what is wrong with its word: WrongKind, UnusedBit or OutOfRange, tested in this order (docs/REFUSALS.md).
pub fn read_head(word: u32) -> Result<RuleHead, Refusal>
    ensures { result ≡ head_of word }
{
    open(word, Kind::Head as u32, 18)?;
    let switches = field(word, 0, 4);
    let actions = field(word, 4, 4);
    let start = field(word, 8, 10);
    if !(1..=10).contains(&switches) || !(1..=8).contains(&actions) || !fits(start, switches) {
        return Err(Refusal::OutOfRange);
    }
    Ok(RuleHead {
        switches: switches as u8,
        actions: actions as u8,
        start: start as u16,
    })
}

/// The fields of an action's word or of an outcome's, as its kind says, in a book with so many switches; or what is wrong with it:
/// WrongKind, UnusedBit, OutOfRange or SwitchTwice, tested in this order.
pub fn read_masks(kind: u32, switches: u32, word: u32) -> Result<Masks, Refusal>
    ensures { result ≡ masks_of kind switches word }
{
    open(word, kind, 24)?;
    let first = field(word, 0, 10);
    let second = field(word, 10, 10);
    let count = field(word, 20, 4);
    if !fits(first, switches) || !fits(second, switches) || !(1..=8).contains(&count) {
        return Err(Refusal::OutOfRange);
    }
    if first & second != 0 {
        return Err(Refusal::SwitchTwice);
    }
    Ok(Masks {
        first: first as u16,
        second: second as u16,
        count: count as u8,
    })
}

/// The weights of at most eight outcomes together, in eighths; there is no answer for more.
pub fn total_weight(effects: &[Effect]) -> Option<u32>
    ensures { MatchOption result (8 < length effects.now)
        (λ sum. (length effects.now ≤ 8) × (sum ≡ total effects.now)) }
{
    if effects.len() > 8 {
        return None;
    }
    Some(effects.iter().map(|effect| effect.weight as u32).sum())
}
