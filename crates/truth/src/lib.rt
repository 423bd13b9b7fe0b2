//! The truth of formulas about the past: definitions, laws, and what one mask shows.

#![tactic(auto)]

ghost use Rattle.std.specs.Prelude.{◌≡◌};
ghost use Rattle.truth.specs.Truth.{labelled, PlainTruth};

/// Whether a label, counted from 0, holds in a mask: its bit is 1. A mask has no bit past 31. The truth lines of docs/FORMATS.md, "Truth of
/// a formula", rest on this; as verdicts they say what the plain ones say.
#[tactic(auto, using(crate::proofs::Plain::plain_truth))]
pub fn shows(mask: u32, label: u32) -> bool
    ensures shows { result ≡ labelled mask label }
    ensures plain { PlainTruth }
{
    label < 32 && (mask >> label) % 2 == 1
}
