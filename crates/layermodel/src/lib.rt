//! What a layer means: a wish book laid on any model is again a model. Here are its laws, that it unfolds the
//! ground model as the truth lines say, and its answers: whether the book fits, and in a state the verdicts on
//! its nodes, what is remembered, and the wishes that hold.

#![tactic(auto)]

mod limits;
mod recalled;
mod remembering;
mod verdicts;

pub use limits::{amounts, fit};
pub use remembering::{remember, wish_bits};
pub use verdicts::{at, judge};
