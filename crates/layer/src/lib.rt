//! A wish book laid on any model.

#![tactic(auto)]

mod book_at;
mod fitted;
mod layers;

pub use layers::{Layer, refusal_on};
