// Piles: a ground model with wish layers on it, and what is promised of every one.

#![tactic(auto)]

mod floor;
mod footing;
mod laying;
mod raised;
mod skipping;
mod tower;
mod truthful;

pub use floor::Floor;
pub use footing::{Footing, Pile};
pub use laying::{Unlaid, lay_all, refusals};
pub use skipping::{Built, lay_each};
pub use tower::{Three, Tower};
pub use truthful::truthful_start;
