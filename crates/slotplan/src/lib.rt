// Books and plans of a pile, in tables that hold the largest: what programs make of a pile.

#![tactic(auto)]

mod figures;
mod making;
mod telling;
mod written;

pub use figures::Figure;
pub use making::{Room, SLOTS, plan_by};
pub use telling::figure_of;
pub use written::{Book, STATES, WORDS, written_out};

/// How a plan weighs the outcomes of a choice: by their chances, or by the worst of them.
#[derive(Clone, Copy, Debug, PartialEq, Eq)]
pub enum WeighBy {
    Mean,
    Worst,
}
