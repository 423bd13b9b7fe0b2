// Planning back from a horizon: what each state is worth with so many slots left, and which action is best there.

#![tactic(auto)]

mod planner;
mod sizes;
mod tables;

pub use sizes::check_sizes;
pub use tables::plan;
