// What is promised of a pile, and of all that is made of it.

#![tactic(auto)]

mod advising;
mod causes;
mod plans;
mod walks;
mod writing;

pub use advising::Advice;
pub use causes::Unplanned;
pub use plans::{Plan, Tables, plan_pile};
pub use walks::{Journey, Walks, plan_and_walk};
pub use writing::write_pile;
