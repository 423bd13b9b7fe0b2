// Writing a model out: exactly the reachable states, as a site book that reads back.

#![tactic(auto)]

mod listing;
mod out;

pub use out::write_out;

/// How large a book is that was written out: its states, and its words with head and end.
#[derive(Clone, Copy, Debug, PartialEq, Eq)]
pub struct Written {
    pub states: usize,
    pub words: usize,
}
