// Rule books, read from bytes into fixed tables, as ground models of a site.

#![tactic(auto)]

mod action;
mod book;
mod read;
mod stage;

pub use book::RuleBook;
pub use read::read_rule;
