// Site books as ground models: read whole, or refused at the first word that is wrong.

#![tactic(auto)]

mod book;
mod store;
mod tables;

pub use book::{SiteBook, read_site};
