// Wish books: formulas about the past and what each is worth, read from their words.

#![tactic(auto)]

mod book;
mod gathered;
mod read;

pub use book::WishBook;
pub use read::read_wish;
