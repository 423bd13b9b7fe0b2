// A site book that was written out, as a model whose site states are the origins that it carries.

#![tactic(auto)]

ghost use Rattle.std.specs.Prelude.{◌≡◌};
ghost use Rattle.sitebook.specs.Contents.{contents};
ghost use Rattle.writeout.specs.Copies.{by_origin};
ghost use Rattle.writeout.proofs.Origins.{origin_lawful, origin_numbered};

use model::{Numbered, Outcomes, SiteModel, Sizes};
use sitebook::SiteBook;

/// A site book with its origins for grounds: what is written out of a pile stands over the pile's
/// ground model (docs/FORMATS.md, "Writing out").
#[derive(Drop)]
pub struct OriginBook {
    book: SiteBook,
}

impl OriginBook {
    /// Takes the book whole. By name and no `From`: it is another model, by its grounds.
    pub fn new(book: SiteBook) -> OriginBook
        ensures { result.book ≡ book }
    {
        OriginBook { book }
    }
}

// Every question but that of the ground goes to the book; a trait's methods are handed on one by one,
// since there is no delegation.
impl SiteModel for OriginBook {
    ghost meaning = { λ o. by_origin (contents o.book) };

    ghost lawful = { λ o. origin_lawful (contents o.book) o.book.sound };

    fn start(&self) -> u64 {
        self.book.start()
    }

    fn is_state(&self, s: u64) -> bool {
        self.book.is_state(s)
    }

    fn mask(&self, s: u64) -> u32 {
        self.book.mask(s)
    }

    fn reward(&self, s: u64) -> i32 {
        self.book.reward(s)
    }

    fn ground(&self, s: u64) -> u64 {
        self.book.origin(s)
    }

    fn offers(&self, s: u64, a: u32) -> bool {
        self.book.offers(s, a)
    }

    fn outcomes(&self, s: u64, a: u32) -> Outcomes {
        self.book.outcomes(s, a)
    }

    fn sizes(&self) -> Sizes {
        self.book.sizes()
    }
}

impl Numbered for OriginBook {
    ghost numbered = { λ o. origin_numbered (contents o.book) o.book.sound };

    fn count(&self) -> usize {
        self.book.count()
    }
}
