// A floor of a pile.
ghost use Rattle.std.specs.Prelude.{◌≡◌};
ghost use Rattle.pile.specs.Floors.{slab_in};

use wishbook::WishBook;

/// What is laid on a model: nothing, or a wish book.
#[derive(Clone, Copy)]
pub enum Floor {
    Bare,
    Wishes(WishBook),
}

impl Floor {
    // The book, if there is one.
    pub(crate) fn book(self) -> Option<WishBook>
        ensures { slab_in result ≡ self }
    {
        match self {
            Floor::Bare => None,
            Floor::Wishes(book) => Some(book),
        }
    }
}
