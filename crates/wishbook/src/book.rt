// A wish book: the different nodes of its formulas, its wishes and its memory items.
ghost use Rattle.bounded.specs.Listed.{listed};
ghost use Rattle.std.specs.Prelude.{◌≡◌, IsTrue};
ghost use Rattle.wishbook.specs.Book.{sound as sound_book, items_over};

use bounded::Bounded;
use formula::{Item, Node};
use wishlayout::Wish;

/// A valid wish book, its equal nodes merged (docs/FORMATS.md, "Wish book").
#[derive(Clone, Copy)]
pub struct WishBook {
    pub(crate) nodes: Bounded<Node, 128>,
    pub(crate) wishes: Bounded<Wish, 16>,
    pub(crate) items: Bounded<Item, 16>,
    ghost sound: { IsTrue (sound_book (listed nodes) (listed wishes)) },
    ghost remembers: { listed items ≡ items_over (listed nodes) (listed wishes) },
}

impl WishBook {
    ghost use Rattle.std.specs.Prelude.{◌≡◌};
    ghost use Rattle.wishbook.specs.Contents.{contents};

    /// The different nodes, in the order of their numbers: 1 to 128, and the operands of each are numbers of earlier ones.
    pub fn nodes(&self) -> &[Node]
        ensures { result.now ≡ (contents self.now).nodes }
    {
        self.nodes.as_slice()
    }

    /// The wishes in book order, 1 to 16, each by the number of its node.
    pub fn wishes(&self) -> &[Wish]
        ensures { result.now ≡ (contents self.now).wishes }
    {
        self.wishes.as_slice()
    }

    /// The memory items, at most 16, in the order of their nodes, held before failed: item i is bit i of a memory.
    pub fn items(&self) -> &[Item]
        ensures { result.now ≡ (contents self.now).items }
    {
        self.items.as_slice()
    }
}
