// The parts of a book: its wishes by the numbers of their nodes, and its memory items.
ghost use Rattle.bounded.specs.Listed.{listed};
ghost use Rattle.std.specs.Prelude.{◌≡◌, map};
ghost use Rattle.wishbook.specs.Book.{renamed, items_over};
ghost use Rattle.wishbook.specs.Contents.{Remembered};

use bounded::Bounded;
use formula::{Item, Node, at, keep_items, mark_resting};
use wishlayout::Wish;

// The wishes, each by the number of its node. Here and in `roots` a loop fills the list by `push`: see crate bounded.
pub(super) fn rename_all(wishes: &Bounded<Wish, 16>, numbers: &[u8]) -> Bounded<Wish, 16>
    ensures { listed result ≡ map (renamed numbers.now) (listed wishes.now) }
{
    let mut all = Bounded::new();
    for wish in wishes.as_slice() {
        let _ = all.push(Wish {
            node: at(numbers, wish.node as usize, 0),
            ..*wish
        });
    }
    all
}

// The nodes of the wishes.
fn roots(wishes: &Bounded<Wish, 16>) -> Bounded<u8, 16>
    ensures { listed result ≡ map (λ w. w.node) (listed wishes.now) }
{
    let mut all = Bounded::new();
    for wish in wishes.as_slice() {
        let _ = all.push(wish.node);
    }
    all
}

// The memory items of the wishes, unless they are more than 16; more than 128 nodes there are not.
#[tactic(auto, using(formula::proofs::Padded::kept_rested))]
pub(super) fn remember(
    nodes: &Bounded<Node, 128>,
    wishes: &Bounded<Wish, 16>,
) -> Option<Bounded<Item, 16>>
    ensures { Remembered (items_over (listed nodes.now) (listed wishes.now)) result }
{
    let marks = mark_resting(nodes, &roots(wishes))?;
    keep_items(nodes, &marks)
}
