// The verdicts on the nodes of a book in a state: from the label mask and what is recalled, the truth of each
// in rising order.
ghost use Rattle.std.specs.Prelude.{◌≡◌, ◌<◌, ◌≤◌, false, length, take, slice_index_or};
ghost use Rattle.wishbook.specs.Contents.{contents};
ghost use Rattle.layermodel.specs.Verdicts.{verdict as verdict_of, verdicts};
ghost use Rattle.layermodel.specs.Verdicts.{recalled_by};
ghost use Rattle.layermodel.specs.Layered.{verdicts_in};

use crate::recalled::Recalled;
use formula::{Item, Node};
use truth::shows;
use wishbook::WishBook;

/// What a table of truths has at the number of a node, false past its end.
pub fn at(table: &[bool], node: u8) -> bool
    ensures { result ≡ slice_index_or table.now node false }
{
    formula::at(table, node.into(), false)
}

// The truth of the next node, after the nodes before it.
fn verdict(node: Node, mask: u32, recalled: &Recalled, before: &[bool]) -> bool
    requires { length before.now < 128 }
    ensures { result ≡
        verdict_of mask (recalled_by recalled.now) (length before.now) before.now node }
{
    let here = before.len() as u8;
    match node {
        Node::Label(p) => shows(mask, p as u32),
        Node::True => true,
        Node::Not(a) => !at(before, a),
        Node::And(a, b) => at(before, a) && at(before, b),
        Node::Or(a, b) => at(before, a) || at(before, b),
        Node::Previous(a) => recalled.tells(Item::Held(a)),
        Node::Since(a, b) => (at(before, a) && recalled.tells(Item::Held(here))) || at(before, b),
        Node::Always(a) => !recalled.tells(Item::Failed(here)) && at(before, a),
        Node::Once(a) => recalled.tells(Item::Held(here)) || at(before, a),
    }
}

// The truth of each of at most 128 nodes, in rising order.
fn truths(nodes: &[Node], mask: u32, recalled: &Recalled) -> [bool; 128]
    requires { length nodes.now ≤ 128 }
    ensures { take (length nodes.now) result ≡ verdicts mask (recalled_by recalled.now) nodes.now }
{
    let mut known = [false; 128];
    for (i, node) in nodes.iter().enumerate() {
        known[i] = verdict(*node, mask, recalled, &known[..i]);
    }
    known
}

/// The truth of each node of a book in a state, from the label mask and the remembered bits.
pub fn judge(book: &WishBook, mask: u32, memory: u64) -> [bool; 128]
    ensures { take (length (contents book.now).nodes) result ≡
        verdicts_in (contents book.now) mask memory }
{
    truths(book.nodes(), mask, &Recalled::of(book, memory))
}
