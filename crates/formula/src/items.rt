ghost use Rattle.std.specs.Prelude.{◌≡◌, ℕ, ◌<◌, false, ◌||◌, length, slice_index_or};
ghost use Rattle.formula.specs.Items.{lasting, is_always, looks_back, back_below, kept_items, ListsItems, Selected};

use super::resting::mark;
use super::{Item, NODES, Node};
use bounded::Bounded;

// Whether the held item of a used node is kept.
fn keeps_held(node: Node, back: bool) -> bool
    ensures { result ≡ (lasting node || back) }
{
    back || matches!(node, Node::Since(_, _) | Node::Once(_))
}

// Whether its failed item is.
fn keeps_failed(node: Node) -> bool
    ensures { result ≡ is_always node }
{
    matches!(node, Node::Always(_))
}

// A previous marks its operand.
fn look_back(back: &mut [bool], node: Node)
    ensures { (k : ℕ) → k < length back.old
        → slice_index_or back.new k false ≡ (slice_index_or back.old k false || looks_back k node) }
{
    if let Node::Previous(a) = node {
        mark(back, a.into());
    }
}

// For each number, whether a previous that is used has the node of that number as its operand. Like the marks it is a table by
// number beside the nodes: those are lent, and one list of all three would copy them.
fn looked_back(nodes: &[Node], marks: &[bool]) -> [bool; NODES]
    ensures { (k : ℕ) → k < 128
        → slice_index_or result k false ≡ back_below nodes.now marks.now (length nodes.now) k }
{
    let mut back = [false; NODES];
    for (node, marked) in nodes.iter().zip(marks) {
        if *marked {
            look_back(&mut back, *node);
        }
    }
    back
}

/// The items that are kept of the marked nodes, by node number, held before failed; a node past the marks is not marked. There is
/// no answer for more than `NODES` nodes, or where more than `MOST` items are kept.
#[tactic(auto, using(crate::proofs::Chosen::selected))]
pub fn keep_items<const MOST: usize>(nodes: &[Node], marks: &[bool]) -> Option<Bounded<Item, MOST>>
    ensures answer { ListsItems nodes.now marks.now result }
    ensures selected { Selected nodes.now marks.now (kept_items nodes.now marks.now) }
{
    if nodes.len() > NODES {
        return None;
    }
    let looked = looked_back(nodes, marks);
    let mut items = Bounded::new();
    for (i, ((node, marked), back)) in nodes.iter().zip(marks).zip(&looked).enumerate() {
        if *marked {
            if keeps_held(*node, *back) {
                items.push(Item::Held(i as u8)).ok()?;
            }
            if keeps_failed(*node) {
                items.push(Item::Failed(i as u8)).ok()?;
            }
        }
    }
    Some(items)
}
