ghost use Rattle.formula.specs.Formulas.{earlier};
ghost use Rattle.formula.specs.Resting.{operands, all_marked, spread, Exact, Rested};
ghost use Rattle.std.specs.Prelude.{◌≡◌, true, IsTrue, length, slice_set};

use super::table::at;
use super::{NODES, Node};

/// Marks a place, unless it is past the end.
// The contract of a slice's `get_mut` does not say what the table becomes.
pub fn mark(marks: &mut [bool], place: usize)
    ensures { marks.new ≡ slice_set marks.old place true }
{
    if place < marks.len() {
        marks[place] = true;
    }
}

// Marks the operands of a node.
fn mark_operands(marks: &mut [bool], node: Node)
    ensures { marks.new ≡ all_marked marks.old (operands node) }
{
    match node {
        Node::Label(_) | Node::True => {}
        Node::Not(a) | Node::Previous(a) | Node::Always(a) | Node::Once(a) => {
            mark(marks, a.into());
        }
        Node::And(a, b) | Node::Or(a, b) | Node::Since(a, b) => {
            mark(marks, a.into());
            mark(marks, b.into());
        }
    }
}

fn mark_all(marks: &mut [bool], places: &[u8])
    ensures { marks.new ≡ all_marked marks.old places.now }
{
    for place in places {
        mark(marks, (*place).into());
    }
}

// From the highest node down: where one is marked, so are its operands. The marks change on the way, so each is read by its number.
fn mark_below(marks: &mut [bool], nodes: &[Node])
    ensures { marks.new ≡ spread nodes.now (length nodes.now) marks.old }
{
    for (i, node) in nodes.iter().enumerate().rev() {
        if at(marks, i, false) {
            mark_operands(marks, *node);
        }
    }
}

/// For each node, whether some root rests on it, the roots being numbers of nodes; the places past the last node are not marked.
/// There is no answer for more than `NODES` nodes.
#[tactic(auto, using(crate::proofs::Marks::exact))]
pub fn mark_resting(nodes: &[Node], roots: &[u8]) -> Option<[bool; NODES]>
    ensures marked { Rested nodes.now roots.now result }
    ensures exact { IsTrue (earlier nodes.now) → Exact nodes.now roots.now }
{
    if nodes.len() > NODES {
        return None;
    }
    let mut marks = [false; NODES];
    let used = &mut marks[..nodes.len()];
    mark_all(used, roots);
    mark_below(used, nodes);
    Some(marks)
}
