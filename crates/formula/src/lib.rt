//! Formulas about the past as lists of nodes: merging equal nodes, the nodes that rewards rest on, and what is remembered of them.

#![tactic(auto)]

ghost use Rattle.formula.specs.declared.Item.TheVariants.{Held};
ghost use Rattle.std.specs.Prelude.{◌≡◌};

use register::Key;

mod items;
mod merging;
mod resting;
mod table;

pub use items::keep_items;
pub use merging::{Merged, merge};
pub use resting::{mark, mark_resting};
pub use table::at;

/// How many nodes are numbered at most.
pub const NODES: usize = 128;

/// One node of a formula; a label goes by its number, and an operand by that of an earlier node, both counted from 0. `Since(a, b)` is
/// "a since b". What each means is said in docs/FORMATS.md.
#[derive(Clone, Copy, Debug, PartialEq, Eq, Default)]
pub enum Node {
    Label(u8),
    #[default]
    True,
    Not(u8),
    And(u8, u8),
    Or(u8, u8),
    Previous(u8),
    Since(u8, u8),
    Always(u8),
    Once(u8),
}

// A node's operands make the number that its bucket comes of; nodes with few operands in common mostly fall apart.
// `mark_operands` matches on them too: there places are marked, here a number is made, so that one list of them would serve neither.
impl Key for Node {
    ghost use Rattle.formula.specs.Merging.{first_field, second_field};
    ghost use Rattle.std.proofs.Common.{rules, ◌+◌, ◌*◌};

    ghost bucket = { λ node. first_field node + 256 * second_field node };

    ghost shares_bucket = { Prim.search rules };

    fn bucket(&self) -> usize {
        match *self {
            Node::True => 0,
            Node::Label(a) | Node::Not(a) | Node::Previous(a) | Node::Always(a) | Node::Once(a) => {
                a.into()
            }
            Node::And(a, b) | Node::Or(a, b) | Node::Since(a, b) => a as usize + 256 * b as usize,
        }
    }
}

/// What is remembered of the node of that number from step to step: whether it held a step ago, or whether it ever failed.
#[derive(Clone, Copy, Debug, PartialEq, Eq)]
pub enum Item {
    Held(u8),
    Failed(u8),
}

// By hand, since no variant is without a field.
impl Default for Item {
    ghost is_default = { λ item. item ≡ Held 0 };

    fn default() -> Item {
        Item::Held(0)
    }
}
