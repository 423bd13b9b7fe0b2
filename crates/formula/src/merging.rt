ghost use Rattle.formula.specs.Formulas.{earlier};
ghost use Rattle.formula.specs.Merging.{renumbered, KeepsFormulas, Merges};
ghost use Rattle.std.specs.Prelude.{◌≡◌, ◌≤◌, IsTrue, length};

use super::table::at;
use super::{NODES, Node};
use bounded::Bounded;
use register::{Few, Register};

// Up to how many words are merged without an index: a look at each node is then as quick as the 24 KB that an index wipes.
const FEW: usize = 32;

/// The different nodes of some words, in order of first appearance, and the number of each word's node, counted from 0.
#[derive(Clone, Copy)]
pub struct Merged {
    pub nodes: Bounded<Node, NODES>,
    pub numbers: Bounded<u8, NODES>,
}

// The word with its operands through the numbers of the words before it.
fn renumber(numbers: &[u8], word: Node) -> Node
    ensures { result ≡ renumbered numbers.now word }
{
    let number = |a: u8| at(numbers, a as usize, 0);
    match word {
        Node::Label(p) => Node::Label(p),
        Node::True => Node::True,
        Node::Not(a) => Node::Not(number(a)),
        Node::And(a, b) => Node::And(number(a), number(b)),
        Node::Or(a, b) => Node::Or(number(a), number(b)),
        Node::Previous(a) => Node::Previous(number(a)),
        Node::Since(a, b) => Node::Since(number(a), number(b)),
        Node::Always(a) => Node::Always(number(a)),
        Node::Once(a) => Node::Once(number(a)),
    }
}

/// Merges node words: words with the same kind and fields, operands merged first, are one node. There is no answer for more than
/// `NODES` words.
// A register lists its keys in a table that it is lent: here one that is copied at the end.
pub fn merge(words: &[Node]) -> Option<Merged>
    ensures answer { Merges words.now result }
    ensures faithful { IsTrue (earlier words.now) → KeepsFormulas words.now }
{
    if words.len() > NODES {
        return None;
    }
    if words.len() <= FEW {
        return merge_few(words);
    }
    merge_many(words)
}

// Merges more words, by a register with an index. A function of its own: what it keeps is wiped where it begins.
fn merge_many(words: &[Node]) -> Option<Merged>
    requires { length words.now ≤ 128 }
    ensures { Merges words.now result }
{
    let mut table = [Node::default(); NODES];
    let mut register = Register::new(&mut table);
    let mut numbers = Bounded::new();
    for word in words {
        let node = renumber(&numbers, *word);
        let place = register.enter(node)?;
        // There is room: there are no more numbers than words.
        let _ = numbers.push(place as u8);
    }
    Some(Merged {
        nodes: Bounded::from_slice(register.as_slice()),
        numbers,
    })
}

// Merges few words: a register with no index writes nothing but its table.
fn merge_few(words: &[Node]) -> Option<Merged>
    requires { length words.now ≤ 32 }
    ensures { Merges words.now result }
{
    let mut table = [Node::default(); FEW];
    let mut few = Few::new(&mut table);
    let mut numbers = Bounded::new();
    for word in words {
        let node = renumber(&numbers, *word);
        let place = few.enter(node)?;
        // There is room: there are no more numbers than words.
        let _ = numbers.push(place as u8);
    }
    Some(Merged {
        nodes: Bounded::from_slice(few.as_slice()),
        numbers,
    })
}
