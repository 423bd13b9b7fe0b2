// The words of wish books: formulas about the past, and what each is worth.

#![tactic(auto)]

ghost use Rattle.std.specs.Prelude.{◌≡◌, ◌<◌, unsigned_abs};
ghost use Rattle.wishlayout.specs.Kinds.{Decodes, width_of};
ghost use Rattle.wishlayout.specs.OneWord.{operand_in, node_of, wish_of};
ghost use Rattle.wishlayout.specs.Wishes.{amount as amount_of};

use formula::Node;
use refusal::Refusal;
use words::{field, open};

// The kinds of a wish word and of an end word are no kinds of node words: in the enum of those, the reader of a node would have to
// answer for two more that it can only refuse.

/// The kind of a wish word: its highest four bits (docs/FORMATS.md).
pub const WISH: u32 = 10;

/// The kind of an end word.
pub const END: u32 = 15;

// The kinds of node words, by their numbers.
#[derive(Clone, Copy)]
enum NodeKind {
    Label = 1,
    Not = 2,
    And = 3,
    Or = 4,
    Previous = 5,
    Since = 6,
    Always = 7,
    Once = 8,
    True = 9,
}

/// A wish: the number of a node, and its amount plus 255, so 0 to 511 for -255 to 256.
#[derive(Clone, Copy, Debug, PartialEq, Eq, Default)]
pub struct Wish {
    pub node: u8,
    pub raised: u16,
}

impl Wish {
    /// What the wish is worth in each slot in which it holds: -255 to 256 in a book that was read.
    pub fn amount(&self) -> i32
        ensures value { result ≡ amount_of self.now }
        ensures small { unsigned_abs result < 65536 }
    {
        i32::from(self.raised) - 255
    }
}

impl TryFrom<u32> for NodeKind {
    type Error = Refusal;

    ghost try_from_gives = { Decodes };

    fn try_from(number: u32) -> Result<NodeKind, Refusal> {
        match number {
            1 => Ok(NodeKind::Label),
            2 => Ok(NodeKind::Not),
            3 => Ok(NodeKind::And),
            4 => Ok(NodeKind::Or),
            5 => Ok(NodeKind::Previous),
            6 => Ok(NodeKind::Since),
            7 => Ok(NodeKind::Always),
            8 => Ok(NodeKind::Once),
            9 => Ok(NodeKind::True),
            _ => Err(Refusal::WrongKind),
        }
    }
}

impl NodeKind {
    // How many of its lowest bits a word of this kind uses.
    fn width(self) -> u32
        ensures { result ≡ width_of self }
    {
        match self {
            NodeKind::True => 0,
            NodeKind::Label => 5,
            NodeKind::Not | NodeKind::Previous | NodeKind::Always | NodeKind::Once => 8,
            NodeKind::And | NodeKind::Or | NodeKind::Since => 16,
        }
    }
}

// The operand in the eight bits from bit `low` on: the number of an earlier node word.
fn operand(word: u32, low: u32, count: u32) -> Result<u8, Refusal>
    ensures { result ≡ operand_in low count word }
{
    let a = field(word, low, 8);
    if a >= count {
        return Err(Refusal::OutOfRange);
    }
    Ok(a as u8)
}

/// A node word after `count` others, or what is wrong with it: WrongKind, UnusedBit or OutOfRange, tested in this order
/// (docs/REFUSALS.md).
// `open` tests its kind again, with the unused bits that the kind leaves.
pub fn read_node(word: u32, count: u32) -> Result<Node, Refusal>
    ensures { result ≡ node_of count word }
{
    let kind = NodeKind::try_from(word >> 28)?;
    open(word, kind as u32, kind.width())?;
    Ok(match kind {
        NodeKind::Label => Node::Label(field(word, 0, 5) as u8),
        NodeKind::True => Node::True,
        NodeKind::Not => Node::Not(operand(word, 0, count)?),
        NodeKind::And => Node::And(operand(word, 0, count)?, operand(word, 8, count)?),
        NodeKind::Or => Node::Or(operand(word, 0, count)?, operand(word, 8, count)?),
        NodeKind::Previous => Node::Previous(operand(word, 0, count)?),
        NodeKind::Since => Node::Since(operand(word, 0, count)?, operand(word, 8, count)?),
        NodeKind::Always => Node::Always(operand(word, 0, count)?),
        NodeKind::Once => Node::Once(operand(word, 0, count)?),
    })
}

/// A wish word after `count` node words, or what is wrong with it, tested in the same order.
pub fn read_wish_word(word: u32, count: u32) -> Result<Wish, Refusal>
    ensures { result ≡ wish_of count word }
{
    open(word, WISH, 17)?;
    Ok(Wish {
        node: operand(word, 0, count)?,
        raised: field(word, 8, 9) as u16,
    })
}
