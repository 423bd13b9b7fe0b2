// What has been read of a wish book so far: the node words, and the wishes after them.
ghost use Rattle.bounded.specs.Listed.{listed};
ghost use Rattle.wishbook.specs.Drafts.{GoodSoFar};

use bounded::Bounded;
use formula::Node;
use wishlayout::Wish;

mod make;
mod steps;

#[derive(Clone, Copy)]
pub struct Gathered {
    nodes: Bounded<Node, 128>,
    wishes: Bounded<Wish, 16>,
    ghost good: { GoodSoFar (listed nodes) (listed wishes) },
}
