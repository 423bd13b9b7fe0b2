//! How the values of an action's outcomes are joined into one, and what a reward counts in each slot.

#![tactic(auto)]

ghost use Rattle.std.specs.Prelude.{◌≡◌};
ghost use Rattle.weighmodel.specs.Weighings.{LawfulWeigh, Weigh, held, mean, worst};
ghost use Rattle.weighmodel.proofs.Lawful.{mean_lawful, worst_lawful};

mod discounts;

pub use discounts::discount;

/// The greatest value; the least is its negative.
pub const MOST: i64 = 1 << 59;

const LEAST: i64 = -MOST;

/// How the values of an action's outcomes are joined into one (docs/FORMATS.md, "Discounts, weighings and worths").
pub trait Weighing {
    ghost meaning: { Self → Weigh };

    /// How much one slot's reward counts more than the next one's, 1 to 8.
    fn unit(&self) -> u8
        ensures unit { result ≡ (meaning self.now).unit };

    /// What the joining starts from.
    fn first(&self) -> i64
        ensures first { result ≡ (meaning self.now).first };

    /// The value so far joined with one more, which is that of an outcome with this weight, in eighths.
    fn join(&self, so_far: i64, weight: u8, value: i64) -> i64
        ensures joined { result ≡ (meaning self.now).join so_far weight value };

    ghost lawful: { (w : Self) → LawfulWeigh (meaning w) };
}

/// The values' mean by their weights, in eighths: eight times the mean where the weights total 8.
#[derive(Clone, Copy, Debug, PartialEq, Eq)]
pub struct Mean;

/// The least of the values, whatever their weights.
#[derive(Clone, Copy, Debug, PartialEq, Eq)]
pub struct Worst;

impl Weighing for Mean {
    ghost meaning = { λ _. mean };

    ghost lawful = { λ w. mean_lawful };

    fn unit(&self) -> u8 {
        8
    }

    fn first(&self) -> i64 {
        0
    }

    fn join(&self, so_far: i64, weight: u8, value: i64) -> i64 {
        let start = hold(so_far);
        let eighths = weight.min(8) as i64;
        let worth = hold(value);
        hold(start + eighths * worth)
    }
}

impl Weighing for Worst {
    ghost meaning = { λ _. worst };

    ghost lawful = { λ w. worst_lawful };

    fn unit(&self) -> u8 {
        1
    }

    fn first(&self) -> i64 {
        MOST
    }

    fn join(&self, so_far: i64, _weight: u8, value: i64) -> i64 {
        hold(so_far).min(hold(value))
    }
}

/// The value held within ±2^59: the nearest one there.
pub fn hold(x: i64) -> i64
    ensures held { result ≡ held x }
{
    x.clamp(LEAST, MOST)
}
