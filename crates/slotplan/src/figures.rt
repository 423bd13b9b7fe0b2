// A worth as a plain figure of rewards.
ghost use Rattle.slotplan.specs.Figures.{figure_text, parts_of};
ghost use Rattle.std.specs.Prelude.{◌≡◌, ◌↔◌, ◌*◌, ◌/◌, ◌%◌, ◌^◌, ◌<◌, ◌≤◌, ◌<ℤ◌, IsTrue, Some, pos, unsigned_abs};

use std::fmt;

/// A number to three decimals, rounded toward zero. The sign is that of the number: what is just below 0 is -0.000.
#[derive(Clone, Copy, Debug, PartialEq, Eq)]
pub struct Figure {
    pub negative: bool,
    pub whole: u64,
    pub thousandths: u64,
    ghost small: { thousandths < 1000 },
}

impl Figure {
    /// The figure of a plan's worth.
    pub fn of_worth(worth: i64, unit: u8, horizon: usize) -> Figure
        ensures negative { IsTrue result.negative ↔ (worth <ℤ pos 0) }
        ensures whole { result.whole ≡ unsigned_abs worth / parts_of unit horizon }
        ensures thousandths { result.thousandths
            ≡ unsigned_abs worth % parts_of unit horizon * 1000 / parts_of unit horizon }
    {
        Figure::new(worth, parts(unit, horizon))
    }

    // A value that is counted in so many parts of one.
    pub(crate) fn new(value: i64, parts: u64) -> Figure
        requires some { 1 ≤ parts }
        requires few { parts ≤ 2 ^ 44 }
        ensures negative { IsTrue result.negative ↔ (value <ℤ pos 0) }
        ensures whole { result.whole ≡ unsigned_abs value / parts }
        ensures thousandths { result.thousandths ≡ unsigned_abs value % parts * 1000 / parts }
    {
        let size = value.unsigned_abs();
        Figure {
            negative: value < 0,
            whole: size / parts,
            thousandths: size % parts * 1000 / parts,
        }
    }
}

fn parts(unit: u8, horizon: usize) -> u64
    ensures value { result ≡ parts_of unit horizon }
    ensures some { 1 ≤ result }
    ensures few { result ≤ 2 ^ 44 }
{
    let unit = unit.clamp(1, 8) as u64;
    256 * unit.pow(horizon.min(12) as u32)
}

impl fmt::Display for Figure {
    ghost output = { λ f. Some (figure_text f.negative f.whole f.thousandths) };

    fn fmt<W: fmt::Write>(&self, f: &mut fmt::Formatter<W>) -> fmt::Result {
        let sign = if self.negative { "-" } else { "" };
        let Figure {
            whole,
            thousandths,
            ..
        } = self;
        write!(f, "{sign}{whole}.{thousandths:03}")
    }
}
