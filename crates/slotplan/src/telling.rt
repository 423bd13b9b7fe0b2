// What a plan's worth is as a figure.
ghost use Rattle.std.specs.Prelude.{◌↔◌, ◌≡◌, ◌*◌, ◌/◌, ◌%◌, ◌^◌, ◌<ℤ◌, IsTrue, pos, unsigned_abs};
ghost use Rattle.slotplan.specs.Telling.{parts_of_plan};

use crate::figures::Figure;
use promise::Plan;

/// What the start is worth, as a figure of rewards in slot 0.
pub fn figure_of(plan: &Plan) -> Figure
    ensures negative { IsTrue result.negative ↔ (plan.now.worth <ℤ pos 0) }
    ensures whole { result.whole ≡ unsigned_abs plan.now.worth / parts_of_plan plan.now }
    ensures thousandths { result.thousandths
        ≡ unsigned_abs plan.now.worth % parts_of_plan plan.now * 1000 / parts_of_plan plan.now }
{
    Figure::of_worth(plan.worth(), plan.unit(), plan.horizon())
}
