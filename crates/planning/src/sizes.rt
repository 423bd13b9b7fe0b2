// Whether a plan can be made, from sizes alone.
ghost use Rattle.std.specs.Prelude.{◌≡◌};
ghost use Rattle.planning.specs.Plans.{sizes_refusal};
ghost use Rattle.refusal.specs.Rows.{unless};

use crate::planner::SLOTS;
use refusal::Refusal;

/// What planning for so many states would answer in tables of so many worths and choices, before anything is planned.
pub fn check_sizes(
    states: usize,
    horizon: usize,
    worths: usize,
    choices: usize,
) -> Result<(), Refusal>
    ensures { result ≡ unless (sizes_refusal states horizon worths choices) tt }
{
    if horizon > SLOTS {
        return Err(Refusal::HorizonTooLong);
    }
    let rows = horizon as u128;
    let states = states as u128;
    if (worths as u128) < (rows + 1) * states || (choices as u128) < rows * states {
        return Err(Refusal::PlanTableShort);
    }
    Ok(())
}
