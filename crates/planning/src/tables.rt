// The plan of a model, in two lent tables.
ghost use Rattle.std.specs.Prelude.{◌≡◌, ◌+◌, ◌*◌, length, OnOk};
ghost use Rattle.planning.specs.Choices.{ChoosesLowest, NothingHeld};
ghost use Rattle.planning.specs.Plans.{answer_of, choice_at, Left, NobodyBetter, worth_at};

use crate::planner::Planner;
use crate::sizes::check_sizes;
use model::Numbered;
use refusal::Refusal;
use weighing::Weighing;

/// Plans back from a horizon: the worth of each state with so many slots left into one table, and the lowest action that is best there
/// into the other. The answer is the start's worth with all slots left.
///
/// With k slots left, a worth stands at k × states + state, in parts of a reward: 256 × unit^k of them are one. A choice stands at
/// (k − 1) × states + state. A table takes no more than its places: (horizon + 1) × states worths and horizon × states choices.
pub fn plan<M: Numbered, W: Weighing>(
    model: &M,
    weighing: &W,
    horizon: usize,
    worths: &mut [i64],
    choices: &mut [u8],
) -> Result<i64, Refusal>
    ensures answer { result ≡ answer_of (W.meaning weighing.now) (M.SiteModel.meaning model.now)
        horizon (length worths.old) (length choices.old) }
    ensures worths { Left result
        (worth_at (W.meaning weighing.now) (M.SiteModel.meaning model.now) horizon)
        ((horizon + 1) * (M.SiteModel.meaning model.now).span)
        worths.old worths.new }
    ensures choices { Left result
        (choice_at (W.meaning weighing.now) (M.SiteModel.meaning model.now) horizon)
        (horizon * (M.SiteModel.meaning model.now).span)
        choices.old choices.new }
    ensures nobody { NobodyBetter (W.meaning weighing.now) (M.SiteModel.meaning model.now)
        horizon choices.new result }
    ensures chooses { OnOk result (ChoosesLowest (W.meaning weighing.now)
        (M.SiteModel.meaning model.now) horizon worths.new choices.new) }
    ensures free { OnOk result (NothingHeld (W.meaning weighing.now)
        (M.SiteModel.meaning model.now) horizon worths.new) }
{
    let states = model.count();
    check_sizes(states, horizon, worths.len(), choices.len())?;
    let planner = Planner {
        model,
        weighing,
        horizon,
    };
    planner.fill(&mut *worths, &mut *choices);
    Ok(worths[horizon * states + model.start() as usize])
}
