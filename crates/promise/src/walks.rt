// The whole promise.
ghost use Rattle.std.specs.Prelude.{IfOk, OnOk};
ghost use Rattle.planning.specs.Choices.{ChoosesLowest, NothingHeld};
ghost use Rattle.promise.specs.Corresponding.{book_model};
ghost use Rattle.promise.specs.Planning.{NobodyEarnsMore, PlanEarns, PlansAs, TablesLeft, TablesStay};
ghost use Rattle.promise.specs.Walking.{CourseInBook, CourseTold, StepsInBook, StepsTold, WalkedInBook, WalksStay};
ghost use Rattle.promise.specs.Promises.{Promises};
ghost use Rattle.promise.specs.WholePlan.{IsPlanOf};

use crate::causes::Unplanned;
use crate::plans::{Plan, Tables, plan_pile};
use pile::Pile;
use std::alloc::Global;
use walk::{Course, Step, replay};
use weighing::Weighing;

/// The tables that two walks are told in: on the pile, and in its book.
#[derive(Drop)]
pub struct Walks<'a> {
    pub on_pile: &'a mut [Step],
    pub in_book: &'a mut [Step],
}

/// What came of a pile: the plan, or why there is none; the walk on the pile; and the walk in the book where there is a plan.
#[derive(Drop)]
pub struct Journey {
    pub plan: Result<Plan, Unplanned>,
    pub on_pile: Course,
    pub in_book: Option<Course>,
}

// Walks on the book of a plan, where there is one.
fn walk_in_book(
    plan: &Result<Plan, Unplanned>,
    numbers: &[u32],
    steps: &mut [Step],
) -> Option<Course>
    ensures { WalkedInBook numbers.now plan.now steps.old steps.new result }
{
    match plan {
        Ok(plan) => Some(replay(plan.book(), numbers, steps)),
        Err(_) => None,
    }
}

/// Plans on the book that is written out of the pile, and walks through the numbers, each a choice where none is open and else a told
/// outcome: once on the pile, and once on the book. Both walks are closed at the end, where no outcome is missing.
/// For every lawful ground model and every pile on it, walker and reckoner agree on the pile and on its book (`pile`), the plan earns
/// exactly its worth (`earns`), and no policy that knows the whole history earns more (`nobody`).
pub fn plan_and_walk<P: Pile, W: Weighing>(
    heap: Global,
    pile: &P,
    weighing: &W,
    horizon: usize,
    numbers: &[u32],
    tables: &mut Tables,
    walks: &mut Walks,
) -> Journey
    ensures answer { PlansAs (W.meaning weighing.now) (P.SiteModel.meaning pile.now) horizon
        tables.old result.plan }
    ensures tables { TablesLeft (W.meaning weighing.now) (P.SiteModel.meaning pile.now) horizon
        result.plan tables.old tables.new }
    ensures on_pile { StepsTold (P.Pile.piling pile.now) numbers.now walks.old.on_pile.now
        walks.new.on_pile.now }
    ensures in_book { StepsInBook (P.Pile.piling pile.now) numbers.now result.plan
        walks.old.in_book.now walks.new.in_book.now }
    ensures course_on_pile { CourseTold (P.Pile.piling pile.now) numbers.now result.on_pile }
    ensures course_in_book { CourseInBook (P.Pile.piling pile.now) numbers.now result.plan
        result.in_book }
    ensures lent { TablesStay tables.old tables.new × WalksStay walks.old walks.new }
    ensures plan { IfOk result.plan
        (IsPlanOf (W.meaning weighing.now) (P.Pile.piling pile.now) horizon) }
    ensures chooses { OnOk result.plan
        (ChoosesLowest (W.meaning weighing.now) (book_model (P.SiteModel.meaning pile.now)) horizon
        tables.new.worths.now tables.new.choices.now) }
    ensures free { OnOk result.plan
        (NothingHeld (W.meaning weighing.now) (book_model (P.SiteModel.meaning pile.now)) horizon
        tables.new.worths.now) }
    ensures earns { PlanEarns (W.meaning weighing.now) (P.Pile.piling pile.now) horizon tables.new
        result.plan }
    ensures nobody { NobodyEarnsMore (W.meaning weighing.now) (P.Pile.piling pile.now) horizon
        result.plan }
    ensures pile { Promises (P.SiteModel.meaning pile.now) (P.Pile.piling pile.now) }
{
    let on_pile = replay(pile, numbers, &mut *walks.on_pile);
    let plan = plan_pile(heap, pile, weighing, horizon, tables);
    let in_book = walk_in_book(&plan, numbers, &mut *walks.in_book);
    Journey {
        plan,
        on_pile,
        in_book,
    }
}
