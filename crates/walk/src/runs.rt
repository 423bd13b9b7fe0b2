// A walk through numbers that are known beforehand.
ghost use Rattle.std.specs.Prelude.{◌≡◌, ◌++◌, length, not, take, drop};
ghost use Rattle.walk.specs.Courses.{CourseOn};
ghost use Rattle.walk.specs.Views.{walk_of};
ghost use Rattle.walk.specs.Walker.{begun, is_choosing, run, reached, walk_has};
ghost use Rattle.weighing.specs.Discounts.{discount_of};

use crate::{Course, Sight, Step, Turned, Walker};
use model::SiteModel;

/// Opens a walk, gives it the numbers in order, and closes it where it can be closed. The table takes what each number did, and what the
/// walk had after it, for as many numbers as it has places.
pub fn replay<M: SiteModel>(model: &M, numbers: &[u32], steps: &mut [Step]) -> Course
    ensures steps { steps.new ≡ run discount_of (M.SiteModel.meaning model.now)
        (begun discount_of (M.SiteModel.meaning model.now)) (take (length steps.old) numbers.now) ++
        drop (length numbers.now) steps.old }
    ensures course { CourseOn discount_of (M.SiteModel.meaning model.now) numbers.now result }
{
    let opening = Walker::open(model).sight(model);
    let told = numbers.len().min(steps.len());
    let walker = stepped(model, numbers, steps);
    ended(model, opening, led(model, walker, &numbers[told..]))
}

// Opens a walk and gives it the numbers in order, as many as the table has places for.
fn stepped<M: SiteModel>(model: &M, numbers: &[u32], steps: &mut [Step]) -> Walker
    ensures steps { steps.new ≡ run discount_of (M.SiteModel.meaning model.now)
        (begun discount_of (M.SiteModel.meaning model.now)) (take (length steps.old) numbers.now) ++
        drop (length numbers.now) steps.old }
    ensures walker { walk_of result ≡ reached discount_of (M.SiteModel.meaning model.now)
        (begun discount_of (M.SiteModel.meaning model.now)) (take (length steps.old) numbers.now) }
{
    let mut walker = Walker::open(model);
    let given = &numbers[..numbers.len().min(steps.len())];
    for (i, number) in given.iter().enumerate() {
        let Turned {
            refusal,
            walker: next,
        } = walker.turn(model, *number);
        steps[i] = Step {
            refusal,
            sight: next.sight(model),
        };
        walker = next;
    }
    walker
}

// Gives a walk further numbers, of which nothing is told.
fn led<M: SiteModel>(model: &M, walker: Walker, numbers: &[u32]) -> Walker
    ensures { walk_of result ≡
        reached discount_of (M.SiteModel.meaning model.now) (walk_of walker) numbers.now }
{
    let mut walker = walker;
    for number in numbers {
        walker = walker.turn(model, *number).walker;
    }
    walker
}

// Closes a walk where it can be closed.
fn ended<M: SiteModel>(model: &M, opening: Sight, walker: Walker) -> Course
    ensures opening { result.opening ≡ opening }
    ensures last { result.last ≡ walk_has (M.SiteModel.meaning model.now) (walk_of walker) }
    ensures closed { result.closed ≡ not (is_choosing (walk_of walker)) }
{
    match walker.end(model) {
        Ok(last) => Course {
            opening,
            last,
            closed: true,
        },
        Err(walker) => Course {
            opening,
            last: walker.sight(model),
            closed: false,
        },
    }
}
