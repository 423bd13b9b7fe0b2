// What is planned for, and the filling of the two tables from the last slot back.
ghost use Rattle.std.specs.Prelude.{◌≡◌, IfSome, ◌≤◌, ◌<◌, ◌+◌, ◌*◌, ◌^◌, ◌*ℤ◌, length, pos, unsigned_abs};
ghost use Rattle.bounded.specs.Listed.{listed as ways};
ghost use Rattle.weighing.specs.Discounts.{discount_of};
ghost use Rattle.weighmodel.specs.Weighings.{Within, held};
ghost use Rattle.worth.specs.Worths.{action_of, joined, own_part, pick_at, summed};
ghost use Rattle.planning.specs.Plans.{choice_at, EntryAt, Filled, HoldsTo, stored_worth, worth_at};

use model::{Numbered, Outcome, Outcomes};
use weighing::{Weighing, discount, hold};
use worth::{Pick, better};

// The slots that a horizon has at most.
pub(crate) const SLOTS: usize = 12;

// A reward, so many times.
fn scaled(units: u64, reward: i32) -> i64
    requires units { units ≤ 2 ^ 44 }
    requires reward { unsigned_abs reward ≤ 2000 }
    ensures product { result ≡ pos units *ℤ reward }
    ensures held { Within result }
{
    units as i64 * reward as i64
}

// A state's own part, and the best of what comes after.
fn after(own: i64, best: Option<Pick>) -> Pick
    requires own { Within own }
    requires best { IfSome best (λ p. Within p.value) }
    ensures value { result.value ≡ summed held own best }
    ensures action { result.action ≡ action_of best }
{
    match best {
        Some(pick) => Pick {
            action: pick.action,
            value: hold(own + pick.value),
        },
        None => Pick {
            action: 0,
            value: own,
        },
    }
}

// A model, a weighing and a horizon.
#[derive(Drop)]
pub(crate) struct Planner<'a, M, W> {
    pub(crate) model: &'a M,
    pub(crate) weighing: &'a W,
    pub(crate) horizon: usize,
    ghost short: { horizon ≤ 12 },
}

impl<M: Numbered, W: Weighing> Planner<'_, M, W> {
    // The reward of a state in the slot that it comes to, in the units of the slots left.
    fn own(&self, left: usize, state: u64) -> i64
        requires { left ≤ self.now.horizon }
        ensures part { result ≡ own_part (W.meaning self.now.weighing.now) discount_of
            self.now.horizon left ((M.SiteModel.meaning self.now.model.now).reward state) }
        ensures held { Within result }
    {
        let reward = self.model.reward(state);
        let slot = discount(self.horizon - left) as u64;
        let unit = self.weighing.unit() as u64;
        scaled(unit.pow(left as u32) * slot, reward)
    }

    // One outcome more; what `below` has no place for counts 0.
    fn joined_on(&self, below: &[i64], so_far: i64, way: Outcome) -> i64
        ensures value { result ≡ (W.meaning self.now.weighing.now).join so_far way.weight
            (stored_worth below.now way.target) }
        ensures held { Within result }
    {
        let worth = below.get(way.target as usize).copied().unwrap_or(0);
        self.weighing.join(so_far, way.weight, worth)
    }

    // The worths of the outcomes joined in order.
    fn joined(&self, below: &[i64], outcomes: &Outcomes) -> i64
        ensures value { result ≡ joined (W.meaning self.now.weighing.now)
            (stored_worth below.now) (ways outcomes.now) }
        ensures held { Within result }
    {
        let mut so_far = self.weighing.first();
        for way in outcomes.as_slice() {
            so_far = self.joined_on(below, so_far, *way);
        }
        so_far
    }

    // The lowest of the offered actions that reaches the largest value.
    fn best(&self, below: &[i64], state: u64) -> Option<Pick>
        ensures { result ≡ pick_at (W.meaning self.now.weighing.now)
            (M.SiteModel.meaning self.now.model.now) (stored_worth below.now) state }
    {
        let mut best = None;
        for action in 0..self.model.actions() {
            if self.model.offers(state, action) {
                let value = self.joined(below, &self.model.outcomes(state, action));
                best = better(best, Pick { action, value });
            }
        }
        best
    }

    // The worth at a place, and with it the choice a row before, from the worths at the places before it.
    fn entry(&self, place: usize, worths: &[i64]) -> Pick
        requires inside { place <
            (self.now.horizon + 1) * (M.SiteModel.meaning self.now.model.now).span }
        requires room { place ≤ length worths.now }
        requires before { HoldsTo (worth_at (W.meaning self.now.weighing.now)
            (M.SiteModel.meaning self.now.model.now) self.now.horizon) place worths.now }
        ensures entry { EntryAt (W.meaning self.now.weighing.now)
            (M.SiteModel.meaning self.now.model.now) self.now.horizon place result }
        ensures small { result.action < 8 }
    {
        let states = self.model.count();
        let left = place / states;
        let state = (place % states) as u64;
        let own = self.own(left, state);
        if left == 0 {
            return Pick {
                action: 0,
                value: own,
            };
        }
        let below = &worths[(left - 1) * states..left * states];
        after(own, self.best(below, state))
    }

    // All places of the plan; later ones are untouched.
    pub(crate) fn fill(&self, worths: &mut [i64], choices: &mut [u8])
        requires worths { (self.now.horizon + 1) * (M.SiteModel.meaning self.now.model.now).span
            ≤ length worths.old }
        requires choices { self.now.horizon * (M.SiteModel.meaning self.now.model.now).span
            ≤ length choices.old }
        ensures worths { Filled
            (worth_at (W.meaning self.now.weighing.now)
            (M.SiteModel.meaning self.now.model.now) self.now.horizon)
            ((self.now.horizon + 1) * (M.SiteModel.meaning self.now.model.now).span)
            worths.old worths.new }
        ensures choices { Filled
            (choice_at (W.meaning self.now.weighing.now)
            (M.SiteModel.meaning self.now.model.now) self.now.horizon)
            (self.now.horizon * (M.SiteModel.meaning self.now.model.now).span)
            choices.old choices.new }
    {
        let states = self.model.count();
        for place in 0..(self.horizon + 1) * states {
            let entry = self.entry(place, worths);
            worths[place] = entry.value;
            if place >= states {
                choices[place - states] = entry.action as u8;
            }
        }
    }
}
