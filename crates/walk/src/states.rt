// Where a walk stands: plain numbers, with no copies.
ghost use Rattle.std.specs.Prelude.{◌≡◌, ◌+◌, ◌*◌, ◌<◌, ◌≤◌, ◌*ℤ◌, pos, unsigned_abs};
ghost use Rattle.weighing.specs.Discounts.{discount_of};

use crate::{Refused, Sight};
use model::SiteModel;
use refusal::Refusal;
use weighing::discount;

// Nothing can be chosen in the last slot.
const LAST_SLOT: usize = 12;

// What the reward of a state counts in a slot, in 256ths.
fn counted<M: SiteModel>(model: &M, slot: usize, state: u64) -> i32
    ensures value { result ≡
        pos (discount_of slot) *ℤ (M.SiteModel.meaning model.now).reward state }
    ensures small { unsigned_abs result ≤ 512000 }
{
    discount(slot) as i32 * model.reward(state)
}

/// A walk with no choice open.
#[derive(Drop)]
pub struct Standing {
    state: u64,
    slot: usize,
    total: i32,
    ghost slots: { slot ≤ 12 },
    ghost small: { unsigned_abs total ≤ (slot + 1) * 512000 },
}

/// A walk with an action chosen, whose outcome is not told yet.
#[derive(Drop)]
pub struct Chosen {
    standing: Standing,
    action: u32,
    ghost slots: { standing.slot < 12 },
}

impl Standing {
    ghost use Rattle.std.specs.Prelude.{◌≡◌};
    ghost use Rattle.walk.specs.Reckoner.{AgreesOverAll, BesideOverAll};
    ghost use Rattle.walk.specs.Views.{stand_of, choice_of};
    ghost use Rattle.walk.specs.Walker.{opened, choice, sight_of};
    ghost use Rattle.weighing.specs.Discounts.{discount_of};

    /// Opens a walk at the model's start. Whatever the numbers that it is then given, it agrees with the reckoner (`agrees`), and stands
    /// where his record leads (`beside`).
    pub fn open<M: SiteModel>(model: &M) -> Standing
        ensures stands { stand_of result ≡ opened discount_of (M.SiteModel.meaning model.now) }
        ensures agrees { AgreesOverAll (M.SiteModel.meaning model.now) }
        ensures beside { BesideOverAll (M.SiteModel.meaning model.now) }
    {
        let state = model.start();
        Standing {
            state,
            slot: 0,
            total: counted(model, 0, state),
        }
    }

    /// Chooses an action.
    pub fn choose<M: SiteModel>(self, model: &M, action: u32) -> Result<Chosen, Refused<Standing>>
        ensures { choice_of result ≡
            choice (M.SiteModel.meaning model.now) (stand_of self) action }
    {
        if self.slot >= LAST_SLOT {
            return Err(Refused::new(Refusal::LastSlot, self));
        }
        if !model.offers(self.state, action) {
            return Err(Refused::new(Refusal::NotOffered, self));
        }
        Ok(Chosen {
            standing: self,
            action,
        })
    }

    /// The state of the model that the walk stands at.
    pub fn state(&self) -> u64
        ensures { result ≡ (stand_of self.now).state }
    {
        self.state
    }

    /// What the walk has.
    pub fn sight<M: SiteModel>(&self, model: &M) -> Sight
        ensures { result ≡ sight_of (M.SiteModel.meaning model.now) (stand_of self.now) }
    {
        Sight {
            site: model.ground(self.state),
            slot: self.slot,
            reward: model.reward(self.state),
            total: self.total,
        }
    }

    /// Ends the walk, with what it has.
    pub fn close<M: SiteModel>(self, model: &M) -> Sight
        ensures { result ≡ sight_of (M.SiteModel.meaning model.now) (stand_of self) }
    {
        self.sight(model)
    }
}

impl Chosen {
    ghost use Rattle.std.specs.Prelude.{◌≡◌};
    ghost use Rattle.walk.specs.Views.{from_of, telling_of};
    ghost use Rattle.walk.specs.Walker.{telling, sight_of};
    ghost use Rattle.weighing.specs.Discounts.{discount_of};

    /// Tells an outcome by its number, counted from 0: the walk moves to where it leads.
    pub fn tell<M: SiteModel>(self, model: &M, number: u32) -> Result<Standing, Refused<Chosen>>
        ensures { telling_of result ≡
            telling discount_of (M.SiteModel.meaning model.now) (from_of self) self.action number }
    {
        let Standing { state, slot, total } = &self.standing;
        let Some(outcome) = model.outcomes(*state, self.action).get(number as usize) else {
            return Err(Refused::new(Refusal::NoSuchOutcome, self));
        };
        let next = *slot + 1;
        Ok(Standing {
            state: outcome.target,
            slot: next,
            total: *total + counted(model, next, outcome.target),
        })
    }

    /// The state of the model that the walk stands at, as before the choice.
    pub fn state(&self) -> u64
        ensures { result ≡ (from_of self.now).state }
    {
        self.standing.state()
    }

    /// What the walk has, as before the choice.
    pub fn sight<M: SiteModel>(&self, model: &M) -> Sight
        ensures { result ≡ sight_of (M.SiteModel.meaning model.now) (from_of self.now) }
    {
        self.standing.sight(model)
    }
}
