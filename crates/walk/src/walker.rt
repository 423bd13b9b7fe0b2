// A walk that takes numbers one by one, whether a choice is open or not.
ghost use Rattle.std.specs.Prelude.{◌≡◌, IsTrue, IsFalse};
ghost use Rattle.walk.specs.Reckoner.{AgreesOverAll, BesideOverAll};
ghost use Rattle.walk.specs.Views.{walk_of, turn_of, choice_of, telling_of, ending_of};
ghost use Rattle.walk.specs.Walker.{begun, is_choosing, stands_at, turn, ending, walk_has};
ghost use Rattle.weighing.specs.Discounts.{discount_of};

use crate::{Chosen, Refused, Sight, Standing};
use model::SiteModel;
use refusal::Refusal;

/// A walk, with no choice open or with one.
#[derive(Drop)]
pub enum Walker {
    Standing(Standing),
    Chosen(Chosen),
}

/// Why a number was refused, where it was, and the walk after it.
#[derive(Drop)]
pub struct Turned {
    pub refusal: Option<Refusal>,
    pub walker: Walker,
}

impl Walker {
    /// Opens a walk, as `Standing::open` does.
    pub fn open<M: SiteModel>(model: &M) -> Walker
        ensures begun { walk_of result ≡ begun discount_of (M.SiteModel.meaning model.now) }
        ensures agrees { AgreesOverAll (M.SiteModel.meaning model.now) }
        ensures beside { BesideOverAll (M.SiteModel.meaning model.now) }
    {
        Walker::Standing(Standing::open(model))
    }

    /// Whether a choice is open.
    pub fn is_choosing(&self) -> bool
        ensures { result ≡ is_choosing (walk_of self.now) }
    {
        matches!(self, Walker::Chosen(_))
    }

    /// Chooses an action. Where a choice is open, tell its outcome first: the check refuses the call.
    pub fn choose<M: SiteModel>(self, model: &M, action: u32) -> Turned
        requires tell_its_outcome_first { IsFalse (is_choosing (walk_of self)) }
        ensures { turn_of result ≡
            turn discount_of (M.SiteModel.meaning model.now) (walk_of self) action }
    {
        let Walker::Standing(standing) = self else {
            unreachable!()
        };
        match standing.choose(model, action) {
            Ok(chosen) => Turned {
                refusal: None,
                walker: Walker::Chosen(chosen),
            },
            Err(Refused { refusal, walk }) => Turned {
                refusal: Some(refusal),
                walker: Walker::Standing(walk),
            },
        }
    }

    /// Tells an outcome. Where no choice is open, choose first: the check refuses the call.
    pub fn tell<M: SiteModel>(self, model: &M, number: u32) -> Turned
        requires choose_first { IsTrue (is_choosing (walk_of self)) }
        ensures { turn_of result ≡
            turn discount_of (M.SiteModel.meaning model.now) (walk_of self) number }
    {
        let Walker::Chosen(chosen) = self else {
            unreachable!()
        };
        match chosen.tell(model, number) {
            Ok(standing) => Turned {
                refusal: None,
                walker: Walker::Standing(standing),
            },
            Err(Refused { refusal, walk }) => Turned {
                refusal: Some(refusal),
                walker: Walker::Chosen(walk),
            },
        }
    }

    /// Takes a number: a choice where none is open, and else the open choice's outcome.
    pub fn turn<M: SiteModel>(self, model: &M, number: u32) -> Turned
        ensures { turn_of result ≡
            turn discount_of (M.SiteModel.meaning model.now) (walk_of self) number }
    {
        if self.is_choosing() {
            self.tell(model, number)
        } else {
            self.choose(model, number)
        }
    }

    /// The state of the model that the walk stands at.
    pub fn state(&self) -> u64
        ensures { result ≡ stands_at (walk_of self.now) }
    {
        match self {
            Walker::Standing(standing) => standing.state(),
            Walker::Chosen(chosen) => chosen.state(),
        }
    }

    /// What the walk has.
    pub fn sight<M: SiteModel>(&self, model: &M) -> Sight
        ensures { result ≡ walk_has (M.SiteModel.meaning model.now) (walk_of self.now) }
    {
        match self {
            Walker::Standing(standing) => standing.sight(model),
            Walker::Chosen(chosen) => chosen.sight(model),
        }
    }

    /// Ends the walk, with what it has. Where a choice is open, tell its outcome first: the check refuses the call.
    pub fn close<M: SiteModel>(self, model: &M) -> Sight
        requires tell_its_outcome_first { IsFalse (is_choosing (walk_of self)) }
        ensures { result ≡ walk_has (M.SiteModel.meaning model.now) (walk_of self) }
    {
        let Walker::Standing(standing) = self else {
            unreachable!()
        };
        standing.close(model)
    }

    /// Ends the walk where it can end, and else gives it back.
    pub fn end<M: SiteModel>(self, model: &M) -> Result<Sight, Walker>
        ensures { ending_of result ≡ ending (M.SiteModel.meaning model.now) (walk_of self) }
    {
        if self.is_choosing() {
            Err(self)
        } else {
            Ok(self.close(model))
        }
    }
}
