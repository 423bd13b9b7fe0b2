// A pile by its ground model and its floors, and a ground model as a pile with no floor.
ghost use Rattle.std.specs.Prelude.{◌≡◌};
ghost use Rattle.pilemodel.specs.Piles.{Laid, Piling};
ghost use Rattle.pilemodel.specs.Raised.{grounding};
ghost use Rattle.pilemodel.proofs.Pushing.{laid_bare};

use model::{GroundModel, Outcomes, SiteModel, Sizes};

/// What a pile is, whatever its type: floors laid on a ground model.
pub trait Pile: SiteModel {
    ghost piling: { Self → Piling };

    ghost laid: { (p : Self) → Laid (Self.SiteModel.meaning p) (piling p) };
}

/// A ground model, whoever wrote it, as the bottom of a pile. It is a type of its own, since an `impl Pile` for every ground model would
/// overlap with that for every `Layer`.
#[derive(Drop)]
pub struct Footing<G> {
    bottom: G,
}

impl<G: GroundModel> Footing<G> {
    pub fn new(bottom: G) -> Footing<G>
        ensures { result.bottom ≡ bottom }
    {
        Footing { bottom }
    }
}

// Every question goes to the ground model. A trait's methods are handed on one by one: there is no delegation.
impl<G: GroundModel> SiteModel for Footing<G> {
    ghost meaning = { λ f. G.SiteModel.meaning f.bottom };

    ghost lawful = { λ f. G.SiteModel.lawful f.bottom };

    fn start(&self) -> u64 {
        self.bottom.start()
    }

    fn is_state(&self, s: u64) -> bool {
        self.bottom.is_state(s)
    }

    fn mask(&self, s: u64) -> u32 {
        self.bottom.mask(s)
    }

    fn reward(&self, s: u64) -> i32 {
        self.bottom.reward(s)
    }

    fn ground(&self, s: u64) -> u64 {
        self.bottom.ground(s)
    }

    fn offers(&self, s: u64, a: u32) -> bool {
        self.bottom.offers(s, a)
    }

    fn outcomes(&self, s: u64, a: u32) -> Outcomes {
        self.bottom.outcomes(s, a)
    }

    fn sizes(&self) -> Sizes {
        self.bottom.sizes()
    }
}

impl<G: GroundModel> Pile for Footing<G> {
    ghost piling = { λ f. grounding (G.SiteModel.meaning f.bottom) };

    ghost laid = { λ f. laid_bare (G.SiteModel.meaning f.bottom) (G.SiteModel.lawful f.bottom) (G.GroundModel.based f.bottom) };
}
