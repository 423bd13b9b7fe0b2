// Building a pile from a list of floors.
ghost use Rattle.std.specs.Prelude.{◌≡◌, ℕ, suc, [], ◌∷◌, ◌++◌, List, drop, take};
ghost use Rattle.pile.specs.declared.floor.Floor.{Floor as Slab};
ghost use Rattle.pilemodel.specs.Piles.{piled};
ghost use Rattle.pile.specs.Floors.{floors_in, pile_of, slab_in, slabs_below};

use crate::floor::Floor;
use crate::footing::{Footing, Pile};
use layer::Layer;
use model::{GroundModel, SiteModel};

/// A pile of nought to three floors.
pub type Three<G> = Layer<Layer<Layer<Footing<G>>>>;

/// A type of piles that is built from a list of floors of a ground model, the lowest first.
pub trait Tower: Pile {
    type Bottom: GroundModel;

    // how many floors there is room for; the ground model, and the floors, as they lie in memory
    ghost room: { ℕ };

    ghost bottom_of: { Self → Self.Bottom };

    ghost slabs: { Self → List Slab };

    /// Lays the floors, also where they are refused: the model below answers then. Floors that there is no room for are given back; where
    /// there are fewer, there is nothing on the upper ones.
    fn stack(bottom: Self::Bottom, floors: &[Floor]) -> (Self, &[Floor])
        ensures bottom { bottom_of result.0 ≡ bottom }
        ensures slabs { slabs result.0 ≡ slabs_below room floors.now }
        ensures piling { Self.Pile.piling result.0
            ≡ pile_of (Self.Bottom.SiteModel.meaning bottom) (slabs_below room floors.now) }
        ensures meaning { Self.SiteModel.meaning result.0
            ≡ piled (Self.Bottom.SiteModel.meaning bottom) (floors_in (take room floors.now)) }
        ensures rest { result.1.now ≡ drop room floors.now };
}

impl<G: GroundModel> Tower for Footing<G> {
    type Bottom = G;

    ghost room = { 0 };

    ghost bottom_of = { λ f. f.bottom };

    ghost slabs = { λ f. [] };

    fn stack(bottom: G, floors: &[Floor]) -> (Footing<G>, &[Floor]) {
        (Footing::new(bottom), floors)
    }
}

impl<P: Tower> Tower for Layer<P> {
    type Bottom = P::Bottom;

    ghost room = { suc P.Tower.room };

    ghost bottom_of = { λ l. P.Tower.bottom_of l.below };

    ghost slabs = { λ l. P.Tower.slabs l.below ++ (slab_in l.book ∷ []) };

    fn stack(bottom: P::Bottom, floors: &[Floor]) -> (Layer<P>, &[Floor]) {
        let (below, rest) = P::stack(bottom, floors);
        match rest.split_first() {
            Some((floor, upper)) => (Layer::new(below, floor.book()), upper),
            None => (Layer::new(below, None), rest),
        }
    }
}
