// What is promised of every pile.
ghost use Rattle.std.specs.Prelude.{◌≡◌, [], ◌∷◌};
ghost use Rattle.layermodel.specs.Records.{MemoryTells, WishesShow, LabelsStay};
ghost use Rattle.pilemodel.specs.Piles.{place_on, piled, Keeps};
ghost use Rattle.pilemodel.specs.Telling.{BitsTell};

use crate::footing::Pile;

/// Where a pile starts. For every history of the ground model the pile stands where the truth lines say (`keeps`), with one history of
/// the pile above each; each memory bit tells the truth of one position earlier (`memory`), each wish has a bit that is set just where
/// it holds (`wishes`), and the labels below keep theirs (`labels`). What all this makes of a single state of the pile is in `bits`.
pub fn truthful_start<P: Pile>(pile: &P) -> u64
    ensures start { result ≡ (place_on (P.Pile.piling pile.now)).code
        ((P.Pile.piling pile.now).base.start ∷ []) }
    ensures meaning { P.SiteModel.meaning pile.now ≡ (P.Pile.piling pile.now).model }
    ensures stands { (P.Pile.piling pile.now).model
        ≡ piled (P.Pile.piling pile.now).base (P.Pile.piling pile.now).floors }
    ensures keeps { Keeps (P.Pile.piling pile.now) }
    ensures memory { MemoryTells }
    ensures wishes { WishesShow }
    ensures labels { LabelsStay }
    ensures bits { BitsTell (P.Pile.piling pile.now) }
{
    pile.start()
}
