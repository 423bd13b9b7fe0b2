// A wish layer on a pile is a pile with one floor more.
ghost use Rattle.pilemodel.specs.Raised.{raised};
ghost use Rattle.pilemodel.proofs.Pushing.{laid_push};

use crate::footing::Pile;
use layer::Layer;

impl<P: Pile> Pile for Layer<P> {
    ghost piling = { λ l. raised (P.Pile.piling l.below) (P.SiteModel.meaning l.below) l.book };

    ghost laid = { λ l. laid_push (P.SiteModel.meaning l.below) (P.Pile.piling l.below) l.book (P.Pile.laid l.below) };
}
