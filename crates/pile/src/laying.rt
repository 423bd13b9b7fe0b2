// Laying books on a ground model until one is refused, and why books of a pile are not laid.
ghost use Rattle.std.specs.Prelude.{◌≡◌, Some, None, IfOk, IfErr, OnOk, slice_get};
ghost use Rattle.pile.specs.Stacks.{ground_of, floors_of, floor_refusal, why_not, floor_at, AllLaid, IsFirstRefused, HasFloors, IsPileOf};

use crate::footing::Footing;
use crate::tower::Three;
use layer::{Layer, refusal_on};
use model::{GroundModel, SiteModel};
use refusal::Refusal;
use wishbook::WishBook;

/// The number of a book that is not laid, the lowest being 0, and why.
#[derive(Clone, Copy, Debug, PartialEq, Eq)]
pub struct Unlaid {
    pub floor: usize,
    pub refusal: Refusal,
}

/// Why each floor is not laid, the lowest first.
pub fn refusals<G: GroundModel>(pile: &Three<G>) -> [Option<Refusal>; 3]
    ensures { result ≡ why_not (G.SiteModel.meaning (ground_of pile.now)) (floors_of pile.now) }
{
    [
        pile.below().below().refusal(),
        pile.below().refusal(),
        pile.refusal(),
    ]
}

// A model with one book of a list on it, where there is one.
fn lay<M: SiteModel + Drop>(below: M, books: &[WishBook], floor: usize) -> Result<Layer<M>, Unlaid>
    ensures below { IfOk result (λ l. l.below ≡ below) }
    ensures book { IfOk result (λ l. l.book ≡ slice_get books.now floor) }
    ensures laid { OnOk result
        (floor_refusal (M.SiteModel.meaning below) (floor_at books.now floor) ≡ None) }
    ensures number { IfErr result (λ e. e.floor ≡ floor) }
    ensures refused { IfErr result
        (λ e. floor_refusal (M.SiteModel.meaning below) (floor_at books.now floor) ≡ Some e.refusal) }
{
    let layer = Layer::new(below, books.get(floor).copied());
    match layer.refusal() {
        Some(refusal) => Err(Unlaid { floor, refusal }),
        None => Ok(layer),
    }
}

/// The pile of all the books, the first one lowest, or the first refusal. A fourth book is judged like any other, and never fits.
pub fn lay_all<G: GroundModel + Drop>(bottom: G, books: &[WishBook]) -> Result<Three<G>, Unlaid>
    ensures bottom { IfOk result (λ p. ground_of p ≡ bottom) }
    ensures floors { IfOk result (λ p. HasFloors p books.now) }
    ensures laid { OnOk result (AllLaid (G.SiteModel.meaning bottom) books.now) }
    ensures meaning { IfOk result (IsPileOf G.SiteModel.meaning bottom books.now) }
    ensures refused { IfErr result (IsFirstRefused (G.SiteModel.meaning bottom) books.now) }
{
    let one = lay(Footing::new(bottom), books, 0)?;
    let two = lay(one, books, 1)?;
    let pile = lay(two, books, 2)?;
    if let Some(fourth) = books.get(3)
        && let Some(refusal) = refusal_on(&pile, fourth)
    {
        return Err(Unlaid { floor: 3, refusal });
    }
    Ok(pile)
}
