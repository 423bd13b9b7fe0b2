// Laying every book that can be laid, and leaving out the others.
ghost use Rattle.std.specs.Prelude.{◌≡◌, IfOk};
ghost use Rattle.pile.specs.Skipping.{HasLaid, Judges};
ghost use Rattle.pile.specs.Stacks.{ground_of, why_not, books_as_floors, IsPileOf};

use crate::footing::Footing;
use crate::tower::Three;
use layer::{Layer, refusal_on};
use model::{GroundModel, SiteModel};
use refusal::Refusal;
use std::alloc::{AllocError, Global};
use wishbook::WishBook;

/// The pile of the books that can be laid, and for each book why it is not.
#[derive(Drop)]
pub struct Built<G> {
    pub pile: Three<G>,
    pub refusals: Vec<Option<Refusal>>,
}

// Judges the books that are not judged yet on a model, up to the first that can be laid on it, and notes each answer.
fn first_laid<M: SiteModel>(
    below: &M,
    books: &[WishBook],
    refusals: &mut Vec<Option<Refusal>>,
) -> Result<Option<WishBook>, AllocError>
    ensures { IfOk result
        (Judges (M.SiteModel.meaning below.now) books.now refusals.old.items refusals.new.items) }
{
    for i in refusals.len()..books.len() {
        let book = books[i];
        let refusal = refusal_on(below, &book);
        refusals.push(refusal)?;
        if refusal.is_none() {
            return Ok(Some(book));
        }
    }
    Ok(None)
}

/// Lays the books that can be laid, each on those before it that are. A fourth never fits.
pub fn lay_each<G: GroundModel + Drop>(
    heap: Global,
    bottom: G,
    books: &[WishBook],
) -> Result<Built<G>, AllocError>
    ensures bottom { IfOk result (λ b. ground_of b.pile ≡ bottom) }
    ensures books { IfOk result (λ b. HasLaid (G.SiteModel.meaning bottom) books.now b.pile) }
    ensures meaning { IfOk result (λ b. IsPileOf G.SiteModel.meaning bottom books.now b.pile) }
    ensures refusals { IfOk result
        (λ b. b.refusals.items ≡ why_not (G.SiteModel.meaning bottom) (books_as_floors books.now)) }
{
    let mut refusals = Vec::new(heap);
    let ground = Footing::new(bottom);
    let first = first_laid(&ground, books, &mut refusals)?;
    let one = Layer::new(ground, first);
    let second = first_laid(&one, books, &mut refusals)?;
    let two = Layer::new(one, second);
    let third = first_laid(&two, books, &mut refusals)?;
    let pile = Layer::new(two, third);
    first_laid(&pile, books, &mut refusals)?;
    Ok(Built { pile, refusals })
}
