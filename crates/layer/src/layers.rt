// A wish book laid on a model. Where it is refused, or there is none, the model below answers.
ghost use Rattle.std.specs.Prelude.{◌≡◌, None, MatchOption};
ghost use Rattle.std.specs.Option.{option_map};
ghost use Rattle.wishbook.specs.Contents.{contents};
ghost use Rattle.layermodel.specs.Layered.{over, refusal as refusal_of};
ghost use Rattle.layer.specs.InMemory.{meaning_of, Lies, Bare, laid_in, memory_in};
ghost use Rattle.layermodel.proofs.Lawfulness.{layer_lawful};
ghost use Rattle.model.specs.Models.{sizes_of};

use crate::fitted::{Fitted, MEMORIES};
use model::{Outcomes, SiteModel, Sizes};
use refusal::Refusal;
use wishbook::WishBook;

/// Why a book cannot be laid on a model, none where it can.
pub fn refusal_on<M: SiteModel>(below: &M, book: &WishBook) -> Option<Refusal>
    ensures { result ≡ refusal_of (sizes_of (M.SiteModel.meaning below.now)) (contents book.now) }
{
    Fitted::new(below, book).err()
}

/// A wish book, or none, on the model below.
#[derive(Drop)]
pub struct Layer<M> {
    below: M,
    book: Option<WishBook>,
}

impl<M: SiteModel> Layer<M> {
    /// The layer of a book on a model, or of none. It is made in any case: where the book is refused, the model
    /// below answers.
    pub fn new(below: M, book: Option<WishBook>) -> Layer<M>
        ensures below { result.below ≡ below }
        ensures book { result.book ≡ book }
        ensures meaning { meaning_of M.SiteModel.meaning result ≡
            over (M.SiteModel.meaning below) (option_map contents book) }
    {
        Layer { below, book }
    }

    /// Why the book is not laid, where there is one and it is not.
    pub fn refusal(&self) -> Option<Refusal>
        ensures { MatchOption self.now.book (result ≡ None) (λ book.
            result ≡ refusal_of (sizes_of (M.SiteModel.meaning self.now.below)) (contents book)) }
    {
        Fitted::new(&self.below, self.book.as_ref()?).err()
    }

    /// The model below.
    pub fn below(&self) -> &M
        ensures { result.now ≡ self.now.below }
    {
        &self.below
    }

    // The book on the model below, where it fits.
    fn fitted(&self) -> Option<Fitted<'_, M>>
        ensures book { option_map (λ f. contents f.book.now) result ≡
            laid_in M.SiteModel.meaning self.now }
        ensures meaning { MatchOption result (Bare M.SiteModel.meaning self.now)
            (λ f. (f.below.now ≡ self.now.below)
            × Lies M.SiteModel.meaning self.now (contents f.book.now)) }
    {
        Fitted::new(&self.below, self.book.as_ref()?).ok()
    }

    /// The book, where it is laid.
    pub fn laid(&self) -> Option<&WishBook>
        ensures book { option_map (λ b. contents b.now) result ≡
            laid_in M.SiteModel.meaning self.now }
        ensures meaning { MatchOption result (Bare M.SiteModel.meaning self.now)
            (λ b. Lies M.SiteModel.meaning self.now (contents b.now)) }
    {
        Some(self.fitted()?.book)
    }

    /// The remembered bits in a state, where a book is laid.
    pub fn memory_of(&self, s: u64) -> Option<u64>
        ensures { result ≡ memory_in M.SiteModel.meaning self.now s }
    {
        self.laid().map(|_| s % MEMORIES)
    }
}

// A question goes to the layer where the book is laid, and else to the model below.
macro_rules! answer {
    ($layer:ident.$question:ident($($of:expr),*)) => {
        match $layer.fitted() {
            Some(fitted) => fitted.$question($($of),*),
            None => $layer.below.$question($($of),*),
        }
    };
}

// A trait's methods are handed on one by one: there is no delegation.
impl<M: SiteModel> SiteModel for Layer<M> {
    ghost meaning = { λ l. meaning_of M.SiteModel.meaning l };

    ghost lawful = { λ l. layer_lawful (M.SiteModel.meaning l.below) l.book
        (M.SiteModel.lawful l.below) };

    fn start(&self) -> u64 {
        answer!(self.start())
    }

    fn is_state(&self, s: u64) -> bool {
        answer!(self.is_state(s))
    }

    fn mask(&self, s: u64) -> u32 {
        answer!(self.mask(s))
    }

    fn reward(&self, s: u64) -> i32 {
        answer!(self.reward(s))
    }

    fn ground(&self, s: u64) -> u64 {
        answer!(self.ground(s))
    }

    fn offers(&self, s: u64, a: u32) -> bool {
        answer!(self.offers(s, a))
    }

    fn outcomes(&self, s: u64, a: u32) -> Outcomes {
        answer!(self.outcomes(s, a))
    }

    // The model below is asked once. Were it asked again where the book is refused, refused books on each
    // other would double the questions at each.
    fn sizes(&self) -> Sizes {
        let below = self.below.sizes();
        let Some(book) = &self.book else {
            return below;
        };
        match Fitted::on(&self.below, book, below) {
            Ok(fitted) => fitted.sizes(),
            Err(_) => below,
        }
    }
}
