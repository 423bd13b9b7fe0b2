// A wish book on a model that it fits, which is again a model.
ghost use Rattle.std.specs.Prelude.{◌≡◌, ◌+◌, ◌*◌, ◌^◌, ◌<◌, ◌≤◌, IsTrue, IfOk, map};
ghost use Rattle.std.specs.List.{All};
ghost use Rattle.std.specs.Result.{result_err};
ghost use Rattle.bounded.specs.Listed.{listed};
ghost use Rattle.wishbook.specs.Contents.{contents};
ghost use Rattle.layermodel.proofs.Books.{few_items};
ghost use Rattle.layer.specs.BookAt.{IsBookIn};
ghost use Rattle.layermodel.specs.Layered.{fits, layered, refusal as refusal_of};
ghost use Rattle.layermodel.proofs.Lawfulness.{layered_lawful};
ghost use Rattle.layer.specs.InMemory.{IsApart, moved};
ghost use Rattle.model.specs.Models.{sizes_of};

use crate::book_at::BookAt;
use layermodel::{amounts, fit};
use model::{Outcome, Outcomes, SiteModel, Sizes};
use refusal::Refusal;
use wishbook::WishBook;

// A state is a state below times this, and a memory of 16 bits.
pub(crate) const MEMORIES: u64 = 1 << 16;

#[derive(Drop)]
pub(crate) struct Fitted<'a, M: SiteModel> {
    below: &'a M,
    pub(crate) book: &'a WishBook,
    sizes: Sizes,
    ghost sized: { sizes ≡ sizes_of (M.SiteModel.meaning below.now) },
    ghost fit: { IsTrue (fits (M.SiteModel.meaning below.now) (contents book.now)) },
}

impl<'a, M: SiteModel> Fitted<'a, M> {
    // The layer, or why the book cannot be laid.
    pub(crate) fn new(below: &'a M, book: &'a WishBook) -> Result<Fitted<'a, M>, Refusal>
        ensures parts { IfOk result (λ f. (f.below.now ≡ below.now) × (f.book.now ≡ book.now)) }
        ensures refusal { result_err result ≡
            refusal_of (sizes_of (M.SiteModel.meaning below.now)) (contents book.now) }
    {
        Fitted::on(below, book, below.sizes())
    }

    // The same, where the sizes of the model below are known.
    pub(crate) fn on(
        below: &'a M,
        book: &'a WishBook,
        sizes: Sizes,
    ) -> Result<Fitted<'a, M>, Refusal>
        requires { sizes ≡ sizes_of (M.SiteModel.meaning below.now) }
        ensures parts { IfOk result (λ f. (f.below.now ≡ below.now) × (f.book.now ≡ book.now)) }
        ensures refusal { result_err result ≡
            refusal_of (sizes_of (M.SiteModel.meaning below.now)) (contents book.now) }
    {
        fit(sizes, book)?;
        Ok(Fitted { below, book, sizes })
    }

    // The state below and the memory, where `s` is a state of the layer.
    fn apart(&self, s: u64) -> Option<(u64, u64)>
        ensures { IsApart (M.SiteModel.meaning self.now.below.now)
            (contents self.now.book.now) s result }
    {
        let (below, memory) = (s / MEMORIES, s % MEMORIES);
        if self.below.is_state(below) && memory < 1 << self.book.items().len() {
            Some((below, memory))
        } else {
            None
        }
    }

    // The state below, and the book there, where `s` is a state of the layer.
    fn book_at(&self, s: u64) -> Option<(u64, BookAt<'_>)>
        ensures { IsBookIn (M.SiteModel.meaning self.now.below.now) self.now.book.now s result }
    {
        let (below, memory) = self.apart(s)?;
        let mask = self.below.mask(below);
        Some((below, BookAt::new(self.book, mask, memory)))
    }
}

// A mask with the wish bits above its labels.
fn join(mask: u32, labels: u32, bits: u32) -> u32
    requires labels { labels ≤ 24 }
    requires room { mask + 2 ^ labels * bits < 2 ^ 24 }
    ensures { result ≡ mask + 2 ^ labels * bits }
{
    mask + (bits << labels)
}

// The outcomes with a memory beside each target.
fn lift(ways: Outcomes, memory: u64) -> Outcomes
    requires low { All (λ o. o.target < 2 ^ 44) (listed ways) }
    requires small { memory < 65536 }
    ensures { listed result ≡ map (moved memory) (listed ways) }
{
    let mut all = Outcomes::new();
    for way in ways.as_slice() {
        let _ = all.push(Outcome {
            target: way.target * MEMORIES + memory,
            weight: way.weight,
        });
    }
    all
}

impl<'a, M: SiteModel> SiteModel for Fitted<'a, M> {
    ghost meaning = { λ f. layered (M.SiteModel.meaning f.below.now) (contents f.book.now) };

    ghost lawful = { λ f. layered_lawful (M.SiteModel.meaning f.below.now) (contents f.book.now)
        (M.SiteModel.lawful f.below.now) (few_items f.book.now) f.fit };

    fn start(&self) -> u64 {
        self.below.start() * MEMORIES
    }

    fn is_state(&self, s: u64) -> bool {
        self.apart(s).is_some()
    }

    fn mask(&self, s: u64) -> u32 {
        let Some((_, here)) = self.book_at(s) else {
            return 0;
        };
        join(here.mask, self.sizes.labels, here.bits())
    }

    fn reward(&self, s: u64) -> i32 {
        let Some((below, here)) = self.book_at(s) else {
            return 0;
        };
        here.earned(self.below.reward(below))
    }

    fn ground(&self, s: u64) -> u64 {
        self.apart(s)
            .map_or(0, |(below, _)| self.below.ground(below))
    }

    fn offers(&self, s: u64, a: u32) -> bool {
        self.apart(s)
            .is_some_and(|(below, _)| self.below.offers(below, a))
    }

    fn outcomes(&self, s: u64, a: u32) -> Outcomes {
        let Some((below, here)) = self.book_at(s) else {
            return Outcomes::new();
        };
        lift(self.below.outcomes(below, a), here.memory())
    }

    fn sizes(&self) -> Sizes {
        Sizes {
            labels: self.sizes.labels + self.book.wishes().len() as u32,
            actions: self.sizes.actions,
            bound: self.sizes.bound + amounts(self.book),
            span: self.sizes.span * MEMORIES,
        }
    }
}
