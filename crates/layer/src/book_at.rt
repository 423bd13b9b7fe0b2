// A wish book in a state: the label mask there, the truth of each of its nodes, and what the state comes to.
// It is one book in one state. `judge`, `remember` and `wish_bits`, which it hands on to, answer for truths of
// any length.
ghost use Rattle.std.specs.Prelude.{◌≡◌, length};

use layermodel::{at, judge, remember, wish_bits};
use wishbook::WishBook;

#[derive(Drop)]
pub(crate) struct BookAt<'a> {
    book: &'a WishBook,
    pub(crate) mask: u32,
    truths: [bool; 128],
    ghost size: { length truths ≡ 128 },
}

impl<'a> BookAt<'a> {
    ghost use Rattle.std.specs.Prelude.{◌<◌, ◌≤◌, unsigned_abs};
    ghost use Rattle.wishbook.specs.Contents.{contents};
    ghost use Rattle.layer.specs.BookAt.{known};
    ghost use Rattle.layermodel.specs.Verdicts.{memory_of, bits_of_wishes, earned};
    ghost use Rattle.layermodel.specs.Layered.{verdicts_in};

    pub(crate) fn new(book: &'a WishBook, mask: u32, memory: u64) -> BookAt<'a>
        ensures book { result.book.now ≡ book.now }
        ensures mask { result.mask ≡ mask }
        ensures known { known result ≡ verdicts_in (contents book.now) mask memory }
    {
        BookAt {
            book,
            mask,
            truths: judge(book, mask, memory),
        }
    }

    // The truths of the nodes that there are.
    fn known(&self) -> &[bool]
        ensures { result.now ≡ known self.now }
    {
        &self.truths[..self.book.nodes().len()]
    }

    // The memory of the state arrived at.
    pub(crate) fn memory(&self) -> u64
        ensures memory { result ≡ memory_of (contents self.now.book.now).items (known self.now) }
        ensures small { result < 65536 }
    {
        remember(self.book, self.known())
    }

    // The bits of the wishes that hold.
    pub(crate) fn bits(&self) -> u32
        ensures { result ≡ bits_of_wishes (contents self.now.book.now).wishes (known self.now) }
    {
        wish_bits(self.book, self.known())
    }

    // A sum, and the amounts of the wishes that hold.
    pub(crate) fn earned(&self, sum: i32) -> i32
        requires { unsigned_abs sum ≤ 2000 }
        ensures { result ≡ earned sum (contents self.now.book.now).wishes (known self.now) }
    {
        let known = self.known();
        let mut total = sum;
        for wish in self.book.wishes() {
            if at(known, wish.node) {
                total += wish.amount();
            }
        }
        total
    }
}
