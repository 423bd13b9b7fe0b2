// What a memory recalls of the nodes, in two tables by node number: what held, and what failed.
ghost use Rattle.std.specs.Prelude.{◌≡◌, length, slice_set};
ghost use Rattle.truth.specs.Truth.{labelled};

use crate::verdicts::at;
use formula::Item;
use wishbook::WishBook;

// Whether a bit of a memory is set, the lowest being bit 0. Bits past the 64th are none.
#[tactic(auto, using(crate::proofs::Recalling::no_bit_past))]
fn is_set(memory: u64, bit: usize) -> bool
    ensures { result ≡ labelled memory bit }
{
    bit < 64 && (memory >> bit) % 2 == 1
}

// Puts a bit at the number of a node, unless it is past the end.
fn put(table: &mut [bool], node: u8, bit: bool)
    ensures { table.new ≡ slice_set table.old node bit }
{
    let place = node as usize;
    if place < table.len() {
        table[place] = bit;
    }
}

#[derive(Drop)]
pub(crate) struct Recalled {
    held: [bool; 128],
    failed: [bool; 128],
    ghost sizes: { (length held ≡ 128) × (length failed ≡ 128) },
}

impl Recalled {
    ghost use Rattle.std.specs.Prelude.{◌<◌, if◌then◌else◌};
    ghost use Rattle.formula.specs.declared.Item.{Item};
    ghost use Rattle.wishbook.specs.Contents.{contents};
    ghost use Rattle.layermodel.specs.Verdicts.{node_of, same_item, recalled, recalled_by};

    // The bits of a memory of a book, the first item having the lowest. They are entered from the last item to
    // the first: an item that stood twice would have its first bit.
    pub(crate) fn of(book: &WishBook, memory: u64) -> Recalled
        ensures { recalled_by result ≡ recalled (contents book.now).items memory }
    {
        let items = book.items();
        let mut all = Recalled {
            held: [false; 128],
            failed: [false; 128],
        };
        for (place, item) in items.iter().enumerate().rev() {
            all.enter(*item, is_set(memory, place));
        }
        all
    }

    // Enters the bit of an item.
    fn enter(&mut self, item: Item, bit: bool)
        ensures { (x : Item) → node_of x < 128 → recalled_by self.new x
            ≡ if same_item x item then bit else recalled_by self.old x }
    {
        match item {
            Item::Held(i) => put(&mut self.held, i, bit),
            Item::Failed(i) => put(&mut self.failed, i, bit),
        }
    }

    // Whether it recalls an item.
    pub(crate) fn tells(&self, item: Item) -> bool
        ensures { result ≡ recalled_by self.now item }
    {
        match item {
            Item::Held(i) => at(&self.held, i),
            Item::Failed(i) => at(&self.failed, i),
        }
    }
}
