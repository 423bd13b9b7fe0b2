// The limits of walks, of wish books and of piles.
use crossing::{site_words, wish_words};
use layer::Layer;
use pile::{Floor, Footing, Three, Tower, Unlaid, lay_all, lay_each};
use refusal::{Refusal, Unread};
use sitebook::{SiteBook, read_site};
use std::alloc::Global;
use std::test::Fail;
use walk::{Turned, Walker};
use wishbook::{WishBook, read_wish};
use words::bytes_of;

// "once p0", and "once" of that, and so on: an item for each.
static ITEMS_16: [u32; 19] = [
    0x10000000, 0x80000000, 0x80000001, 0x80000002, 0x80000003, 0x80000004, 0x80000005, 0x80000006,
    0x80000007, 0x80000008, 0x80000009, 0x8000000A, 0x8000000B, 0x8000000C, 0x8000000D, 0x8000000E,
    0x8000000F, 0xA000FF10, 0xF0000012,
];

static ITEMS_17: [u32; 20] = [
    0x10000000, 0x80000000, 0x80000001, 0x80000002, 0x80000003, 0x80000004, 0x80000005, 0x80000006,
    0x80000007, 0x80000008, 0x80000009, 0x8000000A, 0x8000000B, 0x8000000C, 0x8000000D, 0x8000000E,
    0x8000000F, 0x80000010, 0xA000FF11, 0xF0000013,
];
// One state, with the reward 1,990, in which waiting is all that there is.
static WAITING: [u32; 6] = [
    0x10040001, 0x20000000, 0x30000F96, 0x40008000, 0x50008000, 0xF0000005,
];
// What always holds, worth 10 and worth 11.
static WORTH_10: [u32; 3] = [0x90000000, 0xA0010900, 0xF0000002];

static WORTH_11: [u32; 3] = [0x90000000, 0xA0010A00, 0xF0000002];

fn site(heap: Global, words: &[u32]) -> Result<SiteBook, Unread> {
    read_site(heap, bytes_of(heap, words)?.as_slice())
}

fn wish(heap: Global, words: &[u32]) -> Result<WishBook, Unread> {
    Ok(read_wish(bytes_of(heap, words)?.as_slice())?)
}

// Why a book is not laid on the site that waits, if it is not.
fn laying(heap: Global, words: &[u32]) -> Result<Option<Refusal>, Unread> {
    let ground = Footing::new(site(heap, &WAITING)?);
    Ok(Layer::new(ground, Some(wish(heap, words)?)).refusal())
}

#[test]
fn twelve_slots(rt: HostRuntime) -> Result<(), Fail> {
    let site = site(rt.alloc(), &site_words())?;
    let mut walker = Walker::open(&site);
    for number in [0; 24] {
        let Turned {
            refusal,
            walker: next,
        } = walker.turn(&site, number);
        assert_eq!(rt; refusal, None, "waiting, and its first outcome");
        walker = next;
    }
    for action in [0, 8] {
        let Turned {
            refusal,
            walker: next,
        } = walker.turn(&site, action);
        assert_eq!(rt; refusal, Some(Refusal::LastSlot), "offered or not");
        walker = next;
    }
    Ok(())
}

#[test]
fn sixteen_items(rt: HostRuntime) -> Result<(), Fail> {
    let heap = rt.alloc();
    assert_eq!(rt; wish(heap, &ITEMS_16)?.items().len(), 16);
    assert_eq!(rt;
        wish(heap, &ITEMS_17).err(),
        Some(Unread::Refused(Refusal::TooManyItems.at(19)))
    );
    Ok(())
}

#[test]
fn bound_of_2000(rt: HostRuntime) -> Result<(), Fail> {
    let heap = rt.alloc();
    assert_eq!(rt; laying(heap, &WORTH_10)?, None);
    assert_eq!(rt; laying(heap, &WORTH_11)?, Some(Refusal::BoundPassed));
    Ok(())
}

#[test]
fn three_layers(rt: HostRuntime) -> Result<(), Fail> {
    let heap = rt.alloc();
    let book = wish(heap, &wish_words())?;
    let four = [Floor::Wishes(book); 4];
    let (pile, rest) = Three::stack(site(heap, &site_words())?, &four);
    assert_eq!(rt; rest.len(), 1, "there is room for three");
    assert_eq!(rt; pile.below().below().refusal(), None);
    assert_eq!(rt; pile.below().refusal(), None);
    assert_eq!(rt; pile.refusal(), None);
    let fourth = Layer::new(pile, Some(book));
    assert_eq!(rt; fourth.refusal(), Some(Refusal::SpanPassed));
    Ok(())
}

// Of four books the fourth is refused, and all at once or each in turn makes no difference.
#[test]
fn four_books(rt: HostRuntime) -> Result<(), Fail> {
    let heap = rt.alloc();
    let book = wish(heap, &wish_words())?;
    let four = [book, book, book, book];
    assert_eq!(rt; lay_all(site(heap, &site_words())?, &four[..3]).err(), None);
    assert_eq!(rt;
        lay_all(site(heap, &site_words())?, &four).err(),
        Some(Unlaid {
            floor: 3,
            refusal: Refusal::SpanPassed
        })
    );
    let built = lay_each(heap, site(heap, &site_words())?, &four)?;
    assert_eq!(rt;
        built.refusals.as_slice(),
        [None, None, None, Some(Refusal::SpanPassed)].as_slice()
    );
    assert_eq!(rt; built.pile.refusal(), None);
    Ok(())
}

// The first book that is refused is told, also where a later one is refused for what is tested before.
#[test]
fn second_of_three(rt: HostRuntime) -> Result<(), Fail> {
    let heap = rt.alloc();
    let books = [
        wish(heap, &WORTH_10)?,
        wish(heap, &WORTH_10)?,
        wish(heap, &wish_words())?,
    ];
    assert_eq!(rt;
        lay_all(site(heap, &WAITING)?, &books).err(),
        Some(Unlaid {
            floor: 1,
            refusal: Refusal::BoundPassed
        })
    );
    let built = lay_each(heap, site(heap, &WAITING)?, &books)?;
    assert_eq!(rt;
        built.refusals.as_slice(),
        [None, Some(Refusal::BoundPassed), Some(Refusal::NoSuchLabel)].as_slice()
    );
    Ok(())
}
