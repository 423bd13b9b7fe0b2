// Each row is a wish book and a record of the site below: at each position the state there, the wishes that hold and the reward, worked out
// by hand from the truth lines. A layer is followed along the record by what any model is asked.
use layer::Layer;
use model::{SiteModel, reachable_at};
use refusal::Unread;
use sitebook::{SiteBook, read_site};
use std::alloc::Global;
use std::test::Fail;
use wishbook::{WishBook, read_wish};
use words::bytes_of;

// Four states, of which any may follow any: outcome j of waiting leads to state j. Of two labels, p0 holds in states 0 and 3, and p1 in
// 2 and 3. The rewards are 0, 100, -200 and 300.
static SITE: [u32; 30] = [
    0x10044004, 0x20000001, 0x300007D0, 0x20000000, 0x30000834, 0x20000002, 0x30000708, 0x20000003,
    0x300008FC, 0x40020000, 0x50002000, 0x50002001, 0x50002002, 0x50002003, 0x40020001, 0x50002000,
    0x50002001, 0x50002002, 0x50002003, 0x40020002, 0x50002000, 0x50002001, 0x50002002, 0x50002003,
    0x40020003, 0x50002000, 0x50002001, 0x50002002, 0x50002003, 0xF000001D,
];

const LABELS: u32 = 2;

// "always p0", worth 1, and "previous always p0", worth 2: with one bit for both they would agree at position 0.
static ALWAYS: [u32; 6] = [
    0x10000000, 0x70000000, 0x50000001, 0xA0010001, 0xA0010102, 0xF0000005,
];
// "previous p0", worth 1: memory worked out from the state arrived at would tell of the present position.
pub static PREVIOUS: [u32; 4] = [0x10000000, 0x50000000, 0xA0010001, 0xF0000003];
// "p0 since p1", worth 1: p0 is not asked at the position at which p1 holds.
pub static SINCE: [u32; 5] = [0x10000000, 0x10000001, 0x60000100, 0xA0010002, 0xF0000004];

// What there is at a position of a record.
#[derive(Clone, Copy)]
struct Position {
    site: usize,
    wishes: u32,
    reward: i32,
}

const fn at(site: usize, wishes: u32, reward: i32) -> Position {
    Position {
        site,
        wishes,
        reward,
    }
}

fn site(heap: Global) -> Result<SiteBook, Unread> {
    read_site(heap, bytes_of(heap, &SITE)?.as_slice())
}

pub fn wish(heap: Global, words: &[u32]) -> Result<WishBook, Unread> {
    Ok(read_wish(bytes_of(heap, words)?.as_slice())?)
}

// Whether the layer has these wishes and this reward in a state.
fn has<M: SiteModel>(layer: &M, state: u64, wanted: &Position) -> bool {
    layer.mask(state) >> LABELS == wanted.wishes && layer.reward(state) == wanted.reward
}

// Follows a record, which begins in state 0, along the layer of a wish book on the site.
fn follow(heap: Global, words: &[u32], record: &[Position]) -> Result<bool, Unread> {
    let layer = Layer::new(site(heap)?, Some(wish(heap, words)?));
    let [first, later @ ..] = record else {
        return Ok(false);
    };
    let mut state = layer.start();
    if !has(&layer, state, first) {
        return Ok(false);
    }
    for position in later {
        let Some(next) = reachable_at(&layer, state, 0, position.site) else {
            return Ok(false);
        };
        state = next;
        if !has(&layer, state, position) {
            return Ok(false);
        }
    }
    Ok(true)
}

#[test]
fn readings(rt: HostRuntime) -> Result<(), Fail> {
    let heap = rt.alloc();
    assert!(rt;
        follow(
            heap,
            &ALWAYS,
            &[at(0, 1, 1), at(0, 3, 3), at(1, 2, 102), at(0, 0, 0)]
        )?,
        "always, and previous always"
    );
    assert!(rt;
        follow(
            heap,
            &PREVIOUS,
            &[at(0, 0, 0), at(1, 1, 101), at(0, 0, 0), at(0, 1, 1)]
        )?,
        "memory is of the state left"
    );
    assert!(rt;
        follow(
            heap,
            &SINCE,
            &[
                at(0, 0, 0),
                at(2, 1, -199),
                at(0, 1, 1),
                at(1, 0, 100),
                at(2, 1, -199),
                at(3, 1, 301)
            ]
        )?,
        "since asks its left side only later"
    );
    Ok(())
}
