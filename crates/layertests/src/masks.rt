// Each row is a wish book and a record: at each position the label mask there and the wishes that hold, worked out by hand from the truth
// lines. What a layer works out of its book is asked here itself, so a record may begin with any mask.
use crate::readings::{PREVIOUS, SINCE, wish};
use layermodel::{judge, remember, wish_bits};
use refusal::Unread;
use std::alloc::Global;
use std::test::Fail;

// "always p0" and "previous always p0", both worth 1: with one bit for both they would agree at position 0.
static ALWAYS: [u32; 6] = [
    0x10000000, 0x70000000, 0x50000001, 0xA0010001, 0xA0010002, 0xF0000005,
];

// Follows a record through the memory, and compares the wish bits at each position.
fn follow(heap: Global, words: &[u32], record: &[(u32, u32)]) -> Result<bool, Unread> {
    let book = wish(heap, words)?;
    let mut memory = 0;
    for (mask, wishes) in record {
        let truths = judge(&book, *mask, memory);
        if wish_bits(&book, &truths) != *wishes {
            return Ok(false);
        }
        memory = remember(&book, &truths);
    }
    Ok(true)
}

#[test]
fn masks(rt: HostRuntime) -> Result<(), Fail> {
    let heap = rt.alloc();
    assert!(rt;
        follow(heap, &ALWAYS, &[(1, 1), (1, 3), (0, 2), (1, 0)])?,
        "always, and previous always"
    );
    assert!(rt;
        follow(heap, &PREVIOUS, &[(1, 0), (0, 1), (1, 0), (1, 1)])?,
        "memory is of the state left"
    );
    assert!(rt;
        follow(heap, &SINCE, &[(2, 1), (1, 1), (0, 0), (2, 1), (3, 1)])?,
        "since asks its left side only later"
    );
    Ok(())
}
