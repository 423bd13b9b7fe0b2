// Wish books at the bounds of what is accepted.
use crate::files::*;
use std::alloc::{AllocError, Global};
use std::test::Fail;

// Every kind of node, at words 0 to 9, and two rewards.
static BASE: [&[u32]; 4] = [
    &[0x10000001, 0x10000000, 0x20000000, 0x30000100],
    &[0x40000201, 0x50000001, 0x60000100, 0x70000002],
    &[0x80000003, 0x90000000],
    &[0xA000FF09, 0xA0010003],
];

// A chain of 15 once over label 0, at words 2 to 16, and once over the two ands of labels 0 and 1; three rewards from 21.
static TWO: [&[u32]; 7] = [
    &[0x10000000, 0x10000001, 0x80000000, 0x80000002],
    &[0x80000003, 0x80000004, 0x80000005, 0x80000006],
    &[0x80000007, 0x80000008, 0x80000009, 0x8000000A],
    &[0x8000000B, 0x8000000C, 0x8000000D, 0x8000000E],
    &[0x8000000F, 0x30000100, 0x30000001, 0x80000011],
    &[0x80000012],
    &[0xA000FF10, 0xA000FF13, 0xA000FF14],
];

// A chain of 17 once, and a reward at 18.
static SEVENTEEN: [&[u32]; 6] = [
    &[0x10000000, 0x80000000, 0x80000001, 0x80000002],
    &[0x80000003, 0x80000004, 0x80000005, 0x80000006],
    &[0x80000007, 0x80000008, 0x80000009, 0x8000000A],
    &[0x8000000B, 0x8000000C, 0x8000000D, 0x8000000E],
    &[0x8000000F, 0x80000010],
    &[0xA000FF11],
];

// Labels and operands.
static NODES: &[Edit] = edits! {
    0 1 [0x1000001F] 0 0 "label 31"
    0 1 [0x10000020] 3 0 "label 32"
    0 1 [0x20000000] 4 0 "not of word 0 in word 0"
    0 1 [0x30000000] 4 0 "and of word 0 in word 0"
    0 1 [0x50000000] 4 0 "previous of word 0 in word 0"
    0 1 [0x90000000] 0 0 "true in word 0"
    2 1 [0x20000001] 0 0 "not of the word before"
    2 1 [0x20000002] 4 2 "not of itself"
    2 1 [0x20000003] 4 2 "not of the word after"
    2 1 [0x200000FF] 4 2 "not of word 255"
    3 1 [0x30000202] 0 0 "and of the word before, twice"
    3 1 [0x30000003] 4 3 "and of itself and another"
    3 1 [0x30000300] 4 3 "and of another and itself"
    4 1 [0x40000303] 0 0 "or of the word before, twice"
    4 1 [0x40000004] 4 4 "or of itself and another"
    4 1 [0x40000400] 4 4 "or of another and itself"
    5 1 [0x50000004] 0 0 "previous of the word before"
    5 1 [0x50000005] 4 5 "previous of itself"
    6 1 [0x60000505] 0 0 "since of the word before, twice"
    6 1 [0x60000006] 4 6 "since of itself and another"
    6 1 [0x60000600] 4 6 "since of another and itself"
    7 1 [0x70000006] 0 0 "always of the word before"
    7 1 [0x70000007] 4 7 "always of itself"
    8 1 [0x80000007] 0 0 "once of the word before"
    8 1 [0x80000008] 4 8 "once of itself"
    2 1 [0x20000102] 3 2 "not of itself, and an unused bit"
    6 1 [0x60010006] 3 6 "since of itself, and an unused bit"
    0 1 [0xB0000020] 2 0 "an unused bit in a word of kind 11"
    0 1 [0xFFFFFFFF] 2 0 "all bits of the first word"
    0 1 [0x00000000] 2 0 "no bit of the first word"
};

// Rewards, and what comes after them.
static REWARDS: &[Edit] = edits! {
    10 1 [0xA000FF09] 0 0 "node 9 of 10"
    10 1 [0xA000FF0A] 4 10 "node 10 of 10"
    10 1 [0xA000FFFF] 4 10 "node 255"
    11 1 [0xA000FF09] 0 0 "node 9 of 10 in the second reward"
    11 1 [0xA000FF0A] 4 11 "node 10 of 10 in the second reward"
    10 1 [0xA000FF00] 0 0 "node 0"
    10 1 [0xA0000009] 0 0 "amount -255"
    10 1 [0xA001FF09] 0 0 "amount 256"
    10 1 [0xA0020009] 3 10 "amount 257"
    10 1 [0xA002000A] 3 10 "node 10 of 10 and an unused bit"
    0 0 [0xA000FF00] 2 0 "a reward first"
    0 0 [0xA802FF00] 2 0 "a reward first, with an unused bit"
    5 1 [0xA000FF00] 2 6 "a reward among the nodes"
    5 1 [0xA000FF05] 4 5 "a reward of its own place among the nodes"
    11 0 [0x90000000] 2 11 "a node after a reward"
    12 0 [0x10000000] 2 12 "a node after the rewards"
    12 0 [0x10000020] 2 12 "a node with an unused bit after the rewards"
    10 ALL [] 2 10 "an end before any reward"
    0 ALL [] 2 0 "an end before any node"
    1 ALL [] 2 1 "an end after one node"
    11 ALL [] 0 0 "an end after one reward"
    0 ALL [0x90000000 0xA000FF00] 0 0 "one node and one reward"
    0 ALL [0x90000000 0xA000FF01] 4 1 "one node and a reward of node 1"
};

// Items of nodes that are merged or at rest.
static ITEMS: &[Edit] = edits! {
    0 0 [] 10 24 "a and b, and b and a: 17 items"
    18 1 [0x30000100] 0 0 "a and b twice: 16 items"
    21 ALL [0xA000FF10 0xA000FF13] 0 0 "two rewards that rest on 16 items"
    21 ALL [0xA000FF0F 0xA000FF13 0xA000FF14] 0 0 "three rewards that rest on 16 items"
    21 ALL [0xA000FF14 0xA000FF10 0xA000FF13] 10 24 "three rewards that rest on 17 items, in another order"
    21 ALL [0xA000FF00] 0 0 "a reward that rests on no item"
    1 1 [0x10000000] 0 0 "two words of one label: 16 items"
    18 ALL [0x30000100 0x80000011 0x80000012 0x80000001 0xA000FF10 0xA000FF13 0xA000FF14] 0 0 "a 17th once that no reward rests on"
    18 ALL [0x30000100 0x80000011 0x80000012 0x80000001 0xA000FF10 0xA000FF13 0xA000FF15] 10 25 "a 17th once that a reward rests on"
};

// Ends of files.
static ENDINGS: &[Ending] = endings! {
    12 [0xF000000B] 0 5 12 "the number before"
    12 [0xF000000C] 0 0 0 "the right number"
    12 [0xF000000D] 0 5 12 "the number after"
    12 [0xF001000C] 0 5 12 "the right number and bit 16"
    12 [0xF800000C] 0 5 12 "the right number and bit 27"
    12 [0xF000000C] 1 5 12 "a byte after the end"
    12 [0xF000000C] 3 5 12 "three bytes after the end"
    12 [0xF000000C] 4 5 12 "a word after the end"
    12 [0xF000000C 0xA000FF00] 0 5 12 "a reward after the end"
    10 [0xF0000000] 0 2 10 "a wrong number where no end may come"
    0 [0xB0000000] 0 2 0 "a wrong kind, and nothing after it"
    2 [0x20000002] 1 4 2 "an operand out of range, and a byte after it"
    0 [] 3 1 0 "three bytes of a wrong first word"
    5 [] 1 1 5 "a byte for a node"
    10 [] 3 1 10 "three bytes for a reward"
    12 [] 3 1 12 "three bytes for the end"
    12 [] 4 5 12 "a word of ones for the end"
};

// Ends of a book of 16 or 17 items.
static FULL_ENDINGS: &[Ending] = endings! {
    19 [0xF0000013] 0 10 19 "17 items, and the right number"
    19 [0xF0000012] 0 5 19 "17 items, and the number before"
    19 [0xF0000014] 0 5 19 "17 items, and the number after"
    19 [0xF0000013] 1 5 19 "17 items, and a byte after"
    19 [] 0 1 19 "17 items, and no end"
    18 [0xA000FF10 0xF0000013] 0 0 0 "16 items, and the right number"
    18 [0xA000FF10 0xF0000012] 0 5 19 "16 items, and the number before"
};

// Unused bits, and the kinds that may come.
static WORDS: [Word; 13] = [
    (0, 5, &[1, 2, 3, 4, 5, 6, 7, 8, 9]),
    (1, 5, &[1, 2, 3, 4, 5, 6, 7, 8, 9, 10]),
    (2, 8, &[1, 2, 3, 4, 5, 6, 7, 8, 9, 10]),
    (3, 16, &[1, 2, 3, 4, 5, 6, 7, 8, 9, 10]),
    (4, 16, &[1, 2, 3, 4, 5, 6, 7, 8, 9, 10]),
    (5, 8, &[1, 2, 3, 4, 5, 6, 7, 8, 9, 10]),
    (6, 16, &[1, 2, 3, 4, 5, 6, 7, 8, 9, 10]),
    (7, 8, &[1, 2, 3, 4, 5, 6, 7, 8, 9, 10]),
    (8, 8, &[1, 2, 3, 4, 5, 6, 7, 8, 9, 10]),
    (9, 0, &[1, 2, 3, 4, 5, 6, 7, 8, 9, 10]),
    (10, 17, &[1, 2, 3, 4, 5, 6, 7, 8, 9, 10]),
    (11, 17, &[10, 15]),
    (12, 28, &[10, 15]),
];

// How many words `true`, how many rewards and their word; the answer.
type Count = (usize, usize, u32, Answer);

// 128 nodes and 16 rewards.
static COUNTS: [Count; 21] = [
    (1, 1, 0xA000FF00, (0, 0)),
    (127, 1, 0xA000FF7E, (0, 0)),
    (128, 1, 0xA000FF7F, (0, 0)),
    (128, 1, 0xA000FF80, (4, 128)),
    (127, 1, 0xA000FF7F, (4, 127)),
    (129, 1, 0xA000FF7F, (2, 128)),
    (129, 1, 0xA000FF80, (2, 128)),
    (129, 0, 0xA000FF00, (2, 128)),
    (128, 0, 0xA000FF00, (2, 128)),
    (256, 16, 0xA000FF00, (2, 128)),
    (1, 15, 0xA000FF00, (0, 0)),
    (1, 16, 0xA000FF00, (0, 0)),
    (1, 17, 0xA000FF00, (2, 17)),
    (1, 17, 0xA000FF01, (4, 1)),
    (128, 16, 0xA001FF7F, (0, 0)),
    (128, 17, 0xA0000000, (2, 144)),
    (2, 32, 0xA000FF01, (2, 18)),
    (0, 1, 0xA000FF00, (2, 0)),
    (0, 17, 0xA000FF00, (2, 0)),
    (0, 0, 0xA000FF00, (2, 0)),
    (1, 0, 0xA000FF00, (2, 1)),
];

// The two kinds of node of a chain over a label, by turns; how many there are and the reward's node; the answer.
type Chain = ((Step, Step), (u32, u32), Answer);

// A node word whose operands are 0, and what it grows by where they are the next node.
type Step = (u32, u32);

const ONCE: Step = (0x80000000, 0x1);

const SINCE: Step = (0x60000000, 0x101);

const ALWAYS: Step = (0x70000000, 0x1);

const PREVIOUS: Step = (0x50000000, 0x1);

const NOT: Step = (0x20000000, 0x1);

const AND: Step = (0x30000000, 0x101);

const OR: Step = (0x40000000, 0x101);

// 16 items.
static CHAINS: [Chain; 29] = [
    ((ONCE, ONCE), (16, 16), (0, 0)),
    ((ONCE, ONCE), (17, 17), (10, 19)),
    ((ONCE, ONCE), (17, 16), (0, 0)),
    ((ONCE, ONCE), (127, 0), (0, 0)),
    ((ONCE, ONCE), (127, 16), (0, 0)),
    ((ONCE, ONCE), (127, 17), (10, 129)),
    ((ONCE, ONCE), (127, 127), (10, 129)),
    ((SINCE, SINCE), (16, 16), (0, 0)),
    ((SINCE, SINCE), (17, 17), (10, 19)),
    ((ALWAYS, ALWAYS), (16, 16), (0, 0)),
    ((ALWAYS, ALWAYS), (17, 17), (10, 19)),
    ((PREVIOUS, PREVIOUS), (16, 16), (0, 0)),
    ((PREVIOUS, PREVIOUS), (17, 17), (10, 19)),
    ((ALWAYS, PREVIOUS), (16, 16), (0, 0)),
    ((ALWAYS, PREVIOUS), (17, 17), (10, 19)),
    ((PREVIOUS, ALWAYS), (17, 17), (10, 19)),
    ((ONCE, PREVIOUS), (32, 32), (0, 0)),
    ((ONCE, PREVIOUS), (33, 33), (10, 35)),
    ((SINCE, PREVIOUS), (32, 32), (0, 0)),
    ((SINCE, PREVIOUS), (33, 33), (10, 35)),
    ((PREVIOUS, ONCE), (31, 31), (0, 0)),
    ((PREVIOUS, ONCE), (32, 32), (10, 34)),
    ((ONCE, ALWAYS), (16, 16), (0, 0)),
    ((ONCE, ALWAYS), (17, 17), (10, 19)),
    ((ONCE, NOT), (32, 32), (0, 0)),
    ((ONCE, NOT), (33, 33), (10, 35)),
    ((NOT, NOT), (127, 127), (0, 0)),
    ((NOT, NOT), (128, 127), (2, 128)),
    ((AND, OR), (127, 127), (0, 0)),
];

fn repeated(
    heap: Global,
    nodes: usize,
    rewards: usize,
    reward: u32,
) -> Result<Vec<u32>, AllocError> {
    let mut words = Vec::new(heap);
    words.resize(nodes, 0x90000000)?;
    words.resize(nodes.saturating_add(rewards), reward)?;
    close(&mut words)?;
    Ok(words)
}

fn chained(heap: Global, steps: (Step, Step), len: u32, node: u32) -> Result<Vec<u32>, AllocError> {
    let mut words = Vec::new(heap);
    words.push(0x10000000)?;
    for below in 0..len {
        let (word, step) = if below % 2 == 0 { steps.0 } else { steps.1 };
        words.push(word.wrapping_add(step.wrapping_mul(below)))?;
    }
    words.push(0xA000FF00 | node)?;
    close(&mut words)?;
    Ok(words)
}

#[test]
fn fields(rt: HostRuntime) -> Result<(), Fail> {
    let heap = rt.alloc();
    let base = Bench::new(heap, Wish, &BASE)?;
    base.edits(NODES)?;
    base.edits(REWARDS)?;
    Bench::new(heap, Wish, &TWO)?.edits(ITEMS)
}

#[test]
fn bits_and_kinds(rt: HostRuntime) -> Result<(), Fail> {
    Bench::new(rt.alloc(), Wish, &BASE)?.bits_and_kinds(&WORDS)
}

#[test]
fn ends(rt: HostRuntime) -> Result<(), Fail> {
    let heap = rt.alloc();
    let base = Bench::new(heap, Wish, &BASE)?;
    base.endings(ENDINGS)?;
    Bench::new(heap, Wish, &SEVENTEEN)?.endings(FULL_ENDINGS)?;
    base.cuts()
}

#[test]
fn sizes(rt: HostRuntime) -> Result<(), Fail> {
    let heap = rt.alloc();
    let bench = Bench::new(heap, Wish, &[])?;
    for row in &COUNTS {
        let (nodes, rewards, reward, expected) = *row;
        let words = repeated(heap, nodes, rewards, reward)?;
        bench.words(
            words.as_slice(),
            expected,
            format_args!("{nodes} nodes, {rewards} rewards {reward:x}"),
        )?;
    }
    for row in &CHAINS {
        let (steps, (len, node), expected) = *row;
        let words = chained(heap, steps, len, node)?;
        bench.words(
            words.as_slice(),
            expected,
            format_args!("{steps:?}, {len} nodes, reward of {node}"),
        )?;
    }
    Ok(())
}
