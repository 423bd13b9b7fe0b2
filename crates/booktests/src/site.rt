// Site books at the bounds of what is accepted.
use crate::files::*;
use std::alloc::{AllocError, Global};
use std::test::Fail;

// The built-in crossing: three states, two labels, two actions. Its entries begin at words 7, 10, 12 and 15.
static CROSSING: [&[u32]; 8] = [
    &[0x10084003],
    &[0x20000000, 0x300007D0],
    &[0x20000001, 0x300017D0],
    &[0x20000003, 0x300027D0],
    &[0x40010000, 0x50004000, 0x50004001],
    &[0x40008001, 0x50008001],
    &[0x40011001, 0x50006002, 0x50002001],
    &[0x40008002, 0x50008000],
];

// One state, no label, one action.
static ONE: [&[u32]; 3] = [
    &[0x10040001],
    &[0x20000000, 0x300007D0],
    &[0x40008000, 0x50008000],
];

// Eight actions, of which the one state offers the first and the last.
static ACTIONS: [&[u32]; 4] = [
    &[0x10200001],
    &[0x20000000, 0x300007D0],
    &[0x40008000, 0x50008000],
    &[0x4000F000, 0x50008000],
];

// Eight states, of which the first leads to each with weight 1: an entry at 17, outcomes from 18 to 25.
static WIDE: [&[u32]; 18] = [
    &[0x10040008],
    &[0x20000000, 0x300007D0],
    &[0x20000000, 0x300007D0],
    &[0x20000000, 0x300007D0],
    &[0x20000000, 0x300007D0],
    &[0x20000000, 0x300007D0],
    &[0x20000000, 0x300007D0],
    &[0x20000000, 0x300007D0],
    &[0x20000000, 0x300007D0],
    &[0x40040000, 0x50001000, 0x50001001, 0x50001002, 0x50001003],
    &[0x50001004, 0x50001005, 0x50001006, 0x50001007],
    &[0x40008001, 0x50008000],
    &[0x40008002, 0x50008000],
    &[0x40008003, 0x50008000],
    &[0x40008004, 0x50008000],
    &[0x40008005, 0x50008000],
    &[0x40008006, 0x50008000],
    &[0x40008007, 0x50008000],
];

// The head.
static HEADS: &[Edit] = edits! {
    0 1 [0x10084000] 4 0 "no state"
    0 1 [0x10085000] 2 7 "4,096 states, of which 3 follow"
    0 1 [0x10085001] 4 0 "4,097 states"
    0 1 [0x10085FFF] 4 0 "8,191 states"
    0 1 [0x10084002] 2 5 "2 states, and a third mask"
    0 1 [0x10084004] 2 7 "4 states, and 3 masks"
    0 1 [0x10080003] 4 3 "no label, and label 0 in state 1"
    0 1 [0x10082003] 4 5 "one label, and label 1 in state 2"
    0 1 [0x100B0003] 0 0 "24 labels"
    0 1 [0x100B2003] 4 0 "25 labels"
    0 1 [0x100BE003] 4 0 "31 labels"
    0 1 [0x10004003] 4 0 "no action"
    0 1 [0x10044003] 4 12 "one action, and an entry of action 1"
    0 1 [0x10204003] 0 0 "8 actions"
    0 1 [0x10244003] 4 0 "9 actions"
    0 1 [0x103C4003] 4 0 "15 actions"
    0 1 [0x10484000] 3 0 "an unused bit and no state"
    0 1 [0x180B2003] 3 0 "an unused bit and 25 labels"
    0 1 [0x10644003] 3 0 "an unused bit and 9 actions"
    0 1 [0x20484003] 2 0 "an unused bit in a head of the wrong kind"
};

// Masks and rewards.
static STATES: &[Edit] = edits! {
    1 1 [0x20000002] 0 0 "label 1 of 2"
    1 1 [0x20000004] 4 1 "label 2 of 2"
    1 1 [0x20800000] 4 1 "label 23 of 2"
    5 1 [0x20000002] 0 0 "label 1 of 2 in the last state"
    5 1 [0x20000004] 4 5 "label 2 of 2 in the last state"
    0 2 [0x100AE003 0x20400000] 0 0 "label 22 of 23"
    0 2 [0x100AE003 0x20800000] 4 1 "label 23 of 23"
    0 2 [0x100B0003 0x20FFFFFF] 0 0 "all labels of 24"
    0 2 [0x100B0003 0x21000000] 3 1 "bit 24 with 24 labels"
    1 1 [0x21000004] 3 1 "label 2 of 2 and an unused bit"
    1 1 [0x31000000] 2 1 "an unused bit where a mask is due"
    2 1 [0x30000000] 0 0 "reward -2000"
    2 1 [0x30000FA0] 0 0 "reward 2000"
    2 1 [0x30000FA1] 4 2 "reward 2001"
    2 1 [0x30000FFF] 4 2 "reward 2095"
    6 1 [0x30002FA0] 0 0 "reward 2000 in the last state"
    6 1 [0x30002FA1] 4 6 "reward 2001 in the last state"
    2 1 [0x30FFF7D0] 0 0 "origin 4095"
    2 1 [0x30FFFFA1] 4 2 "origin 4095 and reward 2001"
    2 1 [0x31000FA1] 3 2 "reward 2001 and an unused bit"
    2 1 [0x210007D0] 2 2 "an unused bit where a reward is due"
};

// Entries: state, action, outcomes, order.
static ENTRIES: &[Edit] = edits! {
    15 1 [0x40008002] 0 0 "state 2 of 3"
    15 1 [0x40008003] 4 15 "state 3 of 3"
    15 1 [0x40008FFF] 4 15 "state 4095"
    7 1 [0x40010003] 4 7 "state 3 of 3 first"
    12 1 [0x40011001] 0 0 "action 1 of 2"
    12 1 [0x40012001] 4 12 "action 2 of 2"
    12 1 [0x40017001] 4 12 "action 7 of 2"
    10 1 [0x40000001] 4 10 "no outcome"
    7 1 [0x40008000] 6 8 "one outcome, and two follow"
    7 2 [0x40008000 0x50008000] 2 9 "one outcome of weight 8, and two follow"
    10 1 [0x40010001] 2 12 "two outcomes, and one follows"
    10 1 [0x40078001] 4 10 "15 outcomes"
    10 1 [0x40008000] 7 10 "the same entry again"
    15 1 [0x40009001] 7 15 "the entry before again, with action 1"
    15 1 [0x40008001] 7 15 "a lower action of the same state"
    15 1 [0x40008000] 7 15 "a lower state and a lower action"
    12 1 [0x40011000] 7 12 "a lower state and a higher action"
    10 5 [0x40011001 0x50006002 0x50002001 0x40008001 0x50008001] 7 13 "action 1 before action 0"
    10 1 [0x40000000] 4 10 "the same entry again, with no outcome"
    15 1 [0x40088003] 3 15 "state 3 of 3 and an unused bit"
    10 1 [0x40088000] 3 10 "the same entry again, with an unused bit"
    10 1 [0x50088001] 2 10 "an unused bit where an entry is due"
    0 ALL [0x10080002 0x20000000 0x300007D0 0x20000000 0x300007D0 0x40008000 0x50008000 0x40009000 0x50008001 0x40008001 0x50008000 0x40009001 0x50008001] 0 0 "entries of both actions in each state"
};

// Outcomes: target, weight, total, order.
static OUTCOMES: &[Edit] = edits! {
    9 1 [0x50004002] 0 0 "target 2 of 3"
    9 1 [0x50004003] 4 9 "target 3 of 3"
    9 1 [0x50004FFF] 4 9 "target 4095"
    9 1 [0x50000001] 4 9 "weight 0"
    11 1 [0x50000001] 4 11 "weight 0 alone"
    8 2 [0x50007000 0x50001001] 0 0 "weights 7 and 1"
    8 2 [0x50001000 0x50007001] 0 0 "weights 1 and 7"
    11 1 [0x50009001] 4 11 "weight 9"
    11 1 [0x5000F001] 4 11 "weight 15"
    9 1 [0x50003001] 6 9 "a total of 7"
    9 1 [0x50005001] 6 9 "a total of 9"
    11 1 [0x50007001] 6 11 "a total of 7 in one outcome"
    11 1 [0x50001001] 6 11 "a total of 1 in one outcome"
    8 2 [0x50008000 0x50001001] 6 9 "a total of 9, with 8 in the first outcome"
    8 2 [0x50008000 0x50008001] 6 9 "a total of 16"
    15 2 [0x40010002 0x50008000 0x50001001] 6 17 "a total of 9 in the last entry"
    9 2 [0x50003001 0x10008001] 6 9 "a total of 7, and a wrong kind after it"
    8 2 [0x50008000 0x50001000] 7 9 "8 in the first outcome, and the target again"
    8 2 [0x50008000 0x50001003] 4 9 "8 in the first outcome, and target 3 of 3"
    8 2 [0x50008000 0x40008001] 2 9 "8 in the first outcome, and an entry"
    9 1 [0x50004000] 7 9 "the target again"
    9 1 [0x50003000] 7 9 "the target again, with a total of 7"
    9 1 [0x50000000] 4 9 "the target again, with weight 0"
    9 1 [0x50014000] 3 9 "the target again, with an unused bit"
    9 1 [0x50014003] 3 9 "target 3 of 3 and an unused bit"
    9 1 [0x50013001] 3 9 "a total of 7 and an unused bit"
    9 1 [0x40014001] 2 9 "an unused bit where an outcome is due"
};

// Eight outcomes.
static WIDTHS: &[Edit] = edits! {
    0 0 [] 0 0 "8 outcomes"
    17 1 [0x40048000] 4 17 "9 outcomes"
    26 0 [0x50001000] 2 26 "a ninth outcome"
    25 1 [] 2 25 "7 of 8 outcomes"
    17 1 [0x40038000] 6 24 "7 outcomes, and 8 follow"
    19 1 [0x50001000] 7 19 "a second outcome like the first"
    25 1 [0x50001000] 7 25 "a last outcome like the first"
    25 1 [0x50001006] 7 25 "a last outcome like the one before"
    25 1 [0x50001008] 4 25 "8 states, and target 8"
    25 1 [0x50002007] 6 25 "a total of 9 at the last outcome"
    18 1 [0x50002000] 6 25 "a total of 9 from the first outcome"
    24 2 [0x50008006 0x50001000] 7 25 "a total above 8, and a target again"
};

// One state.
static SMALL: &[Edit] = edits! {
    0 0 [] 0 0 "one state, no label, one action"
    0 1 [0x10040000] 4 0 "no state"
    1 1 [0x20000001] 4 1 "label 0 of none"
    0 2 [0x10042001 0x20000001] 0 0 "label 0 of one"
    0 2 [0x10042001 0x20000002] 4 1 "label 1 of one"
    3 1 [0x40008001] 4 3 "state 1 of one"
    5 0 [0x40009000 0x50008000] 4 5 "action 1 of one"
    4 1 [0x50008001] 4 4 "target 1 of one"
    0 1 [0xFFFFFFFF] 2 0 "all bits of the first word"
    0 1 [0x00000000] 2 0 "no bit of the first word"
};

// The last action.
static LAST_ACTION: &[Edit] = edits! {
    0 0 [] 0 0 "action 7 of 8"
    0 1 [0x101C0001] 4 5 "action 7 of 7"
    5 1 [0x40008000] 7 5 "action 0 again"
};

// Where an end may come, and waits.
static WHOLES: &[Edit] = edits! {
    7 ALL [] 8 7 "no entry"
    10 ALL [] 8 10 "an entry of state 0 alone"
    15 2 [] 8 15 "no entry of state 2"
    7 3 [] 8 14 "no wait in state 0"
    10 2 [] 8 15 "no wait in state 1"
    7 1 [0x40011000] 8 17 "action 1 for wait in state 0"
    15 1 [0x40009002] 8 17 "action 1 for wait in state 2"
    3 ALL [] 2 3 "an end in the states, before a mask"
    4 ALL [] 2 4 "an end in the states, before a reward"
    1 ALL [] 2 1 "an end after the head"
    8 ALL [] 2 8 "an end after an entry"
    9 ALL [] 2 9 "an end between outcomes"
    0 ALL [] 2 0 "an end first"
};

// Ends of files.
static ENDINGS: &[Ending] = endings! {
    17 [0xF0000010] 0 5 17 "the number before"
    17 [0xF0000011] 0 0 0 "the right number"
    17 [0xF0000012] 0 5 17 "the number after"
    17 [0xF0000000] 0 5 17 "the number 0"
    17 [0xF0010011] 0 5 17 "the right number and bit 16"
    17 [0xF8000011] 0 5 17 "the right number and bit 27"
    17 [0xF0000011] 1 5 17 "a byte after the end"
    17 [0xF0000011] 3 5 17 "three bytes after the end"
    17 [0xF0000011] 4 5 17 "a word after the end"
    17 [0xF0000011 0xF0000012] 0 5 17 "a second end"
    17 [0xF0000011 0x40009002] 0 5 17 "an entry after the end"
    15 [0xF000000E] 0 5 15 "no wait in state 2, and the number before"
    15 [0xF0000010] 0 5 15 "no wait in state 2, and the number after"
    15 [0xF000000F] 1 5 15 "no wait in state 2, and a byte after the end"
    7 [0xF0000008] 0 5 7 "no entry, and the number after"
    3 [0xF0000000] 0 2 3 "a wrong number where no end may come"
    0 [0x20000000] 0 2 0 "a wrong kind, and nothing after it"
    0 [0x20000000] 1 2 0 "a wrong kind, and a byte after it"
    9 [0x50003001] 0 6 9 "a wrong total, and nothing after it"
    10 [0x40008000] 0 7 10 "an entry that does not rise, and nothing after it"
    0 [] 3 1 0 "three bytes of a wrong head"
    1 [] 3 1 1 "three bytes of a wrong mask"
    7 [] 3 1 7 "three bytes for an entry"
    9 [] 1 1 9 "a byte for an outcome"
    17 [] 3 1 17 "three bytes for the end"
    17 [] 4 5 17 "a word of ones for the end"
};

// Unused bits, and the kinds that may come.
static WORDS: [Word; 16] = [
    (0, 22, &[1]),
    (1, 24, &[2]),
    (2, 24, &[3]),
    (3, 24, &[2]),
    (4, 24, &[3]),
    (5, 24, &[2]),
    (6, 24, &[3]),
    (7, 19, &[4, 15]),
    (8, 16, &[5]),
    (9, 16, &[5]),
    (10, 19, &[4, 15]),
    (11, 16, &[5]),
    (12, 19, &[4, 15]),
    (15, 19, &[4, 15]),
    (16, 16, &[5]),
    (17, 28, &[4, 15]),
];

// States, actions, outcomes of an entry and their weight; how many last words are left out; the answer.
type Size = ((u32, u32, u32, u32), usize, Answer);

// The largest book has 303,105 words before its end.
static LARGE: [Size; 15] = [
    ((1, 1, 1, 8), 0, (0, 0)),
    ((4095, 1, 1, 8), 0, (0, 0)),
    ((4096, 1, 1, 8), 0, (0, 0)),
    ((4097, 1, 1, 8), 0, (4, 0)),
    ((4096, 1, 1, 8), 1, (2, 16384)),
    ((4096, 1, 1, 8), 2, (8, 16383)),
    ((4096, 1, 2, 4), 3, (8, 20478)),
    ((4096, 8, 8, 1), 0, (0, 0)),
    ((4096, 8, 8, 1), 1, (2, 303104)),
    ((4096, 8, 8, 1), 63, (0, 0)),
    ((4096, 8, 8, 1), 72, (8, 303033)),
    ((4096, 9, 8, 1), 0, (4, 0)),
    ((7, 8, 8, 1), 0, (4, 23)),
    ((8, 8, 8, 1), 0, (0, 0)),
    ((9, 8, 9, 1), 0, (4, 19)),
];

// Every state offers every action, to the first states.
fn book_of(
    heap: Global,
    states: u32,
    actions: u32,
    outcomes: u32,
    weight: u32,
) -> Result<Vec<u32>, AllocError> {
    let mut words = Vec::new(heap);
    words.push(0x10000000 | states | actions.rotate_left(18))?;
    for _ in 0..states {
        words.push(0x20000000)?;
        words.push(0x300007D0)?;
    }
    for state in 0..states {
        for action in 0..actions {
            words.push(0x40000000 | state | action.rotate_left(12) | outcomes.rotate_left(15))?;
            for target in 0..outcomes {
                words.push(0x50000000 | target | weight.rotate_left(12))?;
            }
        }
    }
    Ok(words)
}

#[test]
fn fields(rt: HostRuntime) -> Result<(), Fail> {
    let heap = rt.alloc();
    let wide = Bench::new(heap, Site(heap), &WIDE)?;
    let crossing = Bench::new(heap, Site(heap), &CROSSING)?;
    crossing.edits(HEADS)?;
    crossing.edits(STATES)?;
    crossing.edits(ENTRIES)?;
    crossing.edits(OUTCOMES)?;
    wide.edits(WIDTHS)?;
    Bench::new(heap, Site(heap), &ONE)?.edits(SMALL)?;
    Bench::new(heap, Site(heap), &ACTIONS)?.edits(LAST_ACTION)?;
    crossing.edits(WHOLES)?;
    wide.weighings(Eight {
        at: 18,
        first: 0x50000000,
        step: 1,
        low: 12,
    })
}

#[test]
fn bits_and_kinds(rt: HostRuntime) -> Result<(), Fail> {
    let heap = rt.alloc();
    Bench::new(heap, Site(heap), &CROSSING)?.bits_and_kinds(&WORDS)
}

#[test]
fn ends(rt: HostRuntime) -> Result<(), Fail> {
    let heap = rt.alloc();
    let crossing = Bench::new(heap, Site(heap), &CROSSING)?;
    crossing.endings(ENDINGS)?;
    crossing.cuts()
}

#[test]
fn sizes(rt: HostRuntime) -> Result<(), Fail> {
    let heap = rt.alloc();
    let bench = Bench::new(heap, Site(heap), &[])?;
    for row in &LARGE {
        let ((states, actions, outcomes, weight), short, expected) = *row;
        let mut words = book_of(heap, states, actions, outcomes, weight)?;
        words.truncate(words.len().saturating_sub(short));
        close(&mut words)?;
        bench.words(
            words.as_slice(),
            expected,
            format_args!(
                "{states} states, {actions} actions, {outcomes} outcomes, {short} words short"
            ),
        )?;
    }
    Ok(())
}
