// Rule books at the bounds of what is accepted.
use crate::files::*;
use std::test::Fail;

// Three switches, two actions at words 1 and 4, of which the second has needs.
static BASE: [&[u32]; 3] = [
    &[0x60000523],
    &[0x70200000, 0x80500801, 0x80300000],
    &[0x70101001, 0x80800404],
];

// Ten switches, and an action at 3 that needs the last.
static TEN: [&[u32]; 3] = [
    &[0x6000002A],
    &[0x70100000, 0x80800000],
    &[0x70100200, 0x80800000],
];

// Eight actions of one outcome.
static EIGHT: [&[u32]; 9] = [
    &[0x60000083],
    &[0x70100000, 0x80800000],
    &[0x70100000, 0x80800000],
    &[0x70100000, 0x80800000],
    &[0x70100000, 0x80800000],
    &[0x70100000, 0x80800000],
    &[0x70100000, 0x80800000],
    &[0x70100000, 0x80800000],
    &[0x70100000, 0x80800000],
];

// One action of eight outcomes, from 2 to 9.
static MANY: [&[u32]; 3] = [
    &[0x60000013],
    &[0x70800000, 0x80100000, 0x80100000, 0x80100000, 0x80100000],
    &[0x80100000, 0x80100000, 0x80100000, 0x80100000],
];

// The head.
static HEADS: &[Edit] = edits! {
    0 1 [0x60000020] 4 0 "no switch"
    0 1 [0x60000121] 4 2 "one switch, and an outcome clears switch 1"
    0 1 [0x60000522] 4 0 "2 switches, and a start with switch 2"
    0 1 [0x60000322] 4 4 "2 switches, and a need of switch 2"
    0 1 [0x6000052A] 0 0 "10 switches"
    0 1 [0x6000052B] 4 0 "11 switches"
    0 1 [0x6000052F] 4 0 "15 switches"
    0 1 [0x60000723] 0 0 "a start of all 3 switches"
    0 1 [0x60000823] 4 0 "a start with switch 3 of 3"
    0 1 [0x60020023] 4 0 "a start with switch 9 of 3"
    0 1 [0x60010029] 0 0 "a start with switch 8 of 9"
    0 1 [0x60020029] 4 0 "a start with switch 9 of 9"
    0 1 [0x6003FF2A] 0 0 "a start of all 10 switches"
    0 1 [0x6004002A] 3 0 "a start with bit 18 and 10 switches"
    0 1 [0x60000503] 4 0 "no action"
    0 1 [0x60000513] 2 4 "one action, and two follow"
    0 1 [0x60000533] 2 6 "3 actions, and two follow"
    0 1 [0x60000583] 2 6 "8 actions, and two follow"
    0 1 [0x60000593] 4 0 "9 actions"
    0 1 [0x600005F3] 4 0 "15 actions"
    0 1 [0x60040020] 3 0 "no switch and an unused bit"
    0 1 [0x68000593] 3 0 "9 actions and an unused bit"
    0 1 [0x50040523] 2 0 "an unused bit in a head of the wrong kind"
    0 ALL [0x60000011 0x70100000 0x80800000] 0 0 "one switch, one action, no start"
    0 ALL [0x60000111 0x70100000 0x80800000] 0 0 "one switch, and a start with switch 0"
    0 ALL [0x60000211 0x70100000 0x80800000] 4 0 "one switch, and a start with switch 1"
};

// Actions: needs and outcomes.
static ACTIONS: &[Edit] = edits! {
    4 1 [0x70100404] 0 0 "switch 2 of 3 on"
    4 1 [0x70101008] 4 4 "switch 3 of 3 on"
    4 1 [0x70100200] 4 4 "switch 9 of 3 on"
    4 1 [0x70101001] 0 0 "switch 2 of 3 off"
    4 1 [0x70102001] 4 4 "switch 3 of 3 off"
    4 1 [0x70180001] 4 4 "switch 9 of 3 off"
    4 1 [0x70100401] 9 4 "switch 0 on and off"
    4 1 [0x70101004] 9 4 "switch 2 on and off"
    4 1 [0x70102008] 4 4 "switch 3 of 3 on and off"
    4 1 [0x70100409] 4 4 "switch 0 on and off, and switch 3 of 3 on"
    4 1 [0x70000401] 4 4 "switch 0 on and off, and no outcome"
    4 1 [0x71100401] 3 4 "switch 0 on and off, and an unused bit"
    4 1 [0x70100807] 9 4 "all switches on, and switch 1 off"
    1 1 [0x70000000] 4 1 "no outcome"
    1 2 [0x70100000 0x80800801] 2 3 "one outcome, and two follow"
    4 1 [0x70201001] 2 6 "2 outcomes, and one follows"
    1 1 [0x70900000] 4 1 "9 outcomes"
    1 1 [0x70F00000] 4 1 "15 outcomes"
    1 1 [0x71000000] 3 1 "no outcome and an unused bit"
    1 1 [0x81200000] 2 1 "an unused bit where an action is due"
    1 1 [0x70200401] 9 1 "action 0 with a switch on and off"
};

// Outcomes: masks, weight, total.
static OUTCOMES: &[Edit] = edits! {
    2 1 [0x80500004] 0 0 "switch 2 of 3 set"
    2 1 [0x80500008] 4 2 "switch 3 of 3 set"
    2 1 [0x80500200] 4 2 "switch 9 of 3 set"
    2 1 [0x80501001] 0 0 "switch 2 of 3 cleared"
    2 1 [0x80502000] 4 2 "switch 3 of 3 cleared"
    2 1 [0x80580000] 4 2 "switch 9 of 3 cleared"
    2 1 [0x80500401] 9 2 "switch 0 set and cleared"
    2 1 [0x80501004] 9 2 "switch 2 set and cleared"
    2 1 [0x80502008] 4 2 "switch 3 of 3 set and cleared"
    2 1 [0x80000401] 4 2 "switch 0 set and cleared, with weight 0"
    2 1 [0x81500401] 3 2 "switch 0 set and cleared, and an unused bit"
    3 1 [0x80200401] 9 3 "switch 0 set and cleared, and a total of 7"
    2 1 [0x80000801] 4 2 "weight 0"
    5 1 [0x80000404] 4 5 "weight 0 alone"
    2 2 [0x80700801 0x80100000] 0 0 "weights 7 and 1"
    2 2 [0x80100801 0x80700000] 0 0 "weights 1 and 7"
    5 1 [0x80900404] 4 5 "weight 9"
    5 1 [0x80F00404] 4 5 "weight 15"
    3 1 [0x80200000] 6 3 "a total of 7"
    3 1 [0x80400000] 6 3 "a total of 9"
    5 1 [0x80700404] 6 5 "a total of 7 in one outcome"
    2 2 [0x80800801 0x80800000] 6 3 "a total of 16"
    2 2 [0x80800801 0x80100000] 6 3 "a total of 9, with 8 in the first outcome"
    2 2 [0x80800801 0x80000000] 4 3 "8 in the first outcome, and weight 0"
    2 2 [0x80800801 0x70100000] 2 3 "8 in the first outcome, and an action"
    3 2 [0x80200000 0x80101001] 6 3 "a total of 7, and a wrong kind after it"
    2 2 [0x80400801 0x80400801] 0 0 "outcomes that are alike"
    5 1 [0x81900404] 3 5 "weight 9 and an unused bit"
    3 1 [0x81200000] 3 3 "a total of 7 and an unused bit"
    2 1 [0x71500801] 2 2 "an unused bit where an outcome is due"
};

// Ten switches, and needs of action 0.
static NEEDS: &[Edit] = edits! {
    0 0 [] 0 0 "switch 9 of 10 on"
    3 1 [0x70180000] 0 0 "switch 9 of 10 off"
    3 1 [0x701003FF] 0 0 "all switches on"
    3 1 [0x701FFC00] 0 0 "all switches off"
    3 1 [0x701FFFFF] 9 3 "all switches on and off"
    3 1 [0x70180200] 9 3 "switch 9 on and off"
    0 1 [0x60000029] 4 3 "switch 9 of 9 on"
    0 4 [0x60000029 0x70100000 0x80800000 0x70180000] 4 3 "switch 9 of 9 off"
    0 4 [0x60000029 0x70100000 0x80800000 0x70100100] 0 0 "switch 8 of 9 on"
    0 4 [0x60000029 0x70100000 0x80800000 0x70140000] 0 0 "switch 8 of 9 off"
    2 1 [0x808003FF] 0 0 "all switches set"
    2 1 [0x808FFC00] 0 0 "all switches cleared"
    2 1 [0x80880200] 9 2 "switch 9 set and cleared"
    0 3 [0x60000029 0x70100000 0x80800200] 4 2 "switch 9 of 9 set"
    0 3 [0x60000029 0x70100000 0x80880000] 4 2 "switch 9 of 9 cleared"
    1 1 [0x70100001] 8 5 "action 0 with switch 0 on"
    1 1 [0x70100200] 8 5 "action 0 with switch 9 on"
    1 1 [0x70100400] 8 5 "action 0 with switch 0 off"
    1 1 [0x70180000] 8 5 "action 0 with switch 9 off"
    1 1 [0x70100801] 8 5 "action 0 with switch 0 on and switch 1 off"
    1 2 [0x70100001 0x80700000] 6 2 "action 0 with a need, and a total of 7"
    1 3 [0x70100001 0x80800000 0x70000000] 4 3 "action 0 with a need, and a later fault"
};

// Eight actions.
static FULL: &[Edit] = edits! {
    0 0 [] 0 0 "8 actions"
    17 0 [0x70100000 0x80800000] 2 17 "a ninth action"
    15 ALL [] 2 15 "7 of 8 actions"
    16 ALL [] 2 16 "the eighth action without its outcome"
    17 0 [0x80800000] 2 17 "a second outcome of the eighth action"
    0 1 [0x60000073] 2 15 "7 actions, and 8 follow"
    15 1 [0x70100801] 0 0 "needs of the eighth action"
    16 1 [0x80700000] 6 16 "a total of 7 in the eighth action"
    1 1 [0x70100001] 8 17 "needs of the first action"
};

// Eight outcomes.
static WIDTHS: &[Edit] = edits! {
    0 0 [] 0 0 "8 outcomes"
    10 0 [0x80100000] 2 10 "a ninth outcome"
    9 ALL [] 2 9 "7 of 8 outcomes"
    1 1 [0x70700000] 6 8 "7 outcomes, and 8 follow"
    9 1 [0x80200000] 6 9 "a total of 9 at the last outcome"
    2 1 [0x80200000] 6 9 "a total of 9 from the first outcome"
    8 2 [0x80800000 0x80100401] 9 9 "a total above 8, and a switch twice"
};

// Ends of files.
static ENDINGS: &[Ending] = endings! {
    6 [0xF0000005] 0 5 6 "the number before"
    6 [0xF0000006] 0 0 0 "the right number"
    6 [0xF0000007] 0 5 6 "the number after"
    6 [0xF0010006] 0 5 6 "the right number and bit 16"
    6 [0xF8000006] 0 5 6 "the right number and bit 27"
    6 [0xF0000006] 1 5 6 "a byte after the end"
    6 [0xF0000006] 3 5 6 "three bytes after the end"
    6 [0xF0000006] 4 5 6 "a word after the end"
    6 [0xF0000006 0x70100000] 0 5 6 "an action after the end"
    0 [0x60000013 0x70100001 0x80800000 0xF0000004] 0 5 3 "action 0 with a need on, and the number after"
    0 [0x60000013 0x70100400 0x80800000 0xF0000002] 0 5 3 "action 0 with a need off, and the number before"
    0 [0x60000013 0x70100001 0x80800000 0xF0000003] 1 5 3 "action 0 with a need, and a byte after the end"
    0 [0x60000013 0x70100001 0x80800000] 0 1 3 "action 0 with a need, and no end"
    4 [0xF0000000] 0 2 4 "a wrong number where an action is due"
    5 [0xF0000000] 0 2 5 "a wrong number where an outcome is due"
    0 [0x70000523] 0 2 0 "a wrong kind, and nothing after it"
    3 [0x80200000] 1 6 3 "a wrong total, and a byte after it"
    2 [0x80500401] 0 9 2 "a switch twice, and nothing after it"
    0 [] 3 1 0 "three bytes of a wrong head"
    4 [] 3 1 4 "three bytes for an action"
    5 [] 1 1 5 "a byte for an outcome"
    6 [] 3 1 6 "three bytes for the end"
    6 [] 4 5 6 "a word of ones for the end"
};

// Unused bits, and the kinds that may come.
static WORDS: [Word; 7] = [
    (0, 18, &[6]),
    (1, 24, &[7]),
    (2, 24, &[8]),
    (3, 24, &[8]),
    (4, 24, &[7]),
    (5, 24, &[8]),
    (6, 28, &[15]),
];

#[test]
fn fields(rt: HostRuntime) -> Result<(), Fail> {
    let heap = rt.alloc();
    let many = Bench::new(heap, Rule, &MANY)?;
    let base = Bench::new(heap, Rule, &BASE)?;
    base.edits(HEADS)?;
    base.edits(ACTIONS)?;
    base.edits(OUTCOMES)?;
    Bench::new(heap, Rule, &TEN)?.edits(NEEDS)?;
    Bench::new(heap, Rule, &EIGHT)?.edits(FULL)?;
    many.edits(WIDTHS)?;
    many.weighings(Eight {
        at: 2,
        first: 0x80000000,
        step: 0,
        low: 20,
    })
}

#[test]
fn bits_and_kinds(rt: HostRuntime) -> Result<(), Fail> {
    Bench::new(rt.alloc(), Rule, &BASE)?.bits_and_kinds(&WORDS)
}

#[test]
fn ends(rt: HostRuntime) -> Result<(), Fail> {
    let heap = rt.alloc();
    let base = Bench::new(heap, Rule, &BASE)?;
    base.endings(ENDINGS)?;
    base.cuts()
}
