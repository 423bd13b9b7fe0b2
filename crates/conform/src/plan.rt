// Planning on the book that is written out of a pile.
use crate::built::build;
use crate::failure::Failure;
use crate::lists::Numbers;
use crate::numbers::{number, places};
use crate::out::BEFORE;
use crate::words_of;
use pile::Pile;
use promise::{Plan, Tables, plan_pile};
use slotplan::{STATES, WORDS};
use std::alloc::Global;
use weighing::{Mean, Weighing, Worst};

// `KIND HEX HORIZON mean|worst WORTHS CHOICES HEX ..`: a ground model, how many slots are left, how an action's outcomes are joined, how
// long the two tables are, and wish books to be laid on it.
pub fn answer(heap: Global, words: &str) -> Result<String, Failure> {
    let words = words_of(heap, words)?;
    let [kind, hex, horizon, weighing, worths, choices, wishes @ ..] = words.as_slice() else {
        return Err(Failure::Unknown);
    };
    let horizon = number(horizon)? as usize;
    let (worths, choices) = (places(worths)?, places(choices)?);
    let pile = build(heap, kind, hex, wishes)?.pile;
    let mut worths = vec![in heap; BEFORE as i64; worths]?;
    let mut choices = vec![in heap; BEFORE; choices]?;
    let (all, best) = (worths.as_mut_slice(), choices.as_mut_slice());
    let planned = match *weighing {
        "mean" => planned(heap, &pile, &Mean, horizon, all, best)?,
        "worst" => planned(heap, &pile, &Worst, horizon, all, best)?,
        _ => return Err(Failure::Unknown),
    };
    let worths = listed(worths.as_slice());
    let choices = listed(choices.as_slice());
    Ok(format!(in heap; "ok {} {worths} | {choices}", planned.worth())?)
}

// A table; nothing stands for an empty one.
fn listed<T>(all: &[T]) -> Numbers<'_, T> {
    Numbers { all, none: "" }
}

// The plan of a pile, with tables that hold the largest book.
pub fn planned<P: Pile, W: Weighing>(
    heap: Global,
    pile: &P,
    weighing: &W,
    horizon: usize,
    worths: &mut [i64],
    choices: &mut [u8],
) -> Result<Plan, Failure> {
    let mut codes = vec![in heap; 0; STATES]?;
    let mut bytes = vec![in heap; 0; 4 * WORDS]?;
    let mut tables = Tables {
        codes: codes.as_mut_slice(),
        bytes: bytes.as_mut_slice(),
        worths,
        choices,
    };
    Ok(plan_pile(heap, pile, weighing, horizon, &mut tables)?)
}
