// Walking along a pile, and along the book that is written out of it.
use crate::built::build;
use crate::failure::Failure;
use crate::numbers::number;
use crate::plan::planned;
use crate::words_of;
use model::SiteModel;
use pile::Pile;
use promise::Plan;
use refusal::Refusal;
use slotplan::STATES;
use std::alloc::Global;
use std::fmt;
use std::str::FromStr;
use walk::{Sight, Turned, Walker};
use weighing::Worst;

// A call of a walk, with an action or with an outcome's number.
#[derive(Clone, Copy, Debug, PartialEq, Eq)]
enum Call {
    Choose(u32),
    Tell(u32),
}

impl FromStr for Call {
    type Err = Failure;

    fn from_str(word: &str) -> Result<Call, Failure> {
        let (kind, digits) = word.split_at_checked(1).ok_or(Failure::Unknown)?;
        match kind {
            "c" => Ok(Call::Choose(number(digits)?)),
            "t" => Ok(Call::Tell(number(digits)?)),
            _ => Err(Failure::Unknown),
        }
    }
}

// What a call did. A choice while one is open, or a telling with none open, is misuse and does nothing.
#[derive(Clone, Copy, Debug, PartialEq, Eq)]
enum Status {
    Done,
    Refused(Refusal),
    Misuse,
}

impl fmt::Display for Status {
    fn fmt<W: fmt::Write>(&self, f: &mut fmt::Formatter<W>) -> fmt::Result {
        match self {
            Status::Done => f.write_str("ok"),
            Status::Refused(refusal) => write!(f, "{}", refusal.number()),
            Status::Misuse => f.write_str("misuse"),
        }
    }
}

// A status, and what the walk has.
#[derive(Clone, Copy, Debug, PartialEq, Eq)]
struct Step {
    status: Status,
    sight: Sight,
}

impl fmt::Display for Step {
    fn fmt<W: fmt::Write>(&self, f: &mut fmt::Formatter<W>) -> fmt::Result {
        let Sight {
            site,
            slot,
            reward,
            total,
        } = self.sight;
        write!(f, "{}:{site}:{slot}:{reward}:{total}", self.status)
    }
}

impl Call {
    fn on<M: SiteModel>(self, model: &M, walker: Walker) -> (Status, Walker) {
        let Turned { refusal, walker } = match (self, walker.is_choosing()) {
            (Call::Choose(action), false) => walker.choose(model, action),
            (Call::Tell(outcome), true) => walker.tell(model, outcome),
            _ => return (Status::Misuse, walker),
        };
        (refusal.map_or(Status::Done, Status::Refused), walker)
    }
}

// `KIND HEX CALLS HEX ..`: a ground model, calls as `c0,t1` or `-`, and wish books to be laid on it.
pub fn answer(heap: Global, words: &str) -> Result<String, Failure> {
    let words = words_of(heap, words)?;
    let [kind, hex, calls, wishes @ ..] = words.as_slice() else {
        return Err(Failure::Unknown);
    };
    let calls = calls_of(heap, calls)?;
    let pile = build(heap, kind, hex, wishes)?.pile;
    let on_pile = walked(heap, &pile, calls.as_slice())?;
    match empty_plan(heap, &pile) {
        Ok(plan) => {
            let in_book = walked(heap, plan.book(), calls.as_slice())?;
            Ok(format!(in heap; "{on_pile} | {in_book}")?)
        }
        Err(Failure::Unwritable) => Ok(format!(in heap; "{on_pile} | {}", Failure::Unwritable)?),
        Err(failure) => Err(failure),
    }
}

fn calls_of(heap: Global, words: &str) -> Result<Vec<Call>, Failure> {
    let mut calls = Vec::new(heap);
    if words == "-" {
        return Ok(calls);
    }
    for word in words.split(',') {
        calls.push(word.parse()?)?;
    }
    Ok(calls)
}

// A plan of no slots, for the book of a pile as it reads back.
fn empty_plan<P: Pile>(heap: Global, pile: &P) -> Result<Plan, Failure> {
    let mut worths = vec![in heap; 0; STATES]?;
    planned(heap, pile, &Worst, 0, worths.as_mut_slice(), &mut [])
}

// What the walk has after its opening, and after each call.
fn walked<M: SiteModel>(heap: Global, model: &M, calls: &[Call]) -> Result<String, Failure> {
    let mut walker = Walker::open(model);
    let opened = Step {
        status: Status::Done,
        sight: walker.sight(model),
    };
    let mut text = format!(in heap; "{opened}")?;
    for call in calls {
        let (status, next) = call.on(model, walker);
        let sight = next.sight(model);
        write!(text, " {}", Step { status, sight })?;
        walker = next;
    }
    Ok(text)
}
