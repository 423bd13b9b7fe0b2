// Walks on the written-out book of a pile, by numbers that are read.
use crate::build;
use crate::options::{Command, Options};
use crate::show::{Advised, Closed, Did, Seen};
use promise::Plan;
use std::fmt::Display;
use std::io::BufRead;
use std::rt::Files;
use walk::{Turned, Walker};

pub fn run<R: Files + Print + AllocGlobal>(
    rt: &R,
    words: &[String],
    numbers: impl BufRead + Drop,
) -> anyhow::Result<()> {
    let heap = rt.alloc();
    let options = Options::parse(heap, Command::Walk, words)?;
    let plan = build::plan(heap, &build::pile(rt, &options)?, options.walk_plan())?;
    println!(rt;
        "A number chooses an action, and the next one tells its outcome. Totals count 256ths of a reward."
    )?;
    walk(rt, &plan, numbers)
}

// From the start to the end of the numbers.
fn walk<R: Print + AllocGlobal>(
    rt: &R,
    plan: &Plan,
    numbers: impl BufRead + Drop,
) -> anyhow::Result<()> {
    let mut walker = Walker::open(plan.book());
    stands(rt, plan, &walker, "The walk is opened.")?;
    for line in numbers.lines(rt.alloc()) {
        walker = answer(rt, plan, walker, line?.as_str())?;
    }
    close(rt, plan, walker)
}

// What a line does to the walk: one that is no number does nothing.
fn answer(rt: &impl Print, plan: &Plan, walker: Walker, line: &str) -> anyhow::Result<Walker> {
    let Ok(number) = line.trim().parse::<u32>() else {
        println!(rt; "{line:?} is no number, and is skipped.")?;
        return Ok(walker);
    };
    let told = walker.is_choosing();
    let Turned { refusal, walker } = walker.turn(plan.book(), number);
    stands(
        rt,
        plan,
        &walker,
        Did {
            number,
            told,
            refusal,
        },
    )?;
    Ok(walker)
}

// What happened, what the walk has after it, and what the plan advises then.
fn stands(
    rt: &impl Print,
    plan: &Plan,
    walker: &Walker,
    happened: impl Display + Drop,
) -> anyhow::Result<()> {
    let seen = Seen(walker.sight(plan.book()));
    let advice = Advised(plan.advice(walker));
    println!(rt; "{happened} {seen} {advice}")?;
    Ok(())
}

// Ends the walk where it can end.
fn close(rt: &impl Print, plan: &Plan, walker: Walker) -> anyhow::Result<()> {
    println!(rt; "{}", Closed(walker.end(plan.book()).ok()))?;
    Ok(())
}
