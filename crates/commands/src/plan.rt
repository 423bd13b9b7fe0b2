// Prints the plan of a pile.
use crate::options::{Command, Options};
use crate::{build, show};
use std::rt::Files;

pub fn run<R: Files + Print + AllocGlobal>(rt: &R, words: &[String]) -> anyhow::Result<()> {
    let heap = rt.alloc();
    let options = Options::parse(heap, Command::Plan, words)?;
    let asked = options.plan()?;
    let plan = build::plan(heap, &build::pile(rt, &options)?, asked)?;
    show::plan(rt, &plan)
}
