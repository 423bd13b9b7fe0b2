// How long the heavy work takes on a book of full size.

#![tactic(auto)]

mod book;
mod clock;
mod slots;

ghost use Rattle.std.specs.Prelude.{◌≡◌, IfOk};
ghost use Rattle.std.specs.Process.{exit_status};

use anyhow::ensure;
use book::{STATES, full_size};
use clock::{Millis, ROUNDS, best};
use sitebook::read_site;
use slots::planning;
use std::env;
use std::process::ExitCode;
use weighing::{Mean, Worst};
use writeout::write_out;

fn main(rt: HostRuntime) -> anyhow::Result<ExitCode> {
    let words: Vec<String> = env::args(&rt)?.skip(1).collect(rt.alloc())?;
    match words.as_slice() {
        [] => {
            rt.println(USAGE)?;
            Ok(ExitCode::SUCCESS)
        }
        [command] if command.as_str() == "run" => {
            run(&rt)?;
            Ok(ExitCode::SUCCESS)
        }
        _ => usage(&rt),
    }
}

const USAGE: &str =
    "usage: bench run   best times of reading, writing out and planning a full-size book";

fn usage(rt: &HostRuntime) -> anyhow::Result<ExitCode>
    ensures { IfOk result (λ code. exit_status code ≡ 1) }
{
    rt.eprintln(USAGE)?;
    Ok(ExitCode::FAILURE)
}

// Reads the book, writes it out and plans on it.
fn run(rt: &HostRuntime) -> anyhow::Result<()> {
    let heap = rt.alloc();
    let file = full_size(heap)?;
    let size = file.len();
    println!(rt;
        "a site book of {STATES} states and {} words, best of {ROUNDS} rounds:",
        size / 4
    )?;
    let reading = best(rt, || {
        read_site(heap, file.as_slice())?;
        Ok(())
    })?;
    println!(rt; "  reading      {} ms", Millis(reading))?;
    let book = read_site(heap, file.as_slice())?;
    let mut codes = vec![in heap; 0u64; STATES as usize]?;
    let mut bytes = vec![in heap; 0u8; size]?;
    let writing = best(rt, || {
        let written = write_out(&book, codes.as_mut_slice(), bytes.as_mut_slice())?;
        ensure!(
            written.states == STATES as usize,
            "not all states are reachable"
        );
        Ok(())
    })?;
    println!(rt; "  writing out  {} ms", Millis(writing))?;
    println!(rt; "  mean plan    {} ms", Millis(planning(rt, &book, &Mean)?))?;
    println!(rt;
        "  worst plan   {} ms",
        Millis(planning(rt, &book, &Worst)?)
    )?;
    Ok(())
}
