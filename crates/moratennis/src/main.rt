// Moratennis: slot plans for strain-gauge loggers on railway bridges.

#![tactic(auto)]

use std::env;
use std::io::BufReader;
use std::process::ExitCode;

fn main(rt: HostRuntime) -> anyhow::Result<ExitCode> {
    let heap = rt.alloc();
    let words: Vec<String> = env::args(&rt)?.skip(1).collect(heap)?;
    let numbers = BufReader::new(heap, rt.stdin())?;
    let status = commands::run(&rt, &rt, words.as_slice(), numbers)?;
    Ok(ExitCode::from(status))
}
