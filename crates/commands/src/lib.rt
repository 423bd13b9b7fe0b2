// The commands that people give: what each prints, and the status that it ends with.

#![tactic(auto)]

ghost use Rattle.commands.specs.CommandLine.{StatusBy};
ghost use Rattle.std.specs.Prelude.{◌≡◌, IfOk, map, string_bytes};

mod build;
mod builtin;
mod check;
mod options;
mod plan;
mod show;
mod walking;
mod writing;

use std::io::BufRead;
use std::rt::Files;

// The status that a command ends with: it did its work, or what it was given is refused.
const GOOD: u8 = 0;

const REFUSED: u8 = 1;

// Does what the words of a command line ask for. A walk takes its numbers from the reader; how the program is used goes to the second
// runtime, which is the first for most. What is refused ends with status 1: `check` tells it as its answer, and the others as an error.
pub fn run<R: Files + Print + AllocGlobal, E: Eprint, N: BufRead + Drop>(
    rt: &R,
    aside: &E,
    words: &[String],
    numbers: N,
) -> anyhow::Result<u8>
    ensures { IfOk result (StatusBy (map string_bytes words.now)) }
{
    match words {
        [] => {
            builtin::run(rt)?;
            Ok(GOOD)
        }
        [command, kind, file] if command.as_str() == "check" => check::run(
            rt,
            kind.as_str(),
            file.as_str(),
        ),
        [command, options @ ..] if command.as_str() == "write" => {
            writing::run(rt, options)?;
            Ok(GOOD)
        }
        [command, options @ ..] if command.as_str() == "plan" => {
            plan::run(rt, options)?;
            Ok(GOOD)
        }
        [command, options @ ..] if command.as_str() == "walk" => {
            walking::run(rt, options, numbers)?;
            Ok(GOOD)
        }
        _ => usage(aside),
    }
}

fn usage(aside: &impl Eprint) -> anyhow::Result<u8>
    ensures { IfOk result (λ status. status ≡ 1) }
{
    aside.eprintln(
        "usage: moratennis                             the built-in crossing, start to end",
    )?;
    aside.eprintln(
        "       moratennis check site|rule|wish FILE   what a book holds, or why it is refused",
    )?;
    aside.eprintln(
        "       moratennis write GROUND.. --to FILE    writes the site book of all that is reachable",
    )?;
    aside.eprintln(
        "       moratennis plan GROUND.. --horizon N --weighing mean|worst   the best choices for N slots",
    )?;
    aside.eprintln(
        "       moratennis walk GROUND.. [--horizon N] [--weighing mean|worst]   walks by numbers that it reads: a choice, then its outcome",
    )?;
    aside.eprintln(
        "GROUND..: --site FILE or --rule FILE, and the wish books laid on it, --wish FILE, the lowest first",
    )?;
    Ok(REFUSED)
}
