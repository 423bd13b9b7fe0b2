// Writes the book of a pile to a file.
ghost use Rattle.std.specs.Prelude.{IfOk};
ghost use Rattle.writeout.specs.Tables.{Writable};

use crate::build::{pile, refused};
use crate::options::{Command, Options};
use anyhow::Context;
use pile::Pile;
use slotplan::written_out;
use std::fs;
use std::rt::Files;

pub fn run<R: Files + Print + AllocGlobal>(rt: &R, words: &[String]) -> anyhow::Result<()> {
    let options = Options::parse(rt.alloc(), Command::Write, words)?;
    let to = options.to()?;
    save(rt, &pile(rt, &options)?, to)
}

// Nothing is written where the pile cannot be written out.
fn save<R: Files + Print + AllocGlobal, P: Pile>(rt: &R, pile: &P, to: &str) -> anyhow::Result<()>
    ensures { IfOk result (λ _. Writable (P.SiteModel.meaning pile.now)) }
{
    let book = written_out(rt.alloc(), pile)?.map_err(refused)?;
    fs::write(rt, to, book.bytes.as_slice()).context(format_args!("{to}"))?;
    println!(rt;
        "{to}: a site book of {} states and {} words",
        book.codes.len(),
        book.bytes.len() / 4
    )?;
    Ok(())
}
