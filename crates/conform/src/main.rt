// Answers commands about books, one to a line: the protocol that outside cases are written in.

#![tactic(auto)]

mod built;
mod failure;
mod kind;
mod lay;
mod lists;
mod numbers;
mod out;
mod plan;
mod walking;

ghost use Rattle.std.specs.Prelude.{◌<◌, IfOk};

use failure::Failure;
use kind::Kind;
use model::SiteModel;
use rulebook::read_rule;
use sitebook::read_site;
use std::alloc::{AllocError, Global};
use std::io::{BufRead, BufReader};
use wishbook::read_wish;

fn main(rt: HostRuntime) -> anyhow::Result<()> {
    run(&rt)
}

// A command that has no answer, since there is no room for it, ends the run.
fn run(rt: &HostRuntime) -> anyhow::Result<()> {
    let heap = rt.alloc();
    for line in BufReader::new(heap, rt.stdin())?.lines(heap) {
        match answer(heap, line?.as_str()) {
            Ok(text) => rt.println(text)?,
            Err(Failure::NoRoom(error)) => return Err(error.into()),
            Err(failure) => println!(rt; "{failure}")?,
        }
    }
    Ok(())
}

// The answer to one command.
fn answer(heap: Global, line: &str) -> Result<String, Failure> {
    let (command, words) = line.split_once(' ').ok_or(Failure::Unknown)?;
    match command {
        "lay" => lay::answer(heap, words),
        "out" => out::answer(heap, words).map_err(answered),
        "plan" => plan::answer(heap, words).map_err(answered),
        "walk" => walking::answer(heap, words).map_err(answered),
        kind => book(heap, kind, words),
    }
}

// A command that writes out, plans or walks is answered, whatever there is no memory for.
fn answered(failure: Failure) -> Failure {
    match failure {
        Failure::NoRoom(_) => Failure::Memory,
        _ => failure,
    }
}

// The words of a command that takes several.
fn words_of(heap: Global, words: &str) -> Result<Vec<&str>, AllocError> {
    words.split(' ').collect(heap)
}

// What a book holds.
fn book(heap: Global, kind: &str, hex: &str) -> Result<String, Failure> {
    let bytes = unhex(heap, hex)?;
    match kind.parse()? {
        Kind::Site => site(heap, bytes.as_slice()),
        Kind::Rule => rule(heap, bytes.as_slice()),
        Kind::Wish => wish(heap, bytes.as_slice()),
    }
}

fn wish(heap: Global, bytes: &[u8]) -> Result<String, Failure> {
    let book = read_wish(bytes)?;
    Ok(format!(in heap;
        "ok {} {} {}",
        book.nodes().len(),
        book.items().len(),
        book.wishes().len()
    )?)
}

fn rule(heap: Global, bytes: &[u8]) -> Result<String, Failure> {
    let book = read_rule(bytes)?;
    let sizes = book.sizes();
    Ok(format!(in heap;
        "ok {} {} {} {}",
        sizes.span,
        sizes.labels,
        sizes.actions,
        book.start()
    )?)
}

fn site(heap: Global, bytes: &[u8]) -> Result<String, Failure> {
    let sizes = read_site(heap, bytes)?.sizes();
    Ok(format!(in heap;
        "ok {} {} {} {}",
        sizes.span, sizes.labels, sizes.actions, sizes.bound
    )?)
}

// The bytes that hexadecimal digits stand for, two digits a byte; `-` is no byte at all.
pub fn unhex(heap: Global, text: &str) -> Result<Vec<u8>, Failure> {
    let mut bytes = Vec::new(heap);
    if text == "-" {
        return Ok(bytes);
    }
    let (pairs, []) = text.as_bytes().as_chunks::<2>() else {
        return Err(Failure::Unknown);
    };
    for [high, low] in pairs {
        bytes.push(16 * digit(*high)? + digit(*low)?)?;
    }
    Ok(bytes)
}

// Only small letters are digits, so the library's reading of hexadecimal, which takes capitals too, does not serve.
fn digit(c: u8) -> Result<u8, Failure>
    ensures { IfOk result (λ d. d < 16) }
{
    match c {
        b'0'..=b'9' => Ok(c - b'0'),
        b'a'..=b'f' => Ok(c - b'a' + 10),
        _ => Err(Failure::Unknown),
    }
}
