// Runs commands on stored books, one to a line of the standard input, and prints what each printed and the status that it ends with.

#![tactic(auto)]

use std::alloc::{AllocError, Global};
use std::fmt::Display;
use std::io;
use std::io::{BufRead, BufReader};

// What a command says aside goes to the output too.
#[derive(Drop)]
struct Aside<'a, R>(&'a R);

impl<R: Print> Eprint for Aside<'_, R> {
    fn eprint<D: Display + Drop>(&self, value: D) -> io::Result<()> {
        self.0.print(value)
    }

    fn eprintln<D: Display + Drop>(&self, value: D) -> io::Result<()> {
        self.0.println(value)
    }
}

fn main(rt: HostRuntime) -> anyhow::Result<()> {
    let heap = rt.alloc();
    for line in BufReader::new(heap, rt.stdin())?.lines(heap) {
        told(&rt, line?.as_str())?;
    }
    Ok(())
}

// A line that is no command is a remark, and is handed on.
fn told(rt: &HostRuntime, line: &str) -> anyhow::Result<()> {
    match line.strip_prefix("$ moratennis") {
        Some(command) => {
            println!(rt; "{line}")?;
            ran(rt, command)
        }
        None => Ok(rt.println(line)?),
    }
}

// `WORDS < NUMBERS`: a command's words, and what it reads, a line for each word.
fn ran(rt: &HostRuntime, command: &str) -> anyhow::Result<()> {
    let heap = rt.alloc();
    let (words, numbers) = command.split_once(" <").unwrap_or((command, ""));
    let words: Vec<String> = words
        .split_whitespace()
        .map(|word| word.to_string(heap))
        .try_collect(heap)?;
    let numbers = lines_of(heap, numbers)?;
    let status = match commands::run(rt, &Aside(rt), words.as_slice(), numbers.as_bytes()) {
        Ok(status) => status,
        Err(error) => {
            println!(rt; "Error: {error:?}")?;
            1
        }
    };
    println!(rt; "status {status}")?;
    Ok(())
}

fn lines_of(heap: Global, words: &str) -> Result<String, AllocError> {
    let mut lines = String::new(heap);
    for word in words.split_whitespace() {
        lines.push_str(word)?;
        lines.push('\n')?;
    }
    Ok(lines)
}
