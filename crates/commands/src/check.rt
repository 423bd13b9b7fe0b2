// Says what a book holds, or why it is refused.
ghost use Rattle.commands.specs.Checking.{Tells, TellsFile, kind_word, status_of, status_told};
ghost use Rattle.rulelayout.specs.Layout.{rule_format};
ghost use Rattle.sitelayout.specs.Layout.{site_format};
ghost use Rattle.std.specs.Prelude.{◌≡◌, ◌≢◌, ◌⊎◌, IfOk, OnErr};
ghost use Rattle.wishlayout.specs.Layout.{wish_format};
ghost use Rattle.words.specs.Format.{reading};

use crate::{GOOD, REFUSED, show};
use anyhow::{Context, bail};
use model::Numbered;
use rulebook::read_rule;
use sitebook::read_site;
use std::fmt::Display;
use std::fs;
use std::rt::Files;
use wishbook::{WishBook, read_wish};

// The kinds of books.
#[derive(Clone, Copy, Debug, PartialEq, Eq)]
pub enum Kind {
    Site,
    Rule,
    Wish,
}

pub fn run<R: Files + Print + AllocGlobal>(rt: &R, kind: &str, file: &str) -> anyhow::Result<u8>
    ensures { IfOk result (TellsFile kind.now) }
{
    let bytes = fs::read(rt, file).context(format_args!("{file}"))?;
    let kind = kind_of(kind)?;
    checked(rt, kind, bytes.as_slice())
}

fn kind_of(word: &str) -> anyhow::Result<Kind>
    ensures named { IfOk result (λ kind. word.now ≡ kind_word kind) }
    ensures unknown { OnErr result ((kind : Kind) → word.now ≢ kind_word kind) }
{
    match word {
        "site" => Ok(Kind::Site),
        "rule" => Ok(Kind::Rule),
        "wish" => Ok(Kind::Wish),
        _ => bail!("a book is of kind site, rule or wish"),
    }
}

// What bytes hold as a book of a kind, or why they are refused.
fn checked<R: Print + AllocGlobal>(rt: &R, kind: Kind, bytes: &[u8]) -> anyhow::Result<u8>
    ensures { IfOk result (Tells kind bytes.now) }
{
    match kind {
        Kind::Site => site(rt, bytes),
        Kind::Rule => rule(rt, bytes),
        Kind::Wish => wish(rt, bytes),
    }
}

// Says what a book that was read holds, or why it is refused; the status says which.
fn told<B: Drop, E: Display + Drop, F: FnOnce(&B) -> anyhow::Result<()>>(
    rt: &impl Print,
    read: Result<B, E>,
    show: F,
) -> anyhow::Result<u8>
    requires { F.IsAlwaysCallable show }
    ensures { IfOk result (λ status. status ≡ status_told read) }
{
    match read {
        Ok(book) => {
            show(&book)?;
            Ok(GOOD)
        }
        Err(why) => {
            println!(rt; "{why}")?;
            Ok(REFUSED)
        }
    }
}

// Each of the three answers for a format of its own, which its contract names.

// Want of memory may refuse a good site book; a bad one never ends with 0.
fn site<R: Print + AllocGlobal>(rt: &R, bytes: &[u8]) -> anyhow::Result<u8>
    ensures { IfOk result
        (λ status. (status ≡ status_of (reading site_format bytes.now)) ⊎ (status ≡ 1)) }
{
    told(rt, read_site(rt.alloc(), bytes), |book| {
        sizes(rt, "site", book)
    })
}

fn rule(rt: &impl Print, bytes: &[u8]) -> anyhow::Result<u8>
    ensures { IfOk result (λ status. status ≡ status_of (reading rule_format bytes.now)) }
{
    told(rt, read_rule(bytes), |book| sizes(rt, "rule", book))
}

fn wish<R: Print + AllocGlobal>(rt: &R, bytes: &[u8]) -> anyhow::Result<u8>
    ensures { IfOk result (λ status. status ≡ status_of (reading wish_format bytes.now)) }
{
    told(rt, read_wish(bytes), |book| wishes(rt, book))
}

// The sizes of a model.
fn sizes<M: Numbered>(rt: &impl Print, kind: &str, model: &M) -> anyhow::Result<()> {
    let sizes = model.sizes();
    println!(rt;
        "{kind} book: {} states, {} labels, {} actions, rewards within {}, start {}",
        sizes.span,
        sizes.labels,
        sizes.actions,
        sizes.bound,
        model.start()
    )?;
    Ok(())
}

// How much a wish book holds, and its wishes.
fn wishes<R: Print + AllocGlobal>(rt: &R, book: &WishBook) -> anyhow::Result<()> {
    println!(rt;
        "wish book: {} nodes, {} memory items, {} wishes",
        book.nodes().len(),
        book.items().len(),
        book.wishes().len()
    )?;
    show::wishes(rt, book)
}
