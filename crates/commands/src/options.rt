// The options of the commands that build a pile.
ghost use Rattle.commands.specs.Options.{Holds, Takes, option_word, values_of, weighing_word};
ghost use Rattle.std.specs.Prelude.{◌≡◌, ◌≢◌, ◌⊎◌, None, Some, IfOk, IfSome, IsNone, OnErr, OnOk, map, string_bytes, unwrap_or};
ghost use Rattle.std.specs.Str.Parse.{ParsesUnsigned};

use anyhow::{Context, bail};
use slotplan::{SLOTS, WeighBy};
use std::alloc::Global;
use std::fmt;

// The commands that build a pile.
#[derive(Clone, Copy, Debug, PartialEq, Eq)]
pub enum Command {
    Write,
    Plan,
    Walk,
}

impl fmt::Display for Command {
    fn fmt<W: fmt::Write>(&self, f: &mut fmt::Formatter<W>) -> fmt::Result {
        f.write_str(match self {
            Command::Write => "write",
            Command::Plan => "plan",
            Command::Walk => "walk",
        })
    }
}

// What an option names.
#[derive(Clone, Copy, Debug, PartialEq, Eq)]
pub enum Name {
    Site,
    Rule,
    Wish,
    To,
    Horizon,
    Weighing,
}

impl Name {
    // The option that a word is. Books are for all commands; one writes a file, and the others plan.
    fn of(command: Command, word: &str) -> Option<Name>
        ensures { IfSome result (λ name. word.now ≡ option_word name) }
    {
        let writes = command == Command::Write;
        match word {
            "--site" => Some(Name::Site),
            "--rule" => Some(Name::Rule),
            "--wish" => Some(Name::Wish),
            "--to" if writes => Some(Name::To),
            "--horizon" if !writes => Some(Name::Horizon),
            "--weighing" if !writes => Some(Name::Weighing),
            _ => None,
        }
    }
}

// The file of a ground book.
#[derive(Clone, Copy, Debug, PartialEq, Eq)]
pub enum GroundFile<'a> {
    Site(&'a str),
    Rule(&'a str),
}

// How many slots a plan has, and how it weighs the outcomes of a choice.
#[derive(Clone, Copy, Debug, PartialEq, Eq)]
pub struct Asked {
    pub horizon: usize,
    pub weighing: WeighBy,
}

// The files and the numbers that options name; each command asks for those that it needs.
#[derive(Debug, Drop)]
pub struct Options<'a> {
    ground: Option<GroundFile<'a>>,
    wishes: Vec<&'a str>,
    to: Option<&'a str>,
    horizon: Option<usize>,
    weighing: Option<WeighBy>,
}

impl<'a> Options<'a> {
    // Each option is a name and what comes after it, in any order.
    pub fn parse(heap: Global, command: Command, words: &'a [String]) -> anyhow::Result<Options<'a>>
        ensures { IfOk result (Holds (λ name. values_of name (map string_bytes words.now))) }
    {
        let mut options = Options {
            ground: None,
            wishes: Vec::new(heap),
            to: None,
            horizon: None,
            weighing: None,
        };
        let mut rest = words;
        while let Some((word, after)) = rest.split_first() {
            let Some(name) = Name::of(command, word.as_str()) else {
                bail!("{command} does not take {word}");
            };
            let Some((value, others)) = after.split_first() else {
                bail!("nothing comes after {word}");
            };
            options.take(name, value.as_str())?;
            rest = others;
        }
        Ok(options)
    }

    fn take(&mut self, name: Name, value: &'a str) -> anyhow::Result<()>
        ensures { OnOk result (Takes name value.now self.old self.new) }
    {
        match name {
            Name::Site => once(&mut self.ground, GroundFile::Site(value), "ground book"),
            Name::Rule => once(&mut self.ground, GroundFile::Rule(value), "ground book"),
            Name::Wish => {
                self.wishes.push(value)?;
                Ok(())
            }
            Name::To => once(&mut self.to, value, "file to write to"),
            Name::Horizon => once(&mut self.horizon, slots(value)?, "horizon"),
            Name::Weighing => once(&mut self.weighing, weigh_by(value)?, "weighing"),
        }
    }

    pub fn ground(&self) -> anyhow::Result<GroundFile<'a>>
        ensures given { IfOk result (λ file. self.now.ground ≡ Some file) }
        ensures wanted { OnErr result (IsNone self.now.ground) }
    {
        self.ground
            .context("a ground book is wanted: --site FILE or --rule FILE")
    }

    // The lowest comes first.
    pub fn wishes(&self) -> &[&'a str]
        ensures { result.now ≡ self.now.wishes.items }
    {
        self.wishes.as_slice()
    }

    pub fn to(&self) -> anyhow::Result<&'a str>
        ensures given { IfOk result (λ file. self.now.to ≡ Some file) }
        ensures wanted { OnErr result (IsNone self.now.to) }
    {
        self.to.context("a file to write to is wanted: --to FILE")
    }

    // The plan that is asked for; how long it is and how it weighs have to be said.
    pub fn plan(&self) -> anyhow::Result<Asked>
        ensures horizon { IfOk result (λ asked. self.now.horizon ≡ Some asked.horizon) }
        ensures weighing { IfOk result (λ asked. self.now.weighing ≡ Some asked.weighing) }
        ensures wanted { OnErr result (IsNone self.now.horizon ⊎ IsNone self.now.weighing) }
    {
        let horizon = self
            .horizon
            .context("a number of slots is wanted: --horizon N")?;
        let weighing = self.weighing.context(
            "a weighing is wanted: --weighing mean or --weighing worst",
        )?;
        Ok(Asked { horizon, weighing })
    }

    // The plan of a walk: as far as it can go, by chances, where it is not said.
    pub fn walk_plan(&self) -> Asked
        ensures horizon { result.horizon ≡ unwrap_or self.now.horizon 12 }
        ensures weighing { result.weighing ≡ unwrap_or self.now.weighing WeighBy.Mean }
    {
        Asked {
            horizon: self.horizon.unwrap_or(SLOTS),
            weighing: self.weighing.unwrap_or(WeighBy::Mean),
        }
    }
}

// Two values would leave open which is meant.
fn once<T: Drop>(place: &mut Option<T>, value: T, what: &str) -> anyhow::Result<()>
    ensures first { OnOk result (place.old ≡ None) }
    ensures given { OnOk result (place.new ≡ Some value) }
{
    if place.is_some() {
        bail!("only one {what} can be given");
    }
    *place = Some(value);
    Ok(())
}

fn slots(value: &str) -> anyhow::Result<usize>
    ensures { ParsesUnsigned 64 10 value.now result }
{
    value.parse().context(format_args!("a horizon is a number of slots, and {value} is none"))
}

fn weigh_by(value: &str) -> anyhow::Result<WeighBy>
    ensures named { IfOk result (λ weighing. value.now ≡ weighing_word weighing) }
    ensures unknown { OnErr result ((weighing : WeighBy) → value.now ≢ weighing_word weighing) }
{
    match value {
        "mean" => Ok(WeighBy::Mean),
        "worst" => Ok(WeighBy::Worst),
        _ => bail!("a weighing is mean or worst, and {value} is neither"),
    }
}
