// The built-in crossing: a three-state site, and the wish "swept and previous train" worth 10.
use crate::build::unplanned;
use crate::show;
use crate::show::{Advised, Closed, Did, Seen};
use anyhow::{Context, bail};
use crossing::{site_words, wish_words};
use ground::GroundBook;
use model::{SiteModel, reachable_at};
use pile::{Floor, Three, Tower, truthful_start};
use promise::{Journey, Plan, Tables, Walks, plan_and_walk};
use sitebook::{SiteBook, read_site};
use slotplan::Room;
use std::fmt;
use truth::shows;
use walk::{Sight, Step, Walker};
use weighing::Mean;
use wishbook::read_wish;
use words::bytes_of;
use writeout::Written;

// A crossing with two trains on the bridge at once: the second comes on in slot 2, before the first has left. Each step is an action
// and the number of its outcome.
const STEPS: [(u32, usize); 5] = [(0, 1), (0, 0), (1, 0), (0, 0), (0, 0)];

// A walk of two slots: each number chooses, and the next one tells the outcome.
const NUMBERS: [u32; 4] = [0, 1, 1, 0];

const HORIZON: usize = 2;

// A step that is not told yet.
const BLANK: Step = Step {
    refusal: None,
    sight: Sight {
        site: 0,
        slot: 0,
        reward: 0,
        total: 0,
    },
};

// Reads both books, lays the wish on the site, follows a crossing, plans, and walks.
pub fn run<R: Print + AllocGlobal>(rt: &R) -> anyhow::Result<()> {
    let heap = rt.alloc();
    println!(rt; "the built-in crossing: label p0 is \"train\", label p1 is \"swept\"")?;
    let site = site_of(rt, bytes_of(heap, &site_words())?.as_slice())?;
    println!(rt; "site book:")?;
    show::states(rt, &site)?;
    let wish = read_wish(bytes_of(heap, &wish_words())?.as_slice())?;
    println!(rt; "wish book:")?;
    show::wishes(rt, &wish)?;
    let (pile, _) = Three::stack(GroundBook::Site(site), &[Floor::Wishes(wish)]);
    let sizes = pile.sizes();
    println!(rt;
        "the wish laid on the site: {} labels, rewards within {}",
        sizes.labels, sizes.bound
    )?;
    println!(rt; "a crossing with two trains on the bridge at once:")?;
    follow(rt, &pile)?;
    plan_and_follow(rt, &pile)
}

// The built-in book is a good one, but for want of memory: that is told as `check` tells it, and is an error here.
fn site_of<R: Print + AllocGlobal>(rt: &R, bytes: &[u8]) -> anyhow::Result<SiteBook> {
    match read_site(rt.alloc(), bytes) {
        Ok(book) => Ok(book),
        Err(why) => {
            println!(rt; "{why}")?;
            bail!("the book was not read")
        }
    }
}

// Slot by slot: the site's state, what is remembered, and whether the wish holds.
fn follow(rt: &impl Print, pile: &Three<GroundBook>) -> anyhow::Result<()> {
    let mut state = truthful_start(pile);
    slot(rt, pile, 0, state)?;
    for (i, (action, outcome)) in STEPS.into_iter().enumerate() {
        state = reachable_at(pile, state, action, outcome).context(
            "the crossing takes an outcome that there is not",
        )?;
        slot(rt, pile, i + 1, state)?;
    }
    Ok(())
}

// The whole job by one call: writes the pile out, plans on its book, and walks on both.
fn plan_and_follow<R: Print + AllocGlobal>(rt: &R, pile: &Three<GroundBook>) -> anyhow::Result<()> {
    let heap = rt.alloc();
    let mut room = Room::new(heap)?;
    let mut pile_steps = [BLANK; NUMBERS.len()];
    let mut book_steps = [BLANK; NUMBERS.len()];
    let mut tables = Tables {
        codes: room.codes.as_mut_slice(),
        bytes: room.bytes.as_mut_slice(),
        worths: room.worths.as_mut_slice(),
        choices: room.choices.as_mut_slice(),
    };
    let mut walks = Walks {
        on_pile: &mut pile_steps,
        in_book: &mut book_steps,
    };
    let Journey {
        plan,
        on_pile,
        in_book,
    } = plan_and_walk(
        heap,
        pile,
        &Mean,
        HORIZON,
        &NUMBERS,
        &mut tables,
        &mut walks,
    );
    let plan = plan.map_err(unplanned)?;
    written(rt, pile, &plan, room.codes.as_slice())?;
    show::plan(rt, &plan)?;
    println!(rt;
        "a walk of two slots, on the pile and in its book; totals count 256ths of a reward:"
    )?;
    let opened = in_book.is_some_and(|book| book.opening == on_pile.opening);
    opening(rt, &plan, on_pile.opening, opened)?;
    walked(rt, &plan, &pile_steps, &book_steps)?;
    println!(rt;
        "  {} {}",
        Closed(on_pile.closed.then_some(on_pile.last)),
        Same(in_book == Some(on_pile))
    )?;
    Ok(())
}

// The listed states, in the order in which they are found, and how large their book is.
fn written(
    rt: &impl Print,
    pile: &Three<GroundBook>,
    plan: &Plan,
    codes: &[u64],
) -> anyhow::Result<()> {
    let Written { states, words } = plan.written();
    println!(rt; "written out: a site book of {states} states and {words} words")?;
    for (place, code) in codes.iter().take(states).enumerate() {
        let site = pile.ground(*code);
        let reward = pile.reward(*code);
        println!(rt; "  state {place}: code {code}, site state {site}, reward {reward}")?;
    }
    Ok(())
}

// Whether the walk in the book is told the same as that on the pile.
#[derive(Clone, Copy)]
struct Same(bool);

impl fmt::Display for Same {
    fn fmt<W: fmt::Write>(&self, f: &mut fmt::Formatter<W>) -> fmt::Result {
        f.write_str(if self.0 {
            "The same in the book."
        } else {
            "Not so in the book."
        })
    }
}

fn opening(rt: &impl Print, plan: &Plan, sight: Sight, same: bool) -> anyhow::Result<()> {
    let advice = Advised(plan.advice(&Walker::open(plan.book())));
    println!(rt;
        "  The walk is opened. {} {} {advice}",
        Seen(sight),
        Same(same)
    )?;
    Ok(())
}

// What was told of each number on the pile and in the book. A walker beside them stands where the plan is asked for its advice.
fn walked(
    rt: &impl Print,
    plan: &Plan,
    pile_steps: &[Step],
    book_steps: &[Step],
) -> anyhow::Result<()> {
    let mut walker = Walker::open(plan.book());
    for (number, (on_pile, in_book)) in NUMBERS.iter().zip(pile_steps.iter().zip(book_steps)) {
        let told = walker.is_choosing();
        let happened = Did {
            number: *number,
            told,
            refusal: on_pile.refusal,
        };
        walker = walker.turn(plan.book(), *number).walker;
        let seen = Seen(on_pile.sight);
        let same = Same(on_pile == in_book);
        let advice = Advised(plan.advice(&walker));
        println!(rt; "  {happened} {seen} {same} {advice}")?;
    }
    Ok(())
}

fn slot(
    rt: &impl Print,
    pile: &Three<GroundBook>,
    number: usize,
    state: u64,
) -> anyhow::Result<()> {
    let site = pile.ground(state);
    // The wish lies on the lowest floor.
    let memory = pile.below().below().memory_of(state).unwrap_or(0);
    let reward = pile.reward(state);
    let holds = if shows(pile.mask(state), 2) {
        "holds"
    } else {
        "does not hold"
    };
    println!(rt;
        "  slot {number}: site state {site}, memory {memory}, the wish {holds}, reward {reward}"
    )?;
    Ok(())
}
