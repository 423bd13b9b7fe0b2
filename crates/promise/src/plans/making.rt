// Making a plan: the one way to have one.
ghost use Rattle.std.specs.Prelude.{◌≡◌, ◌+◌, ◌*◌, ◌≤◌, IfErr, IfOk, length, OnOk, replicate, take};
ghost use Rattle.planning.specs.Choices.{ChoosesLowest, NothingHeld};
ghost use Rattle.planning.specs.Plans.{answer_of, choice_at, Left, NobodyBetter, worth_at};
ghost use Rattle.promise.specs.Causes.{OutOfMemory};
ghost use Rattle.promise.specs.Corresponding.{book_model};
ghost use Rattle.promise.specs.Planning.{NobodyEarnsMore, PlanEarns, PlansAs, ReadyAs, TablesLeft, TablesStay};
ghost use Rattle.promise.specs.Promises.{Promises};
ghost use Rattle.promise.specs.WholePlan.{IsPlanOf};
ghost use Rattle.reach.specs.Search.{codes_of};
ghost use Rattle.sitebook.specs.Contents.{contents};
ghost use Rattle.sitelayout.specs.Layout.{site_format, site_words};
ghost use Rattle.sitelayout.specs.Site.{Site};
ghost use Rattle.words.specs.Format.{file, got, reading};
ghost use Rattle.writeout.specs.Tables.{out_book, outcome, table_after};

use crate::causes::Unplanned;
use crate::plans::{Plan, Tables};
use crate::writing::write_pile;
use model::Numbered;
use outbook::OriginBook;
use pile::Pile;
use planning::{check_sizes, plan};
use refusal::Refusal;
use sitebook::read_site;
use std::alloc::Global;
use weighing::Weighing;
use writeout::Written;

// The book in the first bytes of a table, which are one: only memory may be wanting.
fn read_back(heap: Global, bytes: &[u8], words: usize) -> Result<OriginBook, Unplanned>
    requires room { 4 * words ≤ length bytes.now }
    requires whole { (b : Site) × (reading site_format (take (4 * words) bytes.now) ≡ got b) }
    ensures book { IfOk result
        (λ k. reading site_format (take (4 * words) bytes.now) ≡ got (contents k.book)) }
    ensures memory { IfErr result OutOfMemory }
{
    let book = read_site(heap, &bytes[..4 * words])?;
    Ok(OriginBook::new(book))
}

// So many zeros.
fn zeros(heap: Global, count: usize) -> Result<Vec<u8>, Unplanned>
    ensures items { IfOk result (λ v. v.items ≡ replicate count 0) }
    ensures memory { IfErr result OutOfMemory }
{
    Ok(vec![in heap; 0u8; count]?)
}

// Plans on a book, and keeps the choices: as many as there is room for.
fn fill<M: Numbered, W: Weighing>(
    book: &M,
    weighing: &W,
    horizon: usize,
    worths: &mut [i64],
    choices: &mut [u8],
    kept: &mut Vec<u8>,
) -> Result<i64, Refusal>
    requires { length kept.old.items ≤ length choices.old }
    ensures answer { result ≡ answer_of (W.meaning weighing.now) (M.SiteModel.meaning book.now)
        horizon (length worths.old) (length choices.old) }
    ensures worths { Left result
        (worth_at (W.meaning weighing.now) (M.SiteModel.meaning book.now) horizon)
        ((horizon + 1) * (M.SiteModel.meaning book.now).span) worths.old worths.new }
    ensures choices { Left result
        (choice_at (W.meaning weighing.now) (M.SiteModel.meaning book.now) horizon)
        (horizon * (M.SiteModel.meaning book.now).span) choices.old choices.new }
    ensures nobody { NobodyBetter (W.meaning weighing.now) (M.SiteModel.meaning book.now) horizon
        choices.new result }
    ensures chooses { OnOk result
        (ChoosesLowest (W.meaning weighing.now) (M.SiteModel.meaning book.now) horizon worths.new
        choices.new) }
    ensures free { OnOk result
        (NothingHeld (W.meaning weighing.now) (M.SiteModel.meaning book.now) horizon worths.new) }
    ensures kept { OnOk result (kept.new.items ≡ take (length kept.old.items) choices.new) }
{
    let worth = plan(book, weighing, horizon, worths, &mut *choices)?;
    let places = kept.len();
    kept.as_mut_slice().copy_from_slice(&choices[..places]);
    Ok(worth)
}

// What a plan needs, before it is made: the pile's book as it reads back, and room for the choices.
#[derive(Drop)]
struct Ready {
    written: Written,
    book: OriginBook,
    choices: Vec<u8>,
}

// Writes the pile out, and reads the book back. Every refusal of writing out and of planning, over tables of so many worths and choices,
// is found before anything is allocated.
fn prepare<P: Pile>(
    heap: Global,
    pile: &P,
    horizon: usize,
    codes: &mut [u64],
    bytes: &mut [u8],
    worths: usize,
    choices: usize,
) -> Result<Ready, Unplanned>
    ensures answer { ReadyAs (P.SiteModel.meaning pile.now) horizon (length codes.old)
        (length bytes.old) worths choices result }
    ensures room { IfOk result (λ r. r.choices.items ≡ replicate (horizon * r.written.states) 0) }
    ensures codes { codes.new ≡ table_after
        (outcome (P.SiteModel.meaning pile.now) (length codes.old) (length bytes.old))
        (length codes.old) (codes_of (P.SiteModel.meaning pile.now)) }
    ensures bytes { bytes.new ≡ table_after
        (outcome (P.SiteModel.meaning pile.now) (length codes.old) (length bytes.old))
        (length bytes.old) (file (site_words (out_book (P.SiteModel.meaning pile.now)))) }
    ensures pile { Promises (P.SiteModel.meaning pile.now) (P.Pile.piling pile.now) }
{
    let written = write_pile(pile, codes, &mut *bytes)?;
    check_sizes(written.states, horizon, worths, choices)?;
    let book = read_back(heap, &*bytes, written.words)?;
    let choices = zeros(heap, horizon * written.states)?;
    Ok(Ready {
        written,
        book,
        choices,
    })
}

/// Writes the pile out, reads the book back, and plans on it. Every refusal is found before anything is allocated.
pub fn plan_pile<P: Pile, W: Weighing>(
    heap: Global,
    pile: &P,
    weighing: &W,
    horizon: usize,
    tables: &mut Tables,
) -> Result<Plan, Unplanned>
    ensures answer { PlansAs (W.meaning weighing.now) (P.SiteModel.meaning pile.now) horizon
        tables.old result }
    ensures tables { TablesLeft (W.meaning weighing.now) (P.SiteModel.meaning pile.now) horizon
        result tables.old tables.new }
    ensures lent { TablesStay tables.old tables.new }
    ensures plan { IfOk result
        (IsPlanOf (W.meaning weighing.now) (P.Pile.piling pile.now) horizon) }
    ensures chooses { OnOk result
        (ChoosesLowest (W.meaning weighing.now) (book_model (P.SiteModel.meaning pile.now)) horizon
        tables.new.worths.now tables.new.choices.now) }
    ensures free { OnOk result
        (NothingHeld (W.meaning weighing.now) (book_model (P.SiteModel.meaning pile.now)) horizon
        tables.new.worths.now) }
    ensures earns { PlanEarns (W.meaning weighing.now) (P.Pile.piling pile.now) horizon tables.new
        result }
    ensures nobody { NobodyEarnsMore (W.meaning weighing.now) (P.Pile.piling pile.now) horizon
        result }
    ensures pile { Promises (P.SiteModel.meaning pile.now) (P.Pile.piling pile.now) }
{
    let (worths, choices) = (tables.worths.len(), tables.choices.len());
    let Ready {
        written,
        book,
        choices: mut kept,
    } = prepare(
        heap,
        pile,
        horizon,
        &mut *tables.codes,
        &mut *tables.bytes,
        worths,
        choices,
    )?;
    let worth = fill(
        &book,
        weighing,
        horizon,
        &mut *tables.worths,
        &mut *tables.choices,
        &mut kept,
    )?;
    Ok(Plan {
        written,
        book,
        worth,
        horizon,
        unit: weighing.unit(),
        choices: kept,
    })
}
