// Searching a model from its start: exactly the reachable states, each once, in the order of the search.

#![tactic(auto)]

ghost use Rattle.bounded.specs.Listed.{listed};
ghost use Rattle.model.specs.Histories.{targets_of};
ghost use Rattle.reach.specs.Adding.{AddsCodes, room_in};
ghost use Rattle.reach.specs.Reached.{Searched};
ghost use Rattle.reach.specs.Search.{leads_to};
ghost use Rattle.register.specs.Register.{keys_of};
ghost use Rattle.std.specs.Prelude.{◌≡◌, ◌≤◌, [], ◌∷◌, length, drop};

use model::{Outcomes, SiteModel};
use refusal::Refusal;
use register::Register;

// How many states a book holds at most.
const MOST: usize = 4096;

/// Lists the reachable states in the register, in the order of the search: docs/FORMATS.md,
/// "Writing out". What the register held before is dropped.
///
/// # Errors
/// `TooManyStates` where there are more than the register's table or a book (4,096) holds. The
/// register then lists some codes, at most 4,096, and the table is as it was after them.
pub fn search<M: SiteModel>(m: &M, codes: &mut Register<u64>) -> Result<(), Refusal>
    ensures answer { Searched (M.SiteModel.meaning m.now) (room_in (length codes.old.keys.now))
        (keys_of codes.new) result }
    ensures few { codes.new.len ≤ 4096 }
    ensures rest { drop codes.new.len codes.new.keys.now ≡ drop codes.new.len codes.old.keys.now }
    ensures room { length codes.new.keys.now ≡ length codes.old.keys.now }
    ensures lent { codes.new.keys.ghost_name ≡ codes.old.keys.ghost_name }
{
    codes.clear();
    list(codes, m.start())?;
    // The list grows while it is gone through, so no iterator can lend it.
    let mut place = 0;
    while let Some(state) = codes.get(place) {
        add_targets(m, state, codes)?;
        place += 1;
    }
    Ok(())
}

// Adds the unlisted targets of a state, actions rising.
fn add_targets<M: SiteModel>(m: &M, state: u64, codes: &mut Register<u64>) -> Result<(), Refusal>
    ensures { AddsCodes (leads_to (M.SiteModel.meaning m.now) state) codes.old codes.new result }
{
    for action in 0..m.actions() {
        add_outcomes(&m.outcomes(state, action), codes)?;
    }
    Ok(())
}

// Adds the unlisted targets of an action's outcomes, in order.
fn add_outcomes(outcomes: &Outcomes, codes: &mut Register<u64>) -> Result<(), Refusal>
    ensures { AddsCodes (targets_of (listed outcomes.now)) codes.old codes.new result }
{
    for way in outcomes.as_slice() {
        list(codes, way.target)?;
    }
    Ok(())
}

// Adds one state, unless it is listed. Where a book's worth are listed it only looks for the state:
// what lies in the table past them is the caller's.
fn list(codes: &mut Register<u64>, code: u64) -> Result<(), Refusal>
    ensures { AddsCodes (code ∷ []) codes.old codes.new result }
{
    let place = if codes.len() < MOST {
        codes.enter(code)
    } else {
        codes.place(&code)
    };
    match place {
        Some(_) => Ok(()),
        None => Err(Refusal::TooManyStates),
    }
}
