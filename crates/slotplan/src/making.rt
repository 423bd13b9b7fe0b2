// Planning in tables that hold the largest plan.
ghost use Rattle.slotplan.specs.Planning.{PlansOr, Surveyed, weigh_of};
ghost use Rattle.std.specs.Prelude.{◌≡◌, IfOk, length};

use crate::WeighBy;
use crate::written::{STATES, WORDS, check_states};
use pile::Pile;
use promise::{Plan, Tables, Unplanned, plan_pile};
use refusal::Refusal;
use std::alloc::{AllocError, Global};
use weighing::{Mean, Weighing, Worst};

/// How many slots a plan has at most.
pub const SLOTS: usize = 12;

/// Tables of full size: codes, bytes, worths and choices.
#[derive(Drop)]
pub struct Room {
    pub codes: Vec<u64>,
    pub bytes: Vec<u8>,
    pub worths: Vec<i64>,
    pub choices: Vec<u8>,
}

impl Room {
    pub fn new(heap: Global) -> Result<Room, AllocError>
        ensures codes { IfOk result (λ r. length r.codes.items ≡ 4096) }
        ensures bytes { IfOk result (λ r. length r.bytes.items ≡ 1212424) }
        ensures worths { IfOk result (λ r. length r.worths.items ≡ 53248) }
        ensures choices { IfOk result (λ r. length r.choices.items ≡ 49152) }
    {
        Ok(Room {
            codes: vec![in heap; 0u64; STATES]?,
            bytes: vec![in heap; 0u8; 4 * WORDS]?,
            worths: vec![in heap; 0i64; (SLOTS + 1) * STATES]?,
            choices: vec![in heap; 0u8; SLOTS * STATES]?,
        })
    }
}

// Whether a plan can be made, before anything is allocated: too many states, and then too long a horizon.
fn survey<P: Pile>(pile: &P, horizon: usize) -> Result<(), Refusal>
    ensures { Surveyed (P.SiteModel.meaning pile.now) horizon result }
{
    check_states(pile)?;
    if horizon > SLOTS {
        return Err(Refusal::HorizonTooLong);
    }
    Ok(())
}

// Plans on the book of a pile.
fn planned<P: Pile, W: Weighing>(
    heap: Global,
    pile: &P,
    weighing: &W,
    horizon: usize,
) -> Result<Plan, Unplanned>
    ensures { PlansOr (W.meaning weighing.now) (P.Pile.piling pile.now) horizon result }
{
    survey(pile, horizon)?;
    let mut room = Room::new(heap)?;
    let mut tables = Tables {
        codes: room.codes.as_mut_slice(),
        bytes: room.bytes.as_mut_slice(),
        worths: room.worths.as_mut_slice(),
        choices: room.choices.as_mut_slice(),
    };
    plan_pile(heap, pile, weighing, horizon, &mut tables)
}

/// Plans on the book of a pile under the weighing that is asked for.
pub fn plan_by<P: Pile>(
    heap: Global,
    pile: &P,
    weighing: WeighBy,
    horizon: usize,
) -> Result<Plan, Unplanned>
    ensures plan { PlansOr (weigh_of weighing) (P.Pile.piling pile.now) horizon result }
    ensures meaning { P.SiteModel.meaning pile.now ≡ (P.Pile.piling pile.now).model }
{
    match weighing {
        WeighBy::Mean => planned(heap, pile, &Mean, horizon),
        WeighBy::Worst => planned(heap, pile, &Worst, horizon),
    }
}
