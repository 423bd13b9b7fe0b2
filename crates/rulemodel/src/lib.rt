// What a rule book means as a site model, and its answers: whether an action's needs are met, where an outcome lands, and the
// outcomes of an action gathered by where they land.

#![tactic(auto)]

ghost use Rattle.std.specs.Prelude.{◌≡◌, ◌+◌, ◌<◌, ◌≤◌, length, position, ◌==◌};
ghost use Rattle.bounded.specs.Listed.{listed};
ghost use Rattle.model.specs.Models.{total as weights};
ghost use Rattle.rulelayout.specs.Rule.{total};
ghost use Rattle.rulemodel.specs.Meaning.{added, landing, Lands, Gathered, outcomes_from, met_by, Meets};

use model::{Outcome, Outcomes};
use rulelayout::{Effect, total_weight};

/// The state where an outcome lands, a mask with bit k for switch k: its switches to clear go off, then its switches to set go on.
#[tactic(auto, using(crate::proofs::Switches::lands, crate::proofs::Switches::cleared))]
pub fn land(s: u64, effect: Effect) -> u64
    ensures landing { result ≡ landing s effect }
    ensures switches { Lands s effect result }
{
    let clear = effect.clear as u64;
    (s & !clear) | effect.set as u64
}

/// Whether in the state s all switches of the mask `on` are on and all of `off` are off.
pub fn needs_met(s: u64, on: u16, off: u16) -> bool
    ensures met { result ≡ met_by s on off }
    ensures switches { Meets s on off result }
{
    let on = on as u64;
    let off = off as u64;
    s & on == on && s & off == 0
}

// The place of the outcome with this target.
fn place_of(ways: &[Outcome], target: u64) -> Option<usize>
    ensures { result ≡ position (λ way. target == way.target) ways.now }
{
    ways.iter().position(|way| target == way.target)
}

// With one more landing: its weight comes to the outcome with this target, or to a new one at the end.
fn with_landing(mut ways: Outcomes, target: u64, weight: u8) -> Outcomes
    ensures { length (listed ways) < 8 → weights (listed ways) + weight < 256
        → listed result ≡ added (listed ways) target weight }
{
    match place_of(&ways, target) {
        Some(place) => {
            let way = ways[place];
            let weight = way.weight.saturating_add(weight);
            ways.replace(place, Outcome { weight, ..way });
        }
        None => {
            let _ = ways.push(Outcome { target, weight });
        }
    }
    ways
}

/// The outcomes in a state of an action with these effects: those that land alike are one, at the first one's place, with their
/// weights added. More than eight effects, or more than eight eighths, are no action's and have no outcomes.
pub fn outcomes_of(s: u64, effects: &[Effect]) -> Outcomes
    ensures outcomes { listed result ≡ outcomes_from s effects.now }
    ensures gathered { length effects.now ≤ 8 → total effects.now ≤ 8
        → Gathered s effects.now (listed result) }
{
    let mut ways = Outcomes::new();
    if total_weight(effects).is_some_and(|sum| sum <= 8) {
        for effect in effects {
            ways = with_landing(ways, land(s, *effect), effect.weight);
        }
    }
    ways
}
