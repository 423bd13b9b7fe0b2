// What a site book means as a site model, why such a model is lawful, and the outcomes of its actions.

#![tactic(auto)]

ghost use Rattle.std.specs.Prelude.{◌≡◌, map, take};
ghost use Rattle.bounded.specs.Listed.{listed};
ghost use Rattle.sitemodel.specs.Meaning.{outcome_of};

use model::{Outcome, Outcomes};
use sitelayout::Move;

/// The outcomes of an action, as a model gives them: the first eight, and in a valid book no action has more.
// A loop of `push`: see crate bounded.
pub fn outcomes_of(moves: &[Move]) -> Outcomes
    ensures { listed result ≡ take 8 (map outcome_of moves.now) }
{
    let mut all = Outcomes::new();
    for way in moves {
        let outcome = Outcome {
            target: way.target as u64,
            weight: way.weight,
        };
        if all.push(outcome).is_err() {
            return all;
        }
    }
    all
}
