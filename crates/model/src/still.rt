// The smallest site model: one state with no label, where only waiting is offered.
ghost use Rattle.model.specs.Idle.{idle};
ghost use Rattle.std.proofs.Common.{rules};

use crate::{GroundModel, Numbered, Outcome, Outcomes, SiteModel, Sizes};

#[derive(Clone, Copy, Debug, PartialEq, Eq)]
pub struct Idle;

impl SiteModel for Idle {
    ghost meaning = { λ _. idle };

    ghost lawful = { Prim.search rules };

    fn start(&self) -> u64 {
        0
    }

    fn is_state(&self, s: u64) -> bool {
        s == 0
    }

    fn mask(&self, _s: u64) -> u32 {
        0
    }

    fn reward(&self, _s: u64) -> i32 {
        0
    }

    fn ground(&self, _s: u64) -> u64 {
        0
    }

    fn offers(&self, s: u64, a: u32) -> bool {
        s == 0 && a == 0
    }

    fn outcomes(&self, s: u64, a: u32) -> Outcomes {
        if s == 0 && a == 0 {
            Outcomes::from_slice(&[Outcome {
                target: 0,
                weight: 8,
            }])
        } else {
            Outcomes::new()
        }
    }

    fn sizes(&self) -> Sizes {
        Sizes {
            labels: 0,
            actions: 1,
            bound: 0,
            span: 1,
        }
    }
}

impl GroundModel for Idle {
    ghost based = { Prim.search rules };
}

impl Numbered for Idle {
    ghost numbered = { Prim.search rules };

    fn count(&self) -> usize {
        1
    }
}
