// A rule book: every value of it is valid. As a ground model its states are the masks of its switches.
ghost use Rattle.std.specs.Prelude.{IsTrue};
ghost use Rattle.bounded.specs.Listed.{listed};
ghost use Rattle.rulelayout.specs.Rule.{valid};
ghost use Rattle.rulebook.specs.Acts.{rule_from};

use crate::action::Action;
use bounded::Bounded;
use model::{GroundModel, Numbered, Outcomes, SiteModel, Sizes};
use rulemodel::{needs_met, outcomes_of};

/// A valid rule book: one to ten switches, and one to eight actions of one to eight outcomes. A mask has bit k for switch k.
#[derive(Clone, Copy)]
pub struct RuleBook {
    pub(crate) switches: u8,
    pub(crate) start: u16,
    pub(crate) acts: Bounded<Action, 8>,
    ghost sound: { IsTrue (valid (rule_from switches start (listed acts))) },
}

impl RuleBook {
    ghost use Rattle.std.specs.Prelude.{◌≡◌, ◌^◌, ◌<◌, ◌≤◌, IsFalse, if◌then◌else◌, MatchOption};
    ghost use Rattle.rulemodel.specs.Meaning.{act_at, is_switch_mask, offers};
    ghost use Rattle.rulebook.specs.Acts.{act_from};
    ghost use Rattle.rulebook.specs.Contents.{contents};

    // How many states there are.
    fn states(&self) -> u64
        ensures count { result ≡ 2 ^ self.now.switches }
        ensures small { result ≤ 1024 }
    {
        1 << self.switches as u32
    }

    // The switches that are on in a state: its number. In none, where there is no such state.
    fn switches_on(&self, s: u64) -> u64
        ensures on { result ≡ (if is_switch_mask (contents self.now) s then s else 0) }
        ensures small { result < 1024 }
    {
        if s < self.states() { s } else { 0 }
    }

    // The action, where it is offered in the state.
    fn offered(&self, s: u64, a: u32) -> Option<&Action>
        ensures { let offered = offers (contents self.now) s a in
            MatchOption result (IsFalse offered)
            (λ x. IsTrue offered × (act_at (contents self.now) a ≡ act_from x.now)) }
    {
        let action = self.acts.as_slice().get(a as usize)?;
        (s < self.states() && needs_met(s, action.on, action.off)).then_some(action)
    }
}

impl SiteModel for RuleBook {
    ghost use Rattle.rulebook.specs.Contents.{contents};
    ghost use Rattle.rulemodel.specs.Meaning.{rule_model};
    ghost use Rattle.rulemodel.proofs.RuleLaws.{rule_lawful};

    ghost meaning = { λ b. rule_model (contents b) };

    ghost lawful = { λ book. rule_lawful (contents book) book.sound };

    fn start(&self) -> u64 {
        self.start as u64
    }

    fn is_state(&self, s: u64) -> bool {
        s < self.states()
    }

    fn mask(&self, s: u64) -> u32 {
        self.switches_on(s) as u32
    }

    fn reward(&self, _s: u64) -> i32 {
        0
    }

    fn ground(&self, s: u64) -> u64 {
        self.switches_on(s)
    }

    fn offers(&self, s: u64, a: u32) -> bool {
        self.offered(s, a).is_some()
    }

    fn outcomes(&self, s: u64, a: u32) -> Outcomes {
        match self.offered(s, a) {
            Some(action) => outcomes_of(s, &action.effects),
            None => Outcomes::new(),
        }
    }

    fn sizes(&self) -> Sizes {
        Sizes {
            labels: self.switches as u32,
            actions: self.acts.len() as u32,
            bound: 0,
            span: self.states(),
        }
    }
}

impl GroundModel for RuleBook {
    ghost use Rattle.rulebook.specs.Contents.{contents};
    ghost use Rattle.rulemodel.proofs.RuleLaws.{rule_ground};

    ghost based = { λ book. rule_ground (contents book) book.sound };
}

impl Numbered for RuleBook {
    ghost use Rattle.rulebook.specs.Contents.{contents};
    ghost use Rattle.rulemodel.proofs.RuleLaws.{rule_numbered};

    ghost numbered = { λ book. rule_numbered (contents book) book.sound };

    fn count(&self) -> usize {
        self.states() as usize
    }
}
