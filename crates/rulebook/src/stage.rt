// What has been read of a rule book, and what comes of one action or outcome more.
ghost use Rattle.std.specs.Prelude.{◌≡◌, ◌<◌, [], ◌∷◌, ◌++◌, length};
ghost use Rattle.bounded.specs.Listed.{listed};
ghost use Rattle.rulelayout.specs.Layout.{after_acts as acts_read, filled};
ghost use Rattle.rulebook.specs.Acts.{act_from};
ghost use Rattle.rulebook.specs.Drafts.{list_from, draft_from, step_from};

use crate::action::Action;
use bounded::Bounded;
use refusal::Refusal;
use rulelayout::{Effect, Masks, RuleHead, total_weight};

// The head, and the actions that were read.
#[derive(Clone, Copy)]
pub struct Table {
    pub head: RuleHead,
    pub acts: Bounded<Action, 8>,
}

// An action that is being read, after the table of those before it: its masks, and the outcomes that it has so far.
#[derive(Clone, Copy)]
pub struct Open {
    pub table: Table,
    pub action: Masks,
    pub effects: Bounded<Effect, 8>,
}

// What is due: the head, an action, an outcome of the open action, or the end.
#[derive(Clone, Copy)]
pub enum Stage {
    Blank,
    Listing(Table),
    Inside(Open),
    Whole(Table),
}

impl Table {
    // What is due after one action more. While an action is due there is room for it.
    pub fn with(mut self, action: Action) -> Stage
        ensures { length (list_from self) < 8
            → draft_from result ≡ acts_read self.head (list_from self ++ act_from action ∷ []) }
    {
        let _ = self.acts.push(action);
        if self.acts.len() < self.head.actions as usize {
            Stage::Listing(self)
        } else {
            Stage::Whole(self)
        }
    }
}

impl Open {
    // What is due after one outcome more. While an outcome is due there is room for it, and for its action.
    pub fn with(mut self, effect: Effect) -> Result<Stage, Refusal>
        ensures { let acts = list_from self.table in
            let effects = listed self.effects in
            length acts < 8 → length effects < 8
            → step_from result ≡ filled self.table.head acts self.action (effects ++ effect ∷ []) }
    {
        let _ = self.effects.push(effect);
        if self.effects.len() < self.action.count as usize {
            return Ok(Stage::Inside(self));
        }
        if total_weight(&self.effects) != Some(8) {
            return Err(Refusal::WrongTotal);
        }
        Ok(
            self.table.with(Action {
                on: self.action.first,
                off: self.action.second,
                effects: self.effects,
            }),
        )
    }
}
