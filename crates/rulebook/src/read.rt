// Reading a rule book: one word after another, into a table of at most eight actions of at most eight outcomes.
ghost use Rattle.std.specs.Prelude.{◌≡◌, IsTrue, ◌&&◌, ◌==◌};
ghost use Rattle.words.specs.Format.{Faithful, reading};
ghost use Rattle.words.specs.Refusing.{RefusesRightly};
ghost use Rattle.rulelayout.specs.Rule.{Rule, valid};
ghost use Rattle.rulelayout.specs.Layout.{Draft as Words, rule_format, rule_words, read_word, whole_rule, Good, good-prop, written};
ghost use Rattle.rulelayout.specs.WordTests.{may_end, passes, closes};
ghost use Rattle.rulebook.specs.Drafts.{draft_from, turn_from};
ghost use Rattle.rulebook.specs.Contents.{contents, verdict_from};

use crate::action::Action;
use crate::book::RuleBook;
use crate::stage::{Open, Stage, Table};
use bounded::Bounded;
use refusal::{Fault, Refusal};
use rulelayout::{Kind, read_head, read_masks};
use words::{Draft, Turn, open, read};

// Whether an action is offered everywhere.
fn needless(action: &Action) -> bool
    ensures { result ≡ (action.now.on == 0 && action.now.off == 0) }
{
    action.on == 0 && action.off == 0
}

// A good draft of a rule book.
#[derive(Clone, Copy)]
struct Reading {
    stage: Stage,
    ghost good: { Good (draft_from stage) } by { good-prop (draft_from stage) },
}

impl Reading {
    // What is due after one word more, or nothing at the end word. A draft is a state machine: the same word means another thing at each
    // stage, so that each has an arm.
    #[tactic(auto, unfolding(rulelayout::specs::Layout::read_word))]
    fn next(&self, word: u32) -> Result<Option<Stage>, Refusal>
        ensures { turn_from result ≡ read_word (draft_from self.now.stage) word }
    {
        match self.stage {
            Stage::Blank => {
                let head = read_head(word)?;
                let acts = Bounded::new();
                Ok(Some(Stage::Listing(Table { head, acts })))
            }
            Stage::Listing(table) => {
                let action = read_masks(Kind::Action as u32, table.head.switches as u32, word)?;
                let effects = Bounded::new();
                Ok(Some(Stage::Inside(Open {
                    table,
                    action,
                    effects,
                })))
            }
            Stage::Inside(inside) => {
                let switches = inside.table.head.switches as u32;
                let masks = read_masks(Kind::Outcome as u32, switches, word)?;
                Ok(Some(inside.with(masks.into())?))
            }
            Stage::Whole(_) => {
                open(word, Kind::End as u32, 28)?;
                Ok(None)
            }
        }
    }
}

impl Draft for Reading {
    type Book = RuleBook;

    ghost Words = { Words };

    ghost Text = { Rule };

    ghost format = { rule_format };

    ghost Follows = { λ reading s. draft_from reading.stage ≡ s };

    ghost Means = { λ book rule. contents book ≡ rule };

    fn blank() -> Self {
        Reading {
            stage: Stage::Blank,
        }
    }

    #[tactic(auto, using(rulelayout::proofs::Faithful::good_steps))]
    fn step(&mut self, word: u32) -> Result<Turn, Refusal> {
        match self.next(word)? {
            Some(stage) => {
                *self = Reading { stage };
                Ok(Turn::More)
            }
            None => Ok(Turn::End),
        }
    }

    // Action 0 has no needs.
    #[tactic(auto, unfolding(rulelayout::specs::Layout::whole_rule))]
    fn finish(self) -> Result<RuleBook, Refusal> {
        match self.stage {
            Stage::Whole(Table { head, acts }) if acts.first().is_some_and(needless) => Ok(
                RuleBook {
                    switches: head.switches,
                    start: head.start,
                    acts,
                },
            ),
            _ => Err(Refusal::NoWait),
        }
    }
}

/// The rule book in a file's bytes, or the first refusal and the place of the word that it is about, in words from 0 (docs/REFUSALS.md,
/// "Reading"). The words are those of docs/FORMATS.md.
#[tactic(auto, using(rulelayout::proofs::Faithful::rule_faithful, rulelayout::proofs::Refusing::rule_refuses))]
pub fn read_rule(bytes: &[u8]) -> Result<RuleBook, Fault>
    ensures reads { reading rule_format bytes.now ≡ verdict_from result }
    ensures faithful { Faithful rule_format (λ b. IsTrue (valid b)) rule_words }
    ensures refuses { RefusesRightly rule_format Good written may_end passes closes }
{
    read::<Reading>(bytes)
}
