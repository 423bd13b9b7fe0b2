// Every answer is that of the book.
ghost use Rattle.ground.specs.Grounds.{ground_model};
ghost use Rattle.rulebook.specs.Contents as rule;
ghost use Rattle.rulemodel.proofs.RuleLaws.{rule_lawful, rule_ground, rule_numbered};
ghost use Rattle.sitebook.specs.Contents as site;
ghost use Rattle.sitemodel.proofs.SiteLaws.{site_lawful, site_ground, site_numbered};
ghost use Rattle.ground.specs.declared.GroundBook.TheVariants.{Site, Rule};

use crate::GroundBook;
use model::{GroundModel, Numbered, Outcomes, SiteModel, Sizes};

// What either book answers. A trait's methods are handed on one by one: there is no delegation, and a function may hand out no `dyn`.
macro_rules! for_both {
    ($ground:expr, $book:ident => $answer:expr) => {
        match $ground {
            GroundBook::Site($book) => $answer,
            GroundBook::Rule($book) => $answer,
        }
    };
}

impl SiteModel for GroundBook {
    ghost meaning = { ground_model };

    ghost lawful = { elim [
      | Site b ↦ site_lawful (site.contents b) b.sound
      | Rule b ↦ rule_lawful (rule.contents b) b.sound
    ] };

    fn start(&self) -> u64 {
        for_both!(self, book => book.start())
    }

    fn is_state(&self, s: u64) -> bool {
        for_both!(self, book => book.is_state(s))
    }

    fn mask(&self, s: u64) -> u32 {
        for_both!(self, book => book.mask(s))
    }

    fn reward(&self, s: u64) -> i32 {
        for_both!(self, book => book.reward(s))
    }

    fn ground(&self, s: u64) -> u64 {
        for_both!(self, book => book.ground(s))
    }

    fn offers(&self, s: u64, a: u32) -> bool {
        for_both!(self, book => book.offers(s, a))
    }

    fn outcomes(&self, s: u64, a: u32) -> Outcomes {
        for_both!(self, book => book.outcomes(s, a))
    }

    fn sizes(&self) -> Sizes {
        for_both!(self, book => book.sizes())
    }
}

impl GroundModel for GroundBook {
    ghost based = { elim [
      | Site b ↦ site_ground (site.contents b) b.sound
      | Rule b ↦ rule_ground (rule.contents b) b.sound
    ] };
}

impl Numbered for GroundBook {
    ghost numbered = { elim [
      | Site b ↦ site_numbered (site.contents b) b.sound
      | Rule b ↦ rule_numbered (rule.contents b) b.sound
    ] };

    fn count(&self) -> usize {
        for_both!(self, book => book.count())
    }
}
