// A site book or a rule book, whichever it is, as one ground model.

#![tactic(auto)]

mod answers;

use rulebook::RuleBook;
use sitebook::SiteBook;

/// A book of either kind. Every answer is that of the book.
#[derive(Drop)]
pub enum GroundBook {
    Site(SiteBook),
    Rule(RuleBook),
}
