// A site book as it is stored, and what can be asked of it.
ghost use Rattle.std.specs.Prelude.{◌≡◌, IsTrue};
ghost use Rattle.sitelayout.specs.Site.{valid};
ghost use Rattle.siteverdict.specs.Counting.{bound_of};
ghost use Rattle.sitebook.specs.Tables.{site_of};

use crate::tables::Tables;
use model::{GroundModel, Numbered, Outcomes, SiteModel, Sizes};
use sitelayout::{Mark, Move, Worth};
use sitemodel::outcomes_of;

mod reading;

pub use reading::read_site;

/// A valid site book, and the ground model that it is: its states are the numbers below the count of its states, and each is its own ground.
// `bound` is the largest size of a reward.
#[derive(Drop)]
pub struct SiteBook {
    tables: Tables,
    bound: u32,
    ghost sound: { IsTrue (valid (site_of tables)) },
    ghost most: { bound ≡ bound_of tables.marks.items },
}

// No label, no reward, origin 0.
const BLANK: Mark = Mark {
    mask: 0,
    worth: Worth {
        raised: 2000,
        origin: 0,
    },
};

impl SiteBook {
    ghost use Rattle.sitebook.specs.Contents.{contents};
    ghost use Rattle.sitemodel.specs.Meaning.{mark_at, cell_at, origin_of};

    /// The origin that a state carries, 0 for any other number: in a book that was written out, the ground state that it stands over.
    pub fn origin(&self, s: u64) -> u64
        ensures { result ≡ origin_of (contents self.now) s }
    {
        self.mark(s).worth.origin as u64
    }

    // What the book says of a state; any other number has no label, no reward and origin 0.
    fn mark(&self, s: u64) -> Mark
        ensures { result ≡ mark_at (contents self.now) s }
    {
        self.tables.marks.get(s as usize).copied().unwrap_or(BLANK)
    }

    // The outcomes of an action in a state, none where it is not offered.
    fn cell(&self, s: u64, a: u32) -> &[Move]
        ensures { result.now ≡ cell_at (contents self.now) s a }
    {
        if s >= self.tables.marks.len() as u64 || a >= self.tables.actions {
            return &[];
        }
        let k = s as usize * self.tables.actions as usize + a as usize;
        self.tables.cell(k)
    }
}

impl SiteModel for SiteBook {
    ghost use Rattle.sitebook.specs.Contents.{contents};
    ghost use Rattle.sitemodel.specs.Meaning.{site_model};
    ghost use Rattle.sitemodel.proofs.SiteLaws.{site_lawful};

    ghost meaning = { λ b. site_model (contents b) };

    ghost lawful = { λ b. site_lawful (contents b) b.sound };

    fn start(&self) -> u64 {
        0
    }

    fn is_state(&self, s: u64) -> bool {
        self.tables.marks.len() as u64 > s
    }

    fn mask(&self, s: u64) -> u32 {
        self.mark(s).mask
    }

    fn reward(&self, s: u64) -> i32 {
        self.mark(s).worth.raised as i32 - 2000
    }

    fn ground(&self, s: u64) -> u64 {
        if self.is_state(s) { s } else { 0 }
    }

    fn offers(&self, s: u64, a: u32) -> bool {
        !self.cell(s, a).is_empty()
    }

    fn outcomes(&self, s: u64, a: u32) -> Outcomes {
        outcomes_of(self.cell(s, a))
    }

    fn sizes(&self) -> Sizes {
        Sizes {
            labels: self.tables.labels,
            actions: self.tables.actions,
            bound: self.bound,
            span: self.tables.marks.len() as u64,
        }
    }
}

impl GroundModel for SiteBook {
    ghost use Rattle.sitebook.specs.Contents.{contents};
    ghost use Rattle.sitemodel.proofs.SiteLaws.{site_ground};

    ghost based = { λ b. site_ground (contents b) b.sound };
}

impl Numbered for SiteBook {
    ghost use Rattle.sitebook.specs.Contents.{contents};
    ghost use Rattle.sitemodel.proofs.SiteLaws.{site_numbered};

    ghost numbered = { λ b. site_numbered (contents b) b.sound };

    fn count(&self) -> usize {
        self.tables.marks.len()
    }
}
