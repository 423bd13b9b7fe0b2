// The places of a table by buckets: those of each bucket are chained from the last to the first.
ghost use Rattle.std.specs.Prelude.{◌≡◌, ℕ, ◌+◌, ◌<◌, ◌≤◌, List, length, slice_set};
ghost use Rattle.register.specs.Chains.{Chained};

// How many buckets there are.
pub(crate) const BUCKETS: usize = 7919;

// How many places are chained.
pub(crate) const CHAINED: usize = 4096;

// For each bucket `heads` has one more than its last place, and for each place `earlier` has one more than the place before it in its
// bucket; 0 stands where there is none: an `Option<u16>` takes twice the room, and all of this is wiped for each register. The chains
// are places in two tables, since a register has no heap.
#[derive(Clone, Copy)]
pub(crate) struct Chains {
    pub(crate) heads: [u16; BUCKETS],
    pub(crate) earlier: [u16; CHAINED],
    ghost buckets: { length heads ≡ 7919 },
    ghost places: { length earlier ≡ 4096 },
}

impl Chains {
    // Of no places.
    pub(crate) fn new() -> Chains
        ensures { (bs : List ℕ) → Chained result.heads result.earlier bs 0 }
    {
        Chains {
            heads: [0; BUCKETS],
            earlier: [0; CHAINED],
        }
    }

    // One place more, unless all are chained. The contract of a slice's `get_mut` does not say what a table becomes.
    pub(crate) fn link(&mut self, place: usize, bucket: usize)
        requires { bucket < 7919 }
        ensures linked { (bs : List ℕ) → place < 4096 → place < length bs
            → Chained self.old.heads self.old.earlier bs place
            → Chained self.new.heads self.new.earlier (slice_set bs place bucket) (place + 1) }
        ensures full { 4096 ≤ place → self.new ≡ self.old }
    {
        if place < CHAINED {
            self.earlier[place] = self.heads[bucket];
            self.heads[bucket] = (place + 1) as u16;
        }
    }
}
