// The tables that a site book is stored in.
ghost use Rattle.std.specs.Prelude.{◌^◌, ◌<◌, vec_capacity};

use sitelayout::{Mark, Move};

// The outcomes of all cells stand in one row: those of action `a` in state `s` from `starts[k]` on, with `k = s * actions + a`, to where the
// next cell begins. A cell that `starts` lacks begins at the end of the row. A book takes 4 bytes for each cell and 4 for each outcome; a
// list of eight for each cell would take a tenth more where all are full, and many times as much where few are.
#[derive(Drop)]
pub struct Tables {
    pub labels: u32,
    pub actions: u32,
    pub marks: Vec<Mark>,
    pub starts: Vec<u32>,
    pub moves: Vec<Move>,
    ghost small: { vec_capacity moves < 2 ^ 32 },
}

impl Tables {
    ghost use Rattle.std.specs.Prelude.{◌≡◌, length, slice_index_or};
    ghost use Rattle.sitebook.specs.Tables.{between};

    // Where cell `k` begins.
    fn start(&self, k: usize) -> usize
        ensures { result ≡ slice_index_or self.now.starts.items k (length self.now.moves.items) }
    {
        self.starts
            .get(k)
            .map_or(self.moves.len(), |start| *start as usize)
    }

    // What the row holds from where cell `k` begins to where the next does.
    pub fn cell(&self, k: usize) -> &[Move]
        ensures { result.now ≡ between self.now.starts.items self.now.moves.items k }
    {
        let from = self.start(k);
        let count = self.start(k.saturating_add(1)).saturating_sub(from);
        let rest = self.moves.get(from..).unwrap_or(&[]);
        rest.get(..count).unwrap_or(rest)
    }
}
