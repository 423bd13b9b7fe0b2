ghost use Rattle.std.specs.Prelude.{refl};

use super::Key;

/// Any value with a lawful `==` as a key, with no number told: all are in one bucket, and a search looks at each.
#[derive(Clone, Copy, PartialEq, Eq)]
pub struct OneBucket<K>(pub K);

impl<K: Copy + Eq> Key for OneBucket<K> {
    ghost bucket = { λ _. 0 };

    ghost shares_bucket = { λ x y same. refl };

    fn bucket(&self) -> usize {
        0
    }
}
