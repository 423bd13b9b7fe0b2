// Numbers are keys.
ghost use Rattle.std.proofs.Common.{eqb-true};

use super::Key;

impl Key for u64 {
    ghost bucket = { λ n. n };

    ghost shares_bucket = { eqb-true };

    fn bucket(&self) -> usize {
        *self as usize
    }
}
