ghost use Rattle.std.specs.Prelude.{◌≡◌, slice_index_or};

/// What a table has at a place, counted from 0, or the other value past its end.
pub fn at<T: Copy>(table: &[T], place: usize, otherwise: T) -> T
    ensures { result ≡ slice_index_or table.now place otherwise }
{
    table.get(place).copied().unwrap_or(otherwise)
}
