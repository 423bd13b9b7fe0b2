ghost use Rattle.register.specs.Keys.{Counted};

use super::{Key, Register};

/// How many different keys there are. Each is entered into `table`, in the order in which it first comes; the rest of the table is
/// as it was. There is no answer where they do not fit: then those that came first fill the table.
pub fn distinct<K: Key>(keys: &[K], table: &mut [K]) -> Option<usize>
    ensures { Counted K.PartialEq.eq keys.now table.old table.new result }
{
    let mut register = Register::new(table);
    for key in keys {
        register.enter(*key)?;
    }
    Some(register.len())
}
