ghost use Rattle.std.specs.Prelude.{◌≡◌, ◌≤◌, length, take};
ghost use Rattle.register.specs.Keys.{Equal, DistinctBy};

/// A register with no index, for few keys: a search looks at each, and nothing but the table is written.
#[derive(Drop)]
pub struct Few<'a, K: Copy + Eq> {
    keys: &'a mut [K],
    len: usize,
    ghost fits: { len ≤ length keys.now },
    ghost apart: { DistinctBy (Equal K.PartialEq.eq) (take len keys.now) },
}

impl<'a, K: Copy + Eq> Few<'a, K> {
    ghost use Rattle.register.specs.Few.{few_of};
    ghost use Rattle.register.specs.Keys.{Entered, Placed};
    ghost use Rattle.std.specs.Prelude.{drop};

    /// An empty register over the table `keys`. What the table holds is left and is no key.
    pub fn new(keys: &'a mut [K]) -> Few<'a, K>
        ensures empty { result.len ≡ 0 }
        ensures table { result.keys.now ≡ keys.old }
        ensures lent { result.keys.ghost_name ≡ keys.entry.ghost_name }
    {
        Few { keys, len: 0 }
    }

    /// Enters the key, unless one that is equal to it is there, and says where it stands, counted from 0. A new key is refused
    /// with `None` where the table is full; then the register is as it was.
    pub fn enter(&mut self, key: K) -> Option<usize>
        ensures answer { Entered K.PartialEq.eq key (length self.old.keys.now)
            (few_of self.old) (few_of self.new) result }
        ensures rest { drop self.new.len self.new.keys.now ≡ drop self.new.len self.old.keys.now }
        ensures room { length self.new.keys.now ≡ length self.old.keys.now }
        ensures lent { self.new.keys.ghost_name ≡ self.old.keys.ghost_name }
    {
        if let Some(place) = self.place(&key) {
            return Some(place);
        }
        let place = self.len;
        if place == self.keys.len() {
            return None;
        }
        self.keys[place] = key;
        self.len = place + 1;
        Some(place)
    }

    /// The keys in the order of entry.
    pub fn as_slice(&self) -> &[K]
        ensures { result.now ≡ few_of self.now }
    {
        &self.keys[..self.len]
    }

    // Where the key stands, counted from 0, if one that is equal to it was entered.
    fn place(&self, key: &K) -> Option<usize>
        ensures { Placed K.PartialEq.eq key.now (few_of self.now) result }
    {
        let place = self.as_slice().iter().position(|other| other == key)?;
        Some(place)
    }
}
