//! A register keeps, of keys that are equal, the first, in the order of entry, in a table that it is lent.

#![tactic(auto)]

ghost use Rattle.std.specs.Prelude.{◌≡◌, ℕ, ◌<◌, ◌≤◌, length, min, take};
ghost use Rattle.register.specs.Chains.{Chained, bucket_in, buckets};
ghost use Rattle.register.specs.Keys.{Equal, DistinctBy, SharesBucket};

mod chains;
#[cfg(test)]
mod coarse;
mod count;
mod few;
mod numbers;
mod one_bucket;

use chains::{BUCKETS, CHAINED, Chains};
pub use count::distinct;
pub use few::Few;
pub use one_bucket::OneBucket;

/// What a register can keep: `==` says which keys are equal, an equivalence by the law of `Eq`.
pub trait Key: Copy + Eq {
    ghost bucket: { Self → ℕ };

    /// A number that equal keys share. A search looks through the keys of one bucket, so a number that tells keys apart makes it short.
    fn bucket(&self) -> usize
        ensures { result ≡ bucket self.now };

    ghost shares_bucket: { SharesBucket Self.PartialEq.eq bucket };
}

/// Keys in the order of entry, no two of them equal: the first `len` elements of a table that is lent, so that how many keys there is
/// room for, is the caller's to say. The first 4,096 keys are found by their buckets, later ones by a look at each. Making one wipes the
/// 24 KB of that index: `Few` is made for less.
#[derive(Drop)]
pub struct Register<'a, K: Key> {
    keys: &'a mut [K],
    chains: Chains,
    len: usize,
    ghost fits: { len ≤ length keys.now },
    ghost apart: { DistinctBy (Equal K.PartialEq.eq) (take len keys.now) },
    ghost chained: { Chained chains.heads chains.earlier (buckets K.Key.bucket keys.now) (min len 4096) },
}

// What the table holds after is each function's own to say: all as it was, or all after the keys; that it is the lent one, all of
// them say.
impl<'a, K: Key> Register<'a, K> {
    ghost use Rattle.register.specs.Keys.{Entered, Found, Placed, Stands};
    ghost use Rattle.register.specs.Register.{keys_of};
    ghost use Rattle.std.specs.Prelude.{drop};

    /// An empty register over the table `keys`. What the table holds is left and is no key.
    pub fn new(keys: &'a mut [K]) -> Register<'a, K>
        ensures empty { result.len ≡ 0 }
        ensures table { result.keys.now ≡ keys.old }
        ensures lent { result.keys.ghost_name ≡ keys.entry.ghost_name }
    {
        Register {
            keys,
            chains: Chains::new(),
            len: 0,
        }
    }

    /// Takes all keys out; the table is left as it is.
    pub fn clear(&mut self)
        ensures empty { self.new.len ≡ 0 }
        ensures same { self.new.keys.now ≡ self.old.keys.now }
        ensures lent { self.new.keys.ghost_name ≡ self.old.keys.ghost_name }
    {
        self.chains = Chains::new();
        self.len = 0;
    }

    /// Enters the key, unless one that is equal to it is there, and says where it stands, counted from 0. A new key is refused
    /// with `None` where the table is full; then the register is as it was.
    // The table's length is asked by hand, since the contract of a slice's `get_mut` does not say what the table becomes.
    pub fn enter(&mut self, key: K) -> Option<usize>
        ensures answer { Entered K.PartialEq.eq key (length self.old.keys.now)
            (keys_of self.old) (keys_of self.new) result }
        ensures rest { drop self.new.len self.new.keys.now ≡ drop self.new.len self.old.keys.now }
        ensures room { length self.new.keys.now ≡ length self.old.keys.now }
        ensures lent { self.new.keys.ghost_name ≡ self.old.keys.ghost_name }
    {
        if let Some(place) = self.place(&key) {
            return Some(place);
        }
        let place = self.len;
        if place == self.keys.len() {
            return None;
        }
        self.keys[place] = key;
        self.chains.link(place, bucket_of(&key));
        self.len = place + 1;
        Some(place)
    }

    /// How many keys there are.
    pub fn len(&self) -> usize
        ensures count { result ≡ length (keys_of self.now) }
        ensures fits { result ≤ length self.now.keys.now }
    {
        self.as_slice().len()
    }

    /// The key at a place, counted from 0; `None` past the last.
    pub fn get(&self, place: usize) -> Option<K>
        ensures { Stands (keys_of self.now) place result }
    {
        self.as_slice().get(place).copied()
    }

    /// The keys in the order of entry.
    pub fn as_slice(&self) -> &[K]
        ensures { result.now ≡ keys_of self.now }
    {
        &self.keys[..self.len]
    }

    /// Where the key stands, counted from 0, if one that is equal to it was entered.
    pub fn place(&self, key: &K) -> Option<usize>
        ensures { Placed K.PartialEq.eq key.now (keys_of self.now) result }
    {
        if let Some(place) = self.chained_place(key) {
            return Some(place);
        }
        self.later_place(key)
    }

    // Where it stands among the chained places: the search goes back through its bucket. It is a `while`,
    // since `find` asks for an iterator that ends, and none of `successors` is known to.
    fn chained_place(&self, key: &K) -> Option<usize>
        ensures { Found K.PartialEq.eq (keys_of self.now) key.now 0 (min self.now.len 4096) result }
    {
        let keys = &*self.keys;
        let mut at = self.chains.heads[bucket_of(key)] as usize;
        while at > 0 {
            let place = at - 1;
            if keys[place] == *key {
                return Some(place);
            }
            at = self.chains.earlier[place] as usize;
        }
        None
    }

    // Where it stands past the chained places.
    fn later_place(&self, key: &K) -> Option<usize>
        ensures { Found K.PartialEq.eq (keys_of self.now) key.now 4096 self.now.len result }
    {
        let later = self.as_slice().get(CHAINED..)?;
        let place = later.iter().position(|other| other == key)?;
        Some(CHAINED + place)
    }
}

// The bucket that a key falls into.
fn bucket_of<K: Key>(key: &K) -> usize
    ensures bucket { result ≡ bucket_in K.Key.bucket key.now }
    ensures small { result < 7919 }
{
    key.bucket() % BUCKETS
}
