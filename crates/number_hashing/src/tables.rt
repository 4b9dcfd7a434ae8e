//! Maps and sets that find their keys by a hasher of numbers.
ghost use Rattle.std.specs.Prelude.{◌≡◌};
ghost use Rattle.std.specs.HashMap.{IsEmpty, IsUnique, hash_map_len};
ghost use Rattle.std.specs.HashSet as sets;

use crate::hasher::NumberHasher;
use std::alloc::Global;
use std::collections::{HashMap, HashSet};
use std::hash::{BuildHasherDefault, Hash};

/// A map whose keys are numbers.
pub type NumberMap<K, V> = HashMap<K, V, BuildHasherDefault<NumberHasher>>;

/// A set of numbers.
pub type NumberSet<K> = HashSet<K, BuildHasherDefault<NumberHasher>>;

/// A map of no key, which takes no memory yet.
pub fn number_map<K: Eq + Hash, V>(alloc: Global) -> NumberMap<K, V>
    ensures empty { IsEmpty result }
    ensures len { hash_map_len result ≡ 0 }
    ensures unique { IsUnique K.eq result }
{
    HashMap::with_hasher(alloc, BuildHasherDefault::new())
}

/// A set of no number, which takes no memory yet.
pub fn number_set<K: Eq + Hash>(alloc: Global) -> NumberSet<K>
    ensures empty { sets.IsEmpty result }
    ensures len { sets.hash_set_len result ≡ 0 }
    ensures unique { sets.IsUnique K.eq result }
{
    HashSet::with_hasher(alloc, BuildHasherDefault::new())
}
