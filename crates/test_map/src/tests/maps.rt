//! The maps that tests begin with, and what they do with them and ask of them: calls of these are proved sooner than those that they make.
use dash_map::map::DashMap;
use dash_map::t::Map as _;
use dash_ref::try_result::TryResult;
use dash_shard::hash::PlaceState;
use std::alloc::Global;
use std::fmt;
use std::hash::{BuildHasher, Hash};
use std::process::Abort;
use std::rt::Clock;
use std::sync::Wait;

pub(crate) type Places = DashMap<u64, u64, PlaceState>;

pub(crate) type Names = DashMap<u64, String, PlaceState>;

/// A map of four shards, where the key k goes to shard k modulo 4.
pub(crate) fn map_of_four<V: Drop>(rt: &impl Abort, alloc: Global) -> DashMap<u64, V, PlaceState> {
    DashMap::with_hasher_and_shard_amount(alloc, PlaceState, 4).expect(rt, "no memory")
}

/// A map of four shards with these pairs, where the key k goes to shard k modulo 4.
pub(crate) fn map_of<R: Abort + Wait + Clock, V: fmt::Debug + Drop, const N: usize>(
    rt: &R,
    alloc: Global,
    pairs: [(u64, V); N],
) -> DashMap<u64, V, PlaceState> {
    let map = map_of_four(rt, alloc);
    for (key, value) in Vec::from_array(alloc, pairs).expect(rt, "no memory") {
        put(rt, &map, key, value);
    }
    map
}

/// A map of four shards with a pair in the shards 0, 1 and 3.
pub(crate) fn three_pairs<R: Abort + Wait + Clock>(rt: &R, alloc: Global) -> Places {
    map_of(rt, alloc, [(3, 30), (0, 5), (1, 10)])
}

/// Puts a pair, which the map must take, and returns the old value.
pub(crate) fn put<R: Abort + Wait + Clock, K, V: fmt::Debug + Drop, S: BuildHasher>(
    rt: &R,
    map: &DashMap<K, V, S>,
    key: K,
    value: V,
) -> Option<V>
where
    K: Eq + Hash + fmt::Debug + Drop,
{
    map.insert(rt, key, value).expect(rt, "refused")
}

/// The value of a key.
pub(crate) fn value_of<R: Wait + Clock, K: Eq + Hash, S: BuildHasher>(
    rt: &R,
    map: &DashMap<K, u64, S>,
    key: K,
) -> Option<u64>
where
    K: Drop,
{
    map.view(rt, &key, |_, value| *value)
}

/// Ends the test where something else stands at a key.
pub(crate) fn has<R: Abort + Wait + Clock, K, S: BuildHasher>(
    rt: &R,
    map: &DashMap<K, u64, S>,
    key: K,
    value: Option<u64>,
)
where
    K: Eq + Hash + fmt::Debug + Drop,
{
    let found = map.get(rt, &key).map(|found| *found);
    assert_eq!(rt; found, value, "at {key:?}");
}

/// Whether somebody holds the shard of a key.
pub(crate) fn is_held<K: Eq + Hash + Drop, S: BuildHasher>(
    map: &DashMap<K, u64, S>,
    key: K,
) -> bool {
    map.try_get_mut(&key).is_locked()
}

/// What `try_get` returns at a key, with the value in the place of the reference.
pub(crate) fn tried<K: Eq + Hash + Drop, S: BuildHasher>(
    map: &DashMap<K, u64, S>,
    key: K,
) -> TryResult<u64> {
    match map.try_get(&key) {
        TryResult::Present(found) => TryResult::Present(*found),
        TryResult::Absent => TryResult::Absent,
        TryResult::Locked => TryResult::Locked,
    }
}

/// Whether somebody holds the shard of a key for writing.
pub(crate) fn is_written<K: Eq + Hash + Drop, S: BuildHasher>(
    map: &DashMap<K, u64, S>,
    key: K,
) -> bool {
    tried(map, key).is_locked()
}

/// Adds 1 to each of up to nine values. Says how many were lent.
pub(crate) fn add_one<R: Wait + Clock, K: Eq + Hash, S: BuildHasher>(
    rt: &R,
    map: &DashMap<K, u64, S>,
) -> u64 {
    let mut walk = map._iter_mut(rt);
    let mut lent = 0u64;
    for _ in 0..10 {
        if let Some(value) = walk.next_mut() {
            *value = value.wrapping_add(1);
            lent = lent.wrapping_add(1);
        }
    }
    lent
}

/// A text in memory of its own.
pub(crate) fn text(rt: &impl Abort, alloc: Global, text: &str) -> String {
    String::from_str(alloc, text).expect(rt, "no memory")
}
