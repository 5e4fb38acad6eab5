//! Shards by hand. By `PlaceState` the key k of four shards goes to shard k modulo 4, so 1, 5 and 9 go to shard 1.
ghost use Rattle.std.specs.Prelude.{◌<◌};

use crate::tests::checks::is;
use dash_shard::hash::{PlaceState, is_shard_amount};
use dash_shard::lock::RwLock;
use dash_shard::shard::Shard;
use dash_shard::shard::tag::ShardTag;
use std::alloc::Global;
use std::fmt;
use std::hash::{BuildHasher, Hash};
use std::process::Abort;

/// A shard of a lawful amount, with no pairs.
pub(crate) fn new_shard<K: Eq + Hash + Drop, V: Drop, S: BuildHasher + Drop>(
    rt: &impl Abort,
    alloc: Global,
    hasher: S,
    number: usize,
    amount: usize,
    capacity: usize,
) -> Shard<K, V, S>
    requires { number < amount }
{
    assert!(rt; is_shard_amount(amount));
    Shard::new(alloc, hasher, number, amount, capacity).expect(rt, "refused")
}

/// Shard 1 of four, with these pairs.
pub(crate) fn shard_one<V: PartialEq + fmt::Debug + Drop, const N: usize>(
    rt: &impl Abort,
    alloc: Global,
    pairs: [(u64, V); N],
) -> Shard<u64, V, PlaceState> {
    let mut shard = new_shard(rt, alloc, PlaceState, 1, 4, 0);
    for (key, value) in Vec::from_array(alloc, pairs).expect(rt, "refused") {
        is(rt, (key, put(rt, &mut shard, key, value)), (key, None));
    }
    shard
}

/// Shard 1 of four behind its lock, with these pairs.
pub(crate) fn lock_of_one<V: PartialEq + fmt::Debug + Drop, const N: usize>(
    rt: &impl Abort,
    alloc: Global,
    pairs: [(u64, V); N],
) -> RwLock<Shard<u64, V, PlaceState>> {
    let shard = shard_one(rt, alloc, pairs);
    let tag = ShardTag::of(&shard);
    RwLock::new(shard, &tag)
}

/// Puts a pair, which has to go to the shard, and returns the old value.
pub(crate) fn put<K: fmt::Debug + Drop, V: fmt::Debug + Drop, S: BuildHasher>(
    rt: &impl Abort,
    shard: &mut Shard<K, V, S>,
    key: K,
    value: V,
) -> Option<V>
where
    K: Eq + Hash,
{
    assert!(rt; shard.routes(&key), "the key goes to another shard");
    shard.insert(key, value).expect(rt, "refused")
}

/// Takes the pair of a key, which has to go to the shard.
pub(crate) fn remove<S: BuildHasher>(
    rt: &impl Abort,
    shard: &mut Shard<u64, u64, S>,
    key: u64,
) -> Option<(u64, u64)> {
    assert!(rt; shard.routes(&key), "the key goes to another shard");
    shard.remove(&key)
}
