//! Code for any map that threads share, called with a `DashMap`.
use crate::tests::checks::is;
use crate::tests::maps::map_of_four;
use dash_map::t::Map;
use dash_ref::mapref::entry::TryEntryRefused;
use dash_shard::hash::PlaceState;
use std::hash::BuildHasher;
use std::process::Abort;
use std::rt::Clock;
use std::sync::Wait;

// The calls on a shard and on a pair, on a map of four shards without pairs. They leave the pair (5, 55).
fn calls_on_pairs<R: Abort + Wait + Clock, M: Map<u64, u64, PlaceState>>(rt: &R, map: &M) {
    for (key, value) in [(1, 10), (5, 50)] {
        is(rt, map._insert(rt, key, value).expect(rt, "refused"), None);
    }
    is(rt, map._shard_count(), 4);
    for i in 0..map._shard_count() {
        let count = map._yield_write_shard(rt, i).len();
        is(rt, (i, count), (i, if i == 1 { 2 } else { 0 }));
    }
    is(rt, map._view(rt, &5, |_, value| *value), Some(50));
    map._alter(rt, &5, |_, value| value.wrapping_add(5));
    is(rt, map._remove_if(rt, &5, |_, value| *value < 55), None);
    let less = |_: &u64, value: &mut u64| {
        *value = value.wrapping_sub(1);
        *value < 9
    };
    is(rt, map._remove_if_mut(rt, &1, less), None);
    is(rt, map._remove(rt, &1), Some((1, 9)));
    is(rt, map._contains_key(rt, &1), false);
}

// Whether the calls that wait for nobody answer `Locked`.
fn are_locked<M: Map<u64, u64, PlaceState>>(map: &M) -> [bool; 3] {
    let reads = map._try_get(&5).is_locked();
    let writes = map._try_get_mut(&1).is_locked();
    let enters = matches!(map._try_entry(1), Err(TryEntryRefused::Locked(1)));
    [reads, writes, enters]
}

// The calls for references and entries, on a map of four shards with the pair (5, 55).
fn calls_that_hold<R: Abort + Wait + Clock, M: Map<u64, u64, PlaceState>>(rt: &R, map: &M) {
    is(rt, are_locked(map), [false; 3]);
    let mut found = map._get_mut(rt, &5).expect(rt, "no pair");
    *found = 56;
    is(rt, are_locked(map), [true; 3]);
    drop(found);
    is(rt, map._get(rt, &5).map(|found| *found), Some(56));
    is(rt, *map._entry(rt, 2).expect(rt, "refused").insert(20), 20);
}

// The calls on all pairs, on a map of four shards with the pairs (2, 20) and (5, 56).
fn calls_on_all<R: Abort + Wait + Clock, M: Map<u64, u64, PlaceState>>(rt: &R, map: &M) {
    map._alter_all(rt, |_, value| value.wrapping_add(1));
    map._retain(rt, |_, value| *value != 57);
    is(rt, (map._len(rt), map._contains_key(rt, &2)), (1, true));
    map._clear(rt);
    is(rt, map._is_empty(rt), true);
    is(rt, map._capacity(rt), 28);
    map._shrink_to_fit(rt);
    is(rt, map._capacity(rt), 0);
    let hasher = map._hasher().expect(rt, "refused");
    is(rt, hasher.hash_one(&2u64), 1 << 56);
}

// All calls, on a map of four shards without pairs.
fn calls<R: Abort + Wait + Clock, M: Map<u64, u64, PlaceState>>(rt: &R, map: &M) {
    calls_on_pairs(rt, map);
    calls_that_hold(rt, map);
    calls_on_all(rt, map)
}

#[test]
fn every_call(rt: HostRuntime) {
    let map = map_of_four(&rt, rt.alloc());
    calls(&rt, &map)
}
