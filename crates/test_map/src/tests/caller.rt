//! A caller of a map: each of its calls is the map's of that name.
use crate::tests::checks::{is, prints};
use crate::tests::maps::{map_of_four, three_pairs};
use dash_map::caller::Caller;
use dash_map::map::DashMap;
use dash_shard::hash::PlaceState;
use std::process::Abort;
use std::rt::Clock;
use std::sync::Wait;
use std::thread;

type Votes<'a, R> = Caller<'a, u64, u64, PlaceState, R>;

// The value of a key.
fn value_of<R: Wait + Clock>(map: &mut Votes<'_, R>, key: u64) -> Option<u64> {
    let found = map.get(&key)?;
    Some(*found)
}

// Puts a pair, which the map must take, and returns the old value.
fn put<R: Abort + Wait + Clock>(map: &mut Votes<'_, R>, key: u64, value: u64) -> Option<u64> {
    let rt = map.rt;
    map.insert(key, value).expect(rt, "refused")
}

#[test]
fn pairs_come_and_go(rt: HostRuntime) {
    let map = map_of_four(&rt, rt.alloc());
    let mut map = map.caller(&rt);
    is(
        &rt,
        (put(&mut map, 1, 10), put(&mut map, 1, 11)),
        (None, Some(10)),
    );
    is(
        &rt,
        (value_of(&mut map, 1), value_of(&mut map, 2)),
        (Some(11), None),
    );
    is(
        &rt,
        (map.contains_key(&1), map.contains_key(&2)),
        (true, false),
    );
    is(
        &rt,
        map.view(&1, |key, value| key.wrapping_add(*value)),
        Some(12),
    );
    is(&rt, map.remove_if(&1, |_, value| *value == 10), None);
    is(
        &rt,
        map.remove_if(&1, |_, value| *value == 11),
        Some((1, 11)),
    );
    put(&mut map, 5, 50);
    is(
        &rt,
        map.remove_if_mut(&5, |_, value| {
            *value = 51;
            false
        }),
        None,
    );
    is(&rt, map.remove(&5), Some((5, 51)));
    is(&rt, (map.len(), map.is_empty()), (0, true));
}

#[test]
fn values_are_written(rt: HostRuntime) {
    let map = three_pairs(&rt, rt.alloc());
    let mut map = map.caller(&rt);
    *map.get_mut(&1).expect(&rt, "no pair") = 11;
    *map.try_get_mut(&3).try_unwrap().expect(&rt, "no pair") = 31;
    map.alter(&0, |_, value| value.wrapping_add(1));
    *map.entry(2).expect(&rt, "refused").or_insert(0) = 20;
    *map.try_entry(4).expect(&rt, "refused").or_insert(0) = 40;
    is(
        &rt,
        map.try_get(&4).try_unwrap().map(|found| *found),
        Some(40),
    );
    map.alter_all(|_, value| value.wrapping_mul(2));
    let mut walk = map.iter_mut();
    for _ in 0..5 {
        if let Some(value) = walk.next_mut() {
            *value = value.wrapping_add(1);
        }
    }
    drop(walk);
    let mut pairs = map.pairs().expect(&rt, "refused");
    pairs.sort_unstable();
    prints(
        &rt,
        rt.alloc(),
        &pairs,
        "[(0, 13), (1, 23), (2, 41), (3, 63), (4, 81)]",
    );
}

#[test]
fn all_pairs_are_seen(rt: HostRuntime) {
    let map = three_pairs(&rt, rt.alloc());
    let mut map = map.caller(&rt);
    is(
        &rt,
        map.fold(
            0,
            |sum: u64, key, value| sum.wrapping_add(*key).wrapping_add(*value),
        ),
        49,
    );
    let mut count = 0u64;
    map.for_each(|_, _| count = count.wrapping_add(1));
    for pair in map.iter() {
        count = count.wrapping_add(*pair.expect(&rt, "refused").value());
    }
    is(&rt, count, 48);
    assert!(rt; 3 < map.map.shards().len());
    is(&rt, map.shards_mut(3).len(), 1);
    assert!(rt; 3 < map.map.shards().len());
    is(&rt, map.shards_mut(2).len(), 0);
    map.retain(|key, _| *key != 1);
    is(&rt, (map.len(), map.capacity() > 2), (2, true));
    map.clear();
    map.shrink_to_fit();
    is(&rt, (map.len(), map.capacity()), (0, 0));
}

// Four threads count on one map, each by a caller of its own: no count is lost.
#[test]
fn callers_share_a_map(rt: HostRuntime) {
    let map: DashMap<u64, u64, PlaceState> = map_of_four(&rt, rt.alloc());
    thread::for_each_mut(
        &rt,
        &mut [0u64; 4],
        4,
        &|_, lost: &mut u64| {
            let mut map = map.caller(&rt);
            for step in 0..10_000u64 {
                match map.entry(step % 7) {
                    Ok(entry) => {
                        let mut count = entry.or_insert(0);
                        *count = count.wrapping_add(1);
                    }
                    Err(_) => *lost = lost.wrapping_add(1),
                }
            }
        },
    );
    is(
        &rt,
        map.fold(&rt, 0, |sum: u64, _, count| sum.wrapping_add(*count)),
        40_000,
    );
}
