//! The calls of a map that threads share: what is put is found, taken once, and changed in its place.
use crate::tests::checks::is;
use crate::tests::maps::{has, map_of_four, put};
use dash_map::map::DashMap;
use dash_shard::error::TryReserveError;
use dash_shard::hash::{FixedState, PlaceState, ZeroState};
use std::alloc::{AllocError, Global};
use std::hash::{BuildHasher, Hash, RandomState};
use std::process::Abort;
use std::rt::Clock;
use std::sync::{Arc, Wait};
use std::thread;

// Adds 1 to each value.
fn add_one<R: Wait + Clock, K: Eq + Hash, S: BuildHasher>(rt: &R, map: &DashMap<K, u64, S>) {
    map.alter_all(rt, |_, value| value.wrapping_add(1));
}

// Keeps the pairs with a value above this one, and says how many those are.
fn keep_above<R: Wait + Clock, K: Eq + Hash + Drop, S: BuildHasher>(
    rt: &R,
    map: &DashMap<K, u64, S>,
    least: u64,
) -> usize {
    map.retain(rt, |_, value| *value > least);
    map.len(rt)
}

#[test]
fn a_hundred_keys(rt: HostRuntime) {
    let map = DashMap::<u64, u64>::new(rt.alloc(), 1).expect(&rt, "refused");
    is(&rt, put(&rt, &map, 0, 0), None);
    has(&rt, &map, 0, Some(0));
    for i in 0..100 {
        put(&rt, &map, 0, i);
        put(&rt, &map, i, i);
    }
    has(&rt, &map, 0, Some(99));
    for i in 1..100 {
        has(&rt, &map, i, Some(i));
    }
}

#[test]
fn views(rt: HostRuntime) {
    let map = map_of_four(&rt, rt.alloc());
    for (number, name) in [(0, "Banana"), (4, "Pear"), (9, "Potato"), (12, "Chicken")] {
        put(&rt, &map, number, name);
    }
    let is_eaten_warm = |_: &u64, name: &&str| matches!(
        *name,
        "Salad" | "Beans" | "Potato" | "Tomato"
    );
    is(&rt, map.view(&rt, &9, is_eaten_warm), Some(true));
    is(&rt, map.view(&rt, &12, is_eaten_warm), Some(false));
    is(&rt, map.view(&rt, &30, |_, _| false), None);
}

#[test]
fn a_removal_asks_first(rt: HostRuntime) {
    let map = DashMap::<&str, &str>::with_shard_amount(rt.alloc(), 4).expect(&rt, "refused");
    put(&rt, &map, "Sam", "Forward");
    for (asked, gone) in [("Goalie", None), ("Forward", Some(("Sam", "Forward")))] {
        is(&rt, map.contains_key(&rt, &"Sam"), true);
        is(
            &rt,
            map.remove_if(&rt, &"Sam", |_, role| *role == asked),
            gone,
        );
    }
    is(&rt, map.contains_key(&rt, &"Sam"), false);
}

#[test]
fn room_is_made(rt: HostRuntime) {
    let made = DashMap::<u64, u64>::with_capacity(rt.alloc(), 0, 1);
    let mut map = made.expect(&rt, "refused");
    is(&rt, map.capacity(&rt), 0);
    is(&rt, map.try_reserve(10), Ok(()));
    is(&rt, map.capacity(&rt) >= 10, true);
    put(&rt, &map, 1, 1);
    is(&rt, map.try_reserve(usize::MAX), Err(TryReserveError {}));
    has(&rt, &map, 1, Some(1));
}

// Finds a shrink that passes over shards with pairs.
#[test]
fn shards_with_pairs_shrink(rt: HostRuntime) {
    let mut map = map_of_four(&rt, rt.alloc());
    for key in 0..8 {
        put(&rt, &map, key, key);
    }
    is(&rt, map.try_reserve(100), Ok(()));
    for shard in map.shards() {
        is(&rt, shard.read(&rt).capacity() >= 102, true);
    }
    map.shrink_to_fit(&rt);
    for shard in map.shards() {
        let shard = shard.read(&rt);
        is(&rt, (shard.len(), shard.capacity()), (2, 14));
    }
    for key in 0..8 {
        has(&rt, &map, key, Some(key));
    }
}

#[test]
fn clear_keeps_the_room(rt: HostRuntime) {
    let map = map_of_four(&rt, rt.alloc());
    for key in 0..100 {
        put(&rt, &map, key, key);
    }
    let room = map.capacity(&rt);
    map.clear(&rt);
    is(&rt, (map.len(&rt), map.capacity(&rt)), (0, room));
}

// Takes a pair of equal numbers out, and says whether it was there.
fn take<R: Wait + Clock, S: BuildHasher>(rt: &R, map: &DashMap<u64, u64, S>, key: u64) -> bool {
    map.remove(rt, &key) == Some((key, key))
}

#[test]
fn one_shard_may_have_all_keys(rt: HostRuntime) {
    let made = DashMap::<u64, u64, _>::with_hasher_and_shard_amount(rt.alloc(), ZeroState, 4);
    let map = made.expect(&rt, "refused");
    for key in 0..200u64 {
        is(&rt, map.determine_map(&key), 0);
        put(&rt, &map, key, key);
    }
    is(&rt, map.len(&rt), 200);
    for key in 0..200 {
        has(&rt, &map, key, Some(key));
    }
    for half in 0..100u64 {
        is(&rt, take(&rt, &map, 2 * half), true);
        is(&rt, take(&rt, &map, 2 * half), false);
    }
    for half in 0..100u64 {
        let key = 2 * half;
        has(&rt, &map, key, None);
        has(&rt, &map, key + 1, Some(key + 1));
    }
    is(&rt, map.len(&rt), 100);
    for key in 200..300 {
        put(&rt, &map, key, key);
    }
    for half in 0..100u64 {
        has(&rt, &map, 2 * half + 1, Some(2 * half + 1));
        has(&rt, &map, half + 200, Some(half + 200));
    }
    is(&rt, map.len(&rt), 200);
}

// A value that has memory of its own.
#[derive(Debug, Drop, PartialEq)]
struct Note {
    text: String,
    number: u64,
}

fn note_of(alloc: Global, number: u64) -> Result<Note, AllocError> {
    let text = format!(in alloc; "{number}")?;
    Ok(Note { text, number })
}

#[test]
fn structs_are_found_as_they_were_put(rt: HostRuntime) {
    let map = DashMap::<u64, Note>::new(rt.alloc(), 1).expect(&rt, "refused");
    for i in 0..10 {
        put(&rt, &map, i, note_of(rt.alloc(), i).expect(&rt, "refused"));
    }
    for i in 0..10 {
        let found = map.get(&rt, &i).expect(&rt, "no pair");
        let note = note_of(rt.alloc(), i).expect(&rt, "refused");
        is(&rt, &*found, &note);
    }
}

#[test]
fn a_random_hasher_finds_each_key(rt: HostRuntime) {
    let hasher = RandomState::new(&rt).expect(&rt, "refused");
    let map = DashMap::<u64, u64, _>::with_hasher(rt.alloc(), hasher, 1).expect(&rt, "refused");
    for i in 0..10 {
        put(&rt, &map, i, i);
    }
    for i in 0..10 {
        has(&rt, &map, i, Some(i));
    }
}

// Sixteen keys of its own for each thread. A refusal passes as want of memory.
fn insert_all<R: Wait + Clock>(
    rt: &R,
    map: &Arc<DashMap<u64, u64, PlaceState>, Global>,
    thread: u64,
) -> Result<(), AllocError> {
    for i in 0..16u64 {
        map.insert(rt, thread.wrapping_mul(16).wrapping_add(i), thread)?;
    }
    Ok(())
}

#[test]
fn four_threads_share_a_map(rt: HostRuntime) {
    let map = map_of_four::<u64>(&rt, rt.alloc());
    let map = Arc::new(rt.alloc(), map).expect(&rt, "refused");
    let mut threads = [0, 1, 2, 3];
    thread::for_each_mut(
        &rt,
        threads.as_mut_slice(),
        4,
        &|_, thread: &mut u64| drop(insert_all(&rt, &map, *thread)),
    );
    for key in 0..64 {
        has(&rt, &map, key, Some(key / 16));
    }
    is(&rt, map.len(&rt), 64);
}

#[test]
fn the_list_for_shared_calls(rt: HostRuntime) {
    let map = map_of_four(&rt, rt.alloc());
    for (key, value) in [(0, 5u64), (4, 9), (1, 2)] {
        put(&rt, &map, key, value);
    }
    for key in [4, 8] {
        map.alter(&rt, &key, |_, value| value.wrapping_add(1));
    }
    is(&rt, map.remove_if(&rt, &0, |_, value| *value < 5), None);
    let more_but_no = |_: &u64, value: &mut u64| {
        *value = value.wrapping_add(1);
        false
    };
    is(&rt, map.remove_if_mut(&rt, &1, more_but_no), None);
    has(&rt, &map, 1, Some(3));
    add_one(&rt, &map);
    is(&rt, keep_above(&rt, &map, 5), 2);
    has(&rt, &map, 1, None);
    is(&rt, map.remove(&rt, &4), Some((4, 11)));
    has(&rt, &map, 0, Some(6));
    map.clear(&rt);
    is(&rt, map.is_empty(&rt), true);
}

#[test]
fn names_with_numbers(rt: HostRuntime) {
    let map = DashMap::<&str, u64>::new(rt.alloc(), 1).expect(&rt, "refused");
    put(&rt, &map, "Wins", 4);
    put(&rt, &map, "Losses", 2);
    add_one(&rt, &map);
    put(&rt, &map, "Goals", 4);
    map.alter(&rt, &"Goals", |_, goals| goals.wrapping_mul(2));
    for (key, value) in [("Wins", 5), ("Losses", 3), ("Goals", 8)] {
        has(&rt, &map, key, Some(value));
    }
    names_with_ages(&rt, &map);
    map.shrink_to_fit(&rt);
    is(&rt, (map.len(&rt), map.capacity(&rt)), (0, 0));
}

// Who is older than twenty stays until he is removed.
fn names_with_ages<R: Abort + Wait + Clock>(rt: &R, map: &DashMap<&str, u64>) {
    for (name, age) in [("Albin", 15), ("Jones", 22), ("Charlie", 27)] {
        put(rt, map, name, age);
    }
    is(rt, keep_above(rt, map, 20), 2);
    has(rt, map, "Albin", None);
    put(rt, map, "Johnny", 21);
    for (name, age) in [("Jones", 22), ("Charlie", 27), ("Johnny", 21)] {
        is(rt, map.remove(rt, &name), Some((name, age)));
    }
}
