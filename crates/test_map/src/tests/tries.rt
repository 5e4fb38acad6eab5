//! References that may be written, and calls that wait for nobody.
use crate::tests::checks::{is, prints};
use crate::tests::maps::{Places, add_one, is_held, is_written, map_of, put, tried, value_of};
use dash_map::map::DashMap;
use dash_map::t::Map as _;
use dash_ref::mapref::one::{First, RefMut};
use dash_ref::try_result::TryResult;
use dash_ref::util::SharedValue;
use dash_shard::hash::PlaceState;
use std::mem;
use std::process::Abort;
use std::rt::Clock;
use std::sync::Wait;

type Ages = DashMap<&'static str, u64>;

// Adds 1 to the age of somebody whose shard nobody holds.
fn grow_older(rt: &impl Abort, ages: &Ages, name: &'static str) {
    let mut age = ages.try_get_mut(&name).try_unwrap().expect(rt, "no pair");
    *age = age.wrapping_add(1);
}

// How many pairs the shards have, each held for writing.
fn count_shards<R: Wait + Clock>(rt: &R, ages: &Ages) -> usize {
    let mut count = 0usize;
    for lock in ages.shards() {
        count = count.saturating_add(lock.write(rt).iter().count());
    }
    count
}

#[test]
fn johnny_is_21(rt: HostRuntime) {
    let ages = Ages::with_shard_amount(rt.alloc(), 4).expect(&rt, "refused");
    put(&rt, &ages, "Johnny", 21);
    is(&rt, tried(&ages, "Johnny").try_unwrap(), Some(21));
    let held = ages.get_mut(&rt, &"Johnny");
    is(&rt, is_written(&ages, "Johnny"), true);
    drop(held);

    grow_older(&rt, &ages, "Johnny");
    let held = ages.get(&rt, &"Johnny").expect(&rt, "no pair");
    is(&rt, (*held, is_held(&ages, "Johnny")), (22, true));
    drop(held);

    put(&rt, &ages, "Johnny", 21);
    is(&rt, add_one(&rt, &ages), 1);
    is(&rt, value_of(&rt, &ages, "Johnny"), Some(22));
    is(&rt, count_shards(&rt, &ages), 1);
    is(&rt, ages.into_shards().len(), 4);
}

// A reference for writing, once 11 was written by it.
fn write_eleven<'a, R: Abort + Wait + Clock>(
    rt: &R,
    map: &'a Places,
) -> RefMut<'a, u64, u64, PlaceState> {
    let mut found = map.get_mut(rt, &1).expect(rt, "no pair");
    *found = 11;
    found
}

#[test]
fn a_reference_goes_on_as_one_that_reads(rt: HostRuntime) {
    let map = map_of(&rt, rt.alloc(), [(1, 10)]);
    let found = write_eleven(&rt, &map);
    prints(&rt, rt.alloc(), &found, "RefMut { k: 1, v: 11 }");
    is(&rt, is_written(&map, 1), true);
    let found = found.downgrade();
    is(&rt, (is_written(&map, 1), is_held(&map, 1)), (false, true));
    is(&rt, *found, 11);
    prints(&rt, rt.alloc(), &found, "Ref { k: 1, v: 11 }");
    drop(found);
    is(&rt, is_held(&map, 1), false);
    is(&rt, map.into_iter().next(), Some((1, 11)));
}

#[test]
fn a_leaked_reference_leaves_the_pairs(rt: HostRuntime) {
    let map = map_of(&rt, rt.alloc(), [(1, 10), (5, 50)]);
    mem::forget(write_eleven(&rt, &map));
    is(&rt, is_written(&map, 5), true);
    let view = map.into_read_only();
    is(&rt, (view.get(&1), view.get(&5)), (Some(&11), Some(&50)));
}

// A shard without pairs has no memory of its own, and is no held one for that.
#[test]
fn a_sum_over_all_shards_gives_up_its_holds(rt: HostRuntime) {
    let map = map_of(&rt, rt.alloc(), []);
    for pairs in [0, 4] {
        for key in 0..pairs {
            put(&rt, &map, key, key);
        }
        is(&rt, map.len(&rt) as u64, pairs);
        is(&rt, map.is_empty(&rt), pairs == 0);
        is(&rt, map.capacity(&rt) as u64, pairs * 14);
        for key in 0..4u64 {
            is(&rt, (key, is_held(&map, key)), (key, false));
        }
    }
}

#[test]
fn held_pairs(rt: HostRuntime) {
    let map = map_of(&rt, rt.alloc(), [(0, 10), (1, 11)]);
    let held = map.get_mut(&rt, &0);
    for (key, answer) in [(0, "Locked"), (1, "Present(11)"), (5, "Absent")] {
        prints(&rt, rt.alloc(), &tried(&map, key), answer);
    }
    is(&rt, put(&rt, &map, 1, 12), Some(11));
    drop(held);

    let held = map.get(&rt, &0);
    is(&rt, map.get(&rt, &0).is_some(), true);
    is(&rt, (map.contains_key(&rt, &0), map.len(&rt)), (true, 2));
    is(&rt, is_held(&map, 0), true);
    drop(held);
}

// Each of these holds shards for reading, so it returns beside a reference that reads.
#[test]
fn readers_go_beside_a_reference(rt: HostRuntime) {
    let map = map_of(&rt, rt.alloc(), [(0, 10), (1, 11)]);
    let held = map.get(&rt, &0).expect(&rt, "no pair");
    is(&rt, value_of(&rt, &map, 0), Some(10));
    is(&rt, (map.is_empty(&rt), map.capacity(&rt)), (false, 28));
    is(&rt, map.clone(&rt).expect(&rt, "refused").len(&rt), 2);
    is(&rt, map.pairs(&rt).expect(&rt, "refused").len(), 2);
    let values = map
        .par_iter()
        .map_collect(&rt, |_: &u64, value: &u64| *value);
    is(&rt, values.expect(&rt, "refused").len(), 2);
    is(&rt, *held, 10);
}

// A reference to a pair, or to a part of its value, hands its shard on, held.
#[test]
fn a_held_shard_is_handed_on(rt: HostRuntime) {
    let map = map_of(&rt, rt.alloc(), [(1, (10, 11)), (5, (50, 51))]);
    let mut found = map.get_mut(&rt, &1).expect(&rt, "no pair");
    found.0 = 12;
    let shard = found.into_shard();
    is(&rt, shard.get(&1), Some((&1, &(12, 11))));
    is(&rt, map.try_get(&5).is_locked(), true);
    drop(shard);
    let found = map.get_mut(&rt, &1).expect(&rt, "no pair");
    is(&rt, found.map(First).into_shard().len(), 2);
    is(&rt, map.try_get(&5).is_present(), true);
    is(&rt, map.try_get(&9).is_absent(), true);
}

#[test]
fn what_is_there_is_unwrapped(rt: HostRuntime) {
    is(&rt, TryResult::Present(5u64).unwrap(), 5);
    let mut value = SharedValue::new(5u64);
    *value.get_mut() = 6;
    is(&rt, (*value.get(), value.into_inner()), (6, 6));
}

// Finds a try form that gives up though nobody has the shard, as at one without pairs, or at the last.
#[test]
fn each_shard_without_pairs_is_free(rt: HostRuntime) {
    for amount in [2, 4, 64] {
        let map = DashMap::<u64, u64>::with_shard_amount(rt.alloc(), amount).expect(&rt, "refused");
        let mut found = 0u64;
        for key in 0..1_000u64 {
            let shard = map.determine_map(&key);
            found |= 1 << (shard as u64 % 64);
            is(&rt, map.try_get(&key).is_absent(), true);
            is(&rt, map.try_get_mut(&key).is_absent(), true);
            is(&rt, map.try_entry(key).is_ok(), true);
        }
        is(&rt, found.count_ones() as usize, amount);
        for shard in 0..map._shard_count() {
            is(&rt, map._try_yield_read_shard(shard).is_some(), true);
            is(&rt, map._try_yield_write_shard(shard).is_some(), true);
        }
    }
}
