//! Sets that threads share, and of one owner.
use crate::tests::checks::{is, prints};
use dashmap::hash::{FixedState, PlaceState};
use dashmap::iter_set::Iter;
use dashmap::set::AloneSet;
use dashmap::{DashSet, TryReserveError};
use std::alloc::Global;
use std::process::Abort;
use std::rt::Clock;
use std::sync::Wait;
use std::thread;

type Keys = DashSet<u64>;

// Sets where the key k of four shards goes to shard k modulo 4.
type Places = DashSet<u64, PlaceState>;

// The keys that a walk gives, sorted.
fn walked<R: Abort + Wait + Clock>(
    rt: &R,
    alloc: Global,
    walk: Iter<'_, u64, PlaceState, R>,
) -> Vec<u64> {
    let mut keys = Vec::new(alloc);
    for key in walk {
        keys.push(*key.expect(rt, "refused").key())
            .expect(rt, "refused");
    }
    keys.sort_unstable();
    keys
}

#[test]
fn a_set_of_a_list(rt: HostRuntime) {
    let list = vec![in rt.alloc(); 1, 5, 2].expect(&rt, "refused");
    let mut set = Places::from_iter(rt.alloc(), list, 1).expect(&rt, "refused");
    is(&rt, set.contains(&rt, &5), true);
    is(&rt, set.remove_if(&rt, &5, |_| false), None);
    is(&rt, set.remove_if(&rt, &1, |_| true), Some(1));
    set.extend(9..10).expect(&rt, "refused");
    is(&rt, set.len(&rt), 3);
    prints(
        &rt,
        rt.alloc(),
        &walked(&rt, rt.alloc(), set.iter(&rt)),
        "[2, 5, 9]",
    );
    let copy = set.clone(&rt).expect(&rt, "refused");
    set.clear(&rt);
    is(&rt, set.is_empty(&rt), true);
    prints(
        &rt,
        rt.alloc(),
        &walked(&rt, rt.alloc(), copy.iter(&rt)),
        "[2, 5, 9]",
    );
}

#[test]
fn twice(rt: HostRuntime) {
    let set = Keys::new(rt.alloc(), 1).expect(&rt, "refused");
    for new in [true, false] {
        for i in 0..100 {
            is(&rt, set.insert(&rt, i), Ok(new));
        }
    }
    for there in [true, false] {
        for i in 0..100 {
            is(&rt, set.remove(&rt, &i), there.then_some(i));
        }
    }
}

#[test]
fn retain(rt: HostRuntime) {
    let set = DashSet::<&str>::with_capacity(rt.alloc(), 3, 1).expect(&rt, "refused");
    is(&rt, set.capacity(&rt) >= 3, true);
    for name in ["Albin", "Jones", "Charlie"] {
        is(&rt, set.insert(&rt, name), Ok(true));
    }
    set.retain(&rt, |name| name.contains('i'));
    is(&rt, set.len(&rt), 2);
    is(&rt, set.contains(&rt, &"Jones"), false);
    set.clear(&rt);
    set.shrink_to_fit(&rt);
    is(&rt, set.capacity(&rt), 0);
}

#[test]
fn get(rt: HostRuntime) {
    let set = Keys::default(rt.alloc(), 1).expect(&rt, "refused");
    is(&rt, set.insert(&rt, 0), Ok(true));
    let found = set.get(&rt, &0).expect(&rt, "no key");
    is(&rt, (*found, *found.key()), (0, 0));
    is(&rt, set.get(&rt, &1).is_none(), true);
}

#[test]
fn prints_its_keys_with_nothing_beside(rt: HostRuntime) {
    let set = Keys::new(rt.alloc(), 1).expect(&rt, "refused");
    prints(&rt, rt.alloc(), &set.waiting(&rt), "{}");
    is(&rt, set.insert(&rt, 7), Ok(true));
    prints(&rt, rt.alloc(), &set.waiting(&rt), "{7: ()}");
}

#[test]
fn clear_keeps_the_room(rt: HostRuntime) {
    let set = Keys::new(rt.alloc(), 1).expect(&rt, "refused");
    for key in 0..100 {
        is(&rt, set.insert(&rt, key), Ok(true));
    }
    let room = set.capacity(&rt);
    is(&rt, room >= 100, true);
    set.clear(&rt);
    is(&rt, (set.len(&rt), set.capacity(&rt)), (0, room));
}

#[test]
fn places_of_keys(rt: HostRuntime) {
    let set = Places::with_hasher(rt.alloc(), PlaceState, 1).expect(&rt, "refused");
    is(&rt, set.shards().len(), 4);
    is(&rt, set.determine_map(&6), 2);
    is(&rt, set.determine_shard(set.hash_usize(&7u64)), 3);
    for key in [3, 6, 1] {
        is(&rt, set.insert(&rt, key), Ok(true));
    }
    let copy = set.iter(&rt).clone().expect(&rt, "refused");
    prints(&rt, rt.alloc(), &walked(&rt, rt.alloc(), copy), "[1, 3, 6]");
    let digits = |digits: u64, key: &u64| digits.wrapping_mul(10).wrapping_add(*key);
    is(&rt, set.fold(&rt, 0, digits), 163);
    let mut sum = 0u64;
    set.for_each(&rt, |key| sum = sum.wrapping_add(*key));
    is(&rt, sum, 10);
    is(&rt, set.into_iter().next(), Some(1));
}

#[test]
fn of_one_owner(rt: HostRuntime) {
    let made = AloneSet::<u64, PlaceState>::from_iter(rt.alloc(), 3..4, 1);
    let mut set = made.expect(&rt, "refused");
    is(&rt, set.insert(1), Ok(true));
    is(&rt, set.get(&3), Some(&3));
    is(&rt, set.iter().last(), Some(&3));
    is(&rt, set.remove_if(&3, |_| false), None);
    set.extend(4..8).expect(&rt, "refused");
    set.retain(|key| *key != 6);
    is(
        &rt,
        (set.len(), set.contains(&6), set.remove(&7)),
        (5, false, Some(7)),
    );
    let mut set = set.end().alone();
    set.clear();
    is(&rt, set.is_empty(), true);
    is(&rt, set.into_iter().last(), None);
}

#[test]
fn room_of_one_owner(rt: HostRuntime) {
    let made = AloneSet::<u64, PlaceState>::from_iter(rt.alloc(), 0..4, 1);
    let mut set = made.expect(&rt, "refused");
    is(&rt, set.try_reserve(100), Ok(()));
    is(&rt, set.capacity() >= 404, true);
    is(&rt, set.try_reserve(usize::MAX), Err(TryReserveError {}));
    set.shrink_to_fit();
    is(&rt, (set.len(), set.capacity()), (4, 56));
}

#[test]
fn asks_the_system_for_its_processors(rt: HostRuntime) {
    let set = Keys::of(&rt).expect(&rt, "refused");
    let processors = thread::available_parallelism(&rt)
        .expect(&rt, "unknown")
        .get();
    let told = Keys::new(rt.alloc(), processors).expect(&rt, "refused");
    is(&rt, set.shards().len(), told.shards().len());
}

// Finds a set whose shards somebody holds though nobody does, as those without keys, or the last.
#[test]
fn each_shard_without_keys_is_free(rt: HostRuntime) {
    let set = Keys::with_hasher(rt.alloc(), FixedState, 16).expect(&rt, "refused");
    is(&rt, set.contains(&rt, &1), false);
    set.for_each(&rt, |_| ());
    set.clear(&rt);
    is(&rt, (set.len(&rt), set.shards().len()), (0, 64));
    for lock in set.shards() {
        is(&rt, lock.try_read().is_some(), true);
        is(&rt, lock.try_write().is_some(), true);
    }
}

#[test]
fn a_caller_calls_the_set(rt: HostRuntime) {
    let set = Places::with_hasher(rt.alloc(), PlaceState, 1).expect(&rt, "refused");
    let mut set = set.caller(&rt);
    for (key, new) in [(1, true), (5, true), (1, false), (2, true)] {
        is(&rt, set.insert(key), Ok(new));
    }
    is(&rt, set.get(&5).map(|found| *found.key()), Some(5));
    is(&rt, (set.contains(&2), set.contains(&3)), (true, false));
    is(&rt, set.remove_if(&5, |_| false), None);
    is(&rt, set.remove(&5), Some(5));
    is(&rt, set.fold(0, |sum: u64, key| sum.wrapping_add(*key)), 3);
    let mut walked = 0u64;
    for key in set.iter() {
        walked = walked.wrapping_add(*key.expect(&rt, "refused").key());
    }
    is(&rt, (walked, set.len(), set.is_empty()), (3, 2, false));
    set.retain(|key| *key == 2);
    is(&rt, (set.len(), set.contains(&2)), (1, true));
    set.clear();
    set.shrink_to_fit();
    is(&rt, (set.len(), set.capacity()), (0, 0));
}
