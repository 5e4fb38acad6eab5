//! A walk over a map that threads share: rising shards, each pair once, and which shard it holds.
use crate::tests::checks::{is, prints};
use crate::tests::maps::{Places, is_held, map_of, put, three_pairs};
use dash_map::iter::Iter;
use dash_map::t::Map;
use dash_ref::mapref::multiple::RefMulti;
use dash_shard::hash::PlaceState;
use std::alloc::{AllocError, Global};
use std::hash::{BuildHasher, Hash};
use std::process::Abort;
use std::rt::Clock;
use std::sync::Wait;

type Item<'a> = RefMulti<'a, u64, u64, PlaceState>;

// What a walk gives next.
fn next_of<'a, R: Abort + Wait + Clock>(
    rt: &R,
    walk: &mut Iter<'a, u64, u64, PlaceState, R>,
) -> Item<'a> {
    walk.next().expect(rt, "no pair").expect(rt, "refused")
}

// All that a walk gives, held at once.
fn held_items<'a, K: Eq + Hash, V, S: BuildHasher, R: Wait + Clock>(
    alloc: Global,
    walk: Iter<'a, K, V, S, R>,
) -> Result<Vec<RefMulti<'a, K, V, S>>, AllocError> {
    let mut held = Vec::new(alloc);
    for item in walk {
        held.push(item?)?;
    }
    Ok(held)
}

#[test]
fn gives_each_pair_by_rising_shard(rt: HostRuntime) {
    let map = map_of(&rt, rt.alloc(), []);
    for key in 0..8u64 {
        put(&rt, &map, key, key);
    }
    let (mut shards, mut keys) = (0u64, 0u64);
    for item in &held_items(rt.alloc(), map.iter(&rt)).expect(&rt, "refused") {
        shards = shards.wrapping_mul(10).wrapping_add(*item.key() % 4);
        keys |= 1 << (*item.key() % 64);
    }
    is(&rt, (shards, keys), (112_233, 255));
}

// The copy begins anew, where the walk goes on.
#[test]
fn a_cloned_walk(rt: HostRuntime) {
    let map = three_pairs(&rt, rt.alloc());
    let mut walk = map._iter(&rt);
    let first = next_of(&rt, &mut walk);
    let copy = walk.clone().expect(&rt, "refused");
    is(&rt, *next_of(&rt, &mut walk), 10);
    let copies = held_items(rt.alloc(), copy).expect(&rt, "refused");
    prints(
        &rt,
        rt.alloc(),
        &copies,
        "[RefMulti { k: 0, v: 5 }, RefMulti { k: 1, v: 10 }, RefMulti { k: 3, v: 30 }]",
    );
    drop(copies);
    drop(walk);
    drop(first);
    is(&rt, put(&rt, &map, 1, 11), Some(10));
}

// Whether somebody holds the shards 0, 1 and 3.
fn are_held(map: &Places) -> (bool, bool, bool) {
    (is_held(map, 0), is_held(map, 1), is_held(map, 3))
}

#[test]
fn holds_the_shard_that_it_is_in(rt: HostRuntime) {
    let map = three_pairs(&rt, rt.alloc());
    let mut walk = map.iter(&rt);
    is(&rt, are_held(&map), (false, false, false));
    let first = next_of(&rt, &mut walk);
    is(&rt, are_held(&map), (true, false, false));
    let second = next_of(&rt, &mut walk);
    is(&rt, are_held(&map), (true, true, false));
    drop(first);
    is(&rt, are_held(&map), (false, true, false));
    drop(second);
    is(&rt, are_held(&map), (false, true, false));
    is(&rt, *next_of(&rt, &mut walk), 30);
    for _ in 0..2 {
        is(&rt, walk.next().is_none(), true);
        is(&rt, are_held(&map), (false, false, true));
    }
    drop(walk);
    is(&rt, are_held(&map), (false, false, false));
}

#[test]
fn folds_beside_a_reference(rt: HostRuntime) {
    let map = three_pairs(&rt, rt.alloc());
    let found = map.get(&rt, &1).expect(&rt, "no pair");
    let digits = |digits: u64, key: &u64, _: &u64| digits.wrapping_mul(10).wrapping_add(*key);
    is(&rt, map.fold(&rt, 1, digits), 1013);
    let mut sum = 0u64;
    map.for_each(&rt, |_, value| sum = sum.wrapping_add(*value));
    is(&rt, (sum, *found), (45, 10));
    drop(found);
    let view = map.into_read_only();
    is(&rt, view.fold(1, digits), 1013);
    view.for_each(|_, value| sum = sum.wrapping_add(*value));
    is(&rt, sum, 90);
}
