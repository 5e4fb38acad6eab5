//! Where a walk ends, or goes on, its hold of a shard ends too, and with a leaked guard it stays.
use crate::tests::checks::is;
use crate::tests::maps::{Places, is_held, is_written, map_of, three_pairs};
use dash_map::iter::Iter;
use dash_map::t::Map as _;
use dash_ref::mapref::multiple::RefMulti;
use dash_shard::hash::PlaceState;
use std::mem;
use std::process::Abort;
use std::rt::Clock;
use std::sync::Wait;

// What a walk gives next.
fn next_of<'a, R: Abort + Wait + Clock>(
    rt: &R,
    walk: &mut Iter<'a, u64, u64, PlaceState, R>,
) -> RefMulti<'a, u64, u64, PlaceState> {
    walk.next().expect(rt, "no pair").expect(rt, "refused")
}

// Whether somebody holds each of the four shards.
fn are_held(map: &Places) -> [bool; 4] {
    [0, 1, 2, 3].map(|key| is_held(map, key))
}

// Finds a walk that keeps the hold of a shard that it left, and one that keeps its hold when it is dropped. At its end it has the last shard.
#[test]
fn a_walk_gives_its_hold_back(rt: HostRuntime) {
    let map = map_of(&rt, rt.alloc(), [(0, 5), (4, 6), (1, 10), (3, 30)]);
    let mut walk = map.iter(&rt);
    for held in [0, 0, 1, 3] {
        drop(next_of(&rt, &mut walk));
        is(
            &rt,
            are_held(&map),
            [held == 0, held == 1, false, held == 3],
        );
    }
    drop(walk);
    is(&rt, are_held(&map), [false; 4]);
    let mut walk = map.iter(&rt);
    drop(next_of(&rt, &mut walk));
    drop(walk);
    is(&rt, are_held(&map), [false; 4]);
    let mut walk = map.iter(&rt);
    for _ in 0..4 {
        drop(next_of(&rt, &mut walk));
    }
    is(&rt, walk.next().is_none(), true);
    is(&rt, are_held(&map), [false, false, false, true]);
    drop(walk);
    is(&rt, are_held(&map), [false; 4]);
}

// Finds a reference that keeps its shard, or that gives it up while another of the same shard is there.
#[test]
fn the_last_reference_gives_the_hold_back(rt: HostRuntime) {
    let map = map_of(&rt, rt.alloc(), [(0, 5), (4, 6), (1, 10)]);
    let mut walk = map.iter(&rt);
    let first = next_of(&rt, &mut walk);
    let second = next_of(&rt, &mut walk);
    drop(walk);
    is(&rt, are_held(&map), [true, false, false, false]);
    drop(first);
    is(&rt, are_held(&map), [true, false, false, false]);
    is(&rt, is_written(&map, 0), false);
    drop(second);
    is(&rt, are_held(&map), [false; 4]);
}

// Finds a call that keeps a shard when it returns.
#[test]
fn calls_on_all_pairs_give_their_holds_back(rt: HostRuntime) {
    let mut map = three_pairs(&rt, rt.alloc());
    let mut sum = 0u64;
    map.for_each(&rt, |_, value| sum = sum.wrapping_add(*value));
    is(&rt, (sum, are_held(&map)), (45, [false; 4]));
    is(
        &rt,
        map.fold(&rt, 0, |sum: u64, _, value| sum.wrapping_add(*value)),
        45,
    );
    is(&rt, are_held(&map), [false; 4]);
    map.alter_all(&rt, |_, value| value);
    map.retain(&rt, |_, _| true);
    map.shrink_to_fit(&rt);
    is(&rt, are_held(&map), [false; 4]);
    is(&rt, map.pairs(&rt).expect(&rt, "refused").len(), 3);
    is(&rt, map.clone(&rt).expect(&rt, "refused").len(&rt), 3);
    is(&rt, are_held(&map), [false; 4]);
    map.try_reserve(1).expect(&rt, "refused");
    map.clear(&rt);
    is(&rt, are_held(&map), [false; 4]);
}

// Finds a hold that ends though what has it was leaked.
#[test]
fn leaked_guards_keep_their_shards(rt: HostRuntime) {
    let map = three_pairs(&rt, rt.alloc());
    mem::forget(map.get(&rt, &0));
    is(&rt, are_held(&map), [true, false, false, false]);
    mem::forget(map.get_mut(&rt, &1));
    mem::forget(map.entry(&rt, 2).expect(&rt, "refused"));
    is(&rt, are_held(&map), [true, true, true, false]);
    let written = [0, 1, 2, 3].map(|key| is_written(&map, key));
    is(&rt, written, [false, true, true, false]);
    let mut pairs = 0u64;
    for pair in map {
        drop(pair);
        pairs = pairs.wrapping_add(1);
    }
    is(&rt, pairs, 3);

    let map = three_pairs(&rt, rt.alloc());
    mem::forget(next_of(&rt, &mut map.iter(&rt)));
    assert!(rt; 2 < map._shard_count());
    mem::forget(map._yield_write_shard(&rt, 1));
    mem::forget(map._yield_read_shard(&rt, 2));
    is(&rt, are_held(&map), [true, true, true, false]);
    is(&rt, is_written(&map, 2), false);
    is(&rt, map.into_read_only().len(), 3);
}
