//! Walks that write: over a map of one owner, and over one that threads share, which show the shard that they hold.
use crate::tests::checks::is;
use crate::tests::maps::{Places, add_one, is_written, map_of, put, value_of};
use dash_map::alone::Alone;
use dash_shard::hash::PlaceState;

// As `add_one`, of a map of one owner.
fn add_one_alone(map: &mut Alone<u64, u64, PlaceState>) -> u64 {
    let mut walk = map.iter_mut();
    let mut lent = 0u64;
    for _ in 0..10 {
        if let Some(value) = walk.next_mut() {
            *value = value.wrapping_add(1);
            lent = lent.wrapping_add(1);
        }
    }
    lent
}

#[test]
fn lends_each_value_once(rt: HostRuntime) {
    let map = map_of(&rt, rt.alloc(), []);
    for key in 0..9u64 {
        put(&rt, &map, key, key);
    }
    is(&rt, add_one(&rt, &map), 9);
    let mut alone = map.alone();
    is(&rt, add_one_alone(&mut alone), 9);
    for key in 0..9u64 {
        is(&rt, alone.get(&key), Some((&key, &key.wrapping_add(2))));
    }
}

#[test]
fn an_item_of_an_alone(rt: HostRuntime) {
    let mut alone = map_of(&rt, rt.alloc(), [(1, 10u64)]).alone();
    let mut walk = alone.iter_mut();
    if walk.advance() {
        let mut pair = walk.item_mut();
        *pair = pair.wrapping_add(*pair.key());
        let (key, value) = pair.pair_mut();
        *value = value.wrapping_add(*key);
    }
    is(&rt, alone.get(&1), Some((&1, &12)));
}

// Whether somebody writes in the shards 0, 2 and 3.
fn are_written(map: &Places) -> (bool, bool, bool) {
    (is_written(map, 0), is_written(map, 2), is_written(map, 3))
}

#[test]
fn holds_the_shard_that_it_is_in(rt: HostRuntime) {
    let map = map_of(&rt, rt.alloc(), [(0, 5), (2, 20)]);
    let mut walk = map.iter_mut(&rt);
    is(&rt, are_written(&map), (false, false, false));
    if let Some(value) = walk.next_mut() {
        *value = 6;
    }
    is(&rt, are_written(&map), (true, false, false));
    is(&rt, walk.advance(), true);
    is(&rt, are_written(&map), (false, true, false));
    is(&rt, value_of(&rt, &map, 0), Some(6));
    is(&rt, walk.advance(), false);
    is(&rt, are_written(&map), (false, false, true));
    drop(walk);
    is(&rt, are_written(&map), (false, false, false));
    is(&rt, value_of(&rt, &map, 2), Some(20));
}
