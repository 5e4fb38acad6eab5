//! Calls of a map of one owner, as worked by hand: the list that the shared calls answer alike.
use crate::tests::checks::is;
use dash_map::alone::Alone;
use dash_map::map::DashMap;
use dash_shard::hash::PlaceState;
use std::alloc::Global;
use std::process::Abort;

type Numbers = Alone<u64, u64, PlaceState>;

// A map of four shards without room, with the pairs (0, 5), (4, 9) and (1, 2).
fn three_pairs(rt: &impl Abort, alloc: Global) -> Numbers {
    let made = DashMap::with_capacity_and_hasher_and_shard_amount(alloc, 0, PlaceState, 4);
    let mut alone = made.expect(rt, "refused").alone();
    for (key, value) in [(0, 5), (4, 9), (1, 2)] {
        let old = alone.insert(key, value).expect(rt, "refused");
        is(rt, (key, old), (key, None));
    }
    alone
}

#[test]
fn the_list_for_shared_calls(rt: HostRuntime) {
    let mut alone = three_pairs(&rt, rt.alloc());
    alone.alter(&4, |_, v| v.wrapping_add(1));
    is(&rt, alone.remove_if(&0, |_, v| *v < 5), None);
    let counts_up = |_: &u64, v: &mut u64| -> bool {
        *v = v.wrapping_add(1);
        false
    };
    is(&rt, alone.remove_if_mut(&1, counts_up), None);
    is(&rt, alone.get(&1), Some((&1, &3)));
    alone.alter_all(|_, v| v.wrapping_add(1));
    alone.retain(|_, v| *v > 5);
    is(&rt, alone.contains_key(&1), false);
    is(&rt, alone.remove(&4), Some((4, 11)));
    is(&rt, alone.end().alone().get(&0), Some((&0, &6)));
}

#[test]
fn room_comes_and_goes(rt: HostRuntime) {
    let mut alone = three_pairs(&rt, rt.alloc());
    if let Some(value) = alone.get_mut(&4) {
        *value = 1;
    }
    is(&rt, alone.try_reserve(100), Ok(()));
    alone.shrink_to_fit();
    is(&rt, (alone.len(), alone.capacity()), (3, 28));
    alone.clear();
    is(&rt, alone.is_empty(), true);
}
