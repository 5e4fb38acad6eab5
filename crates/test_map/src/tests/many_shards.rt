//! Each parallel form on a map of 64 shards, each with pairs, whatever the machine has of processors: it comes to each shard, once.
use crate::tests::checks::is;
use dash_map::map::DashMap;
use dash_steps::step::ShardStep;
use std::alloc::Global;
use std::process::Abort;
use std::rt::Clock;
use std::sync::Wait;

type Map = DashMap<u64, u64>;

// So many pairs that each of 64 shards has some.
const PAIRS: u64 = 1_000;

fn map_of_many(rt: &impl Abort, alloc: Global) -> Map {
    Map::with_shard_amount(alloc, 64).expect(rt, "refused")
}

// A pair for each key, with the key's number and this one more as its value.
fn pairs(rt: &impl Abort, alloc: Global, more: u64) -> Vec<(u64, u64)> {
    (0..PAIRS)
        .map(|key| (key, key.saturating_add(more)))
        .collect::<Vec<(u64, u64)>>(alloc)
        .expect(rt, "refused")
}

// Ends the test where these are other pairs than `pairs` gives.
fn are_pairs(rt: &impl Abort, alloc: Global, mut found: Vec<(u64, u64)>, more: u64) {
    found.sort_unstable();
    is(rt, found.as_slice(), pairs(rt, alloc, more).as_slice());
}

// The same of a map, all of whose shards have some.
fn has_pairs<R: Abort + Wait + Clock>(rt: &R, alloc: Global, map: &Map, more: u64) {
    for lock in map.shards() {
        is(rt, lock.read(rt).len() > 0, true);
    }
    are_pairs(rt, alloc, map.pairs(rt).expect(rt, "refused"), more);
}

// Finds a form whose workers pass over a shard beyond the sixteenth, or come to it twice.
#[test]
fn lists_come_to_each_shard(rt: HostRuntime) {
    for workers in [1, 5, 64] {
        let mut map = map_of_many(&rt, rt.alloc());
        map.par_extend(&rt, pairs(&rt, rt.alloc(), 0), workers)
            .expect(&rt, "refused");
        has_pairs(&rt, rt.alloc(), &map, 0);
        map.par_extend_shared(&rt, pairs(&rt, rt.alloc(), 1), workers)
            .expect(&rt, "refused");
        has_pairs(&rt, rt.alloc(), &map, 1);
        let steps = (0..PAIRS)
            .map(|key| ShardStep::Insert(key, key.saturating_add(2)))
            .collect::<Vec<ShardStep<u64, u64>>>(rt.alloc())
            .expect(&rt, "refused");
        let outcome = map.par_run(&rt, steps, workers);
        is(&rt, (outcome.fault, outcome.replies.len()), (None, 1_000));
        has_pairs(&rt, rt.alloc(), &map, 2);
    }
    let made = Map::from_par_iter(&rt, rt.alloc(), pairs(&rt, rt.alloc(), 0), 16, 5);
    let map = made.expect(&rt, "refused");
    is(&rt, map.shards().len(), 64);
    has_pairs(&rt, rt.alloc(), &map, 0);
}

// The same of walks.
#[test]
fn walks_come_to_each_shard(rt: HostRuntime) {
    let mut map = map_of_many(&rt, rt.alloc());
    map.extend(pairs(&rt, rt.alloc(), 0)).expect(&rt, "refused");
    let one_more = |_: &u64, value: &mut u64| {
        *value = value.saturating_add(1);
    };
    map.par_iter_mut().for_each(&rt, one_more);
    has_pairs(&rt, rt.alloc(), &map, 1);
    map.into_par_iter_mut().for_each(&rt, one_more);
    has_pairs(&rt, rt.alloc(), &map, 2);
    let pair_of = |key: &u64, value: &u64| (*key, *value);
    let found = map.par_iter().map_collect(&rt, pair_of);
    are_pairs(&rt, rt.alloc(), found.expect(&rt, "refused"), 2);
    let view = map.clone(&rt).expect(&rt, "refused").into_read_only();
    let found = view.par_iter().map_collect(&rt, pair_of);
    are_pairs(&rt, rt.alloc(), found.expect(&rt, "refused"), 2);
    let found = view.into_par_iter().collect(&rt);
    are_pairs(&rt, rt.alloc(), found.expect(&rt, "refused"), 2);
    let found = map.into_par_iter().collect(&rt);
    are_pairs(&rt, rt.alloc(), found.expect(&rt, "refused"), 2);
}
