//! Lists of pairs and of steps, by the room that they leave, and at a length that no stack has.
use crate::tests::checks::is;
use crate::tests::maps::{Places, map_of};
use dash_map::map::DashMap;
use dash_steps::step::{Reply, ShardStep};
use std::alloc::Global;
use std::process::Abort;
use std::rt::Clock;
use std::sync::Wait;

type Map = DashMap<u64, u64>;

// Ends the test where a map of so many pairs has more than twice the room that it needs.
fn has_fitting_room<R: Abort + Wait + Clock>(rt: &R, map: &Map, pairs: u64) {
    let room = map.capacity(rt);
    map.shrink_to_fit(rt);
    let needed = map.capacity(rt);
    is(
        rt,
        (map.len(rt) as u64, room <= needed.saturating_mul(2)),
        (pairs, true),
    );
}

// Finds a size hint that each shard takes for itself, and one that is taken for more than it says.
#[test]
fn a_list_leaves_at_most_twice_the_room(rt: HostRuntime) {
    for pairs in [100u64, 1_000, 10_000, 100_000] {
        let list = (0..pairs).map(|key| (key, key));
        let mut map = Map::from_iter(rt.alloc(), list, 4).expect(&rt, "refused");
        has_fitting_room(&rt, &map, pairs);
        let more = (pairs..2 * pairs).map(|key| (key, key));
        map.extend(more).expect(&rt, "refused");
        has_fitting_room(&rt, &map, 2 * pairs);
        let list = (0..pairs)
            .map(|key| (key, key))
            .collect::<Vec<(u64, u64)>>(rt.alloc())
            .expect(&rt, "refused");
        let map = Map::from_par_iter(&rt, rt.alloc(), list, 4, 2).expect(&rt, "refused");
        has_fitting_room(&rt, &map, pairs);
    }
}

/// So many steps are more than a stack has frames for, and more than 2^20.
const MANY: u64 = 1_050_000;

fn many_steps(rt: &impl Abort, alloc: Global) -> Vec<ShardStep<u64, u64>> {
    let mut steps = Vec::new(alloc);
    for _ in 0..MANY {
        steps.push(ShardStep::Count(1)).expect(rt, "refused");
    }
    steps
}

// Finds a run that stops in a long list, or passes over a step of it.
#[test]
fn each_of_a_million_steps_is_taken(rt: HostRuntime) {
    let mut map: Places = map_of(&rt, rt.alloc(), [(1, 10)]);
    let outcome = map.run(many_steps(&rt, rt.alloc()));
    is(&rt, outcome.stopped.is_none(), true);
    let mut taken = 0u64;
    for reply in &outcome.replies {
        if matches!(*reply, Reply::Number(1)) {
            taken = taken.saturating_add(1);
        }
    }
    is(&rt, taken, MANY);
}
