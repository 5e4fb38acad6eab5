//! Amounts, capacities and routes of a map, as worked by hand.
use crate::tests::checks::is;
use crate::tests::maps::map_of_four;
use dash_map::map::DashMap;
use dash_map::t::Map as _;
use dash_shard::error::ConstructError;
use std::rt::Clock;
use std::sync::Wait;
use std::thread;

type Map = DashMap<u64, u64>;

#[test]
fn amounts_that_are_refused(rt: HostRuntime) {
    for amount in [0, 1, 3] {
        let refused = Map::with_shard_amount(rt.alloc(), amount).err();
        is(
            &rt,
            (amount, refused),
            (amount, Some(ConstructError::ShardAmount)),
        );
    }
    for parallelism in [0, (1 << 61) + 1] {
        let refused = Map::new(rt.alloc(), parallelism).err();
        is(
            &rt,
            (parallelism, refused),
            (parallelism, Some(ConstructError::Parallelism)),
        );
    }
}

#[test]
fn amounts_that_are_taken(rt: HostRuntime) {
    let map = Map::with_shard_amount(rt.alloc(), 2).expect(&rt, "refused");
    is(&rt, map.alone().shard_count(), 2);
    for (parallelism, amount) in [(1, 4), (3, 16)] {
        let map = Map::new(rt.alloc(), parallelism).expect(&rt, "refused");
        is(&rt, map.alone().shard_count(), amount);
        let map = Map::default(rt.alloc(), parallelism).expect(&rt, "refused");
        is(&rt, map.alone().shard_count(), amount);
    }
}

// The least room of a shard.
fn least_room<R: Wait + Clock>(rt: &R, map: &Map) -> usize {
    let mut least = usize::MAX;
    for shard in 0..map._shard_count() {
        least = map._yield_write_shard(rt, shard).capacity().min(least);
    }
    least
}

#[test]
fn capacities(rt: HostRuntime) {
    let map = Map::with_capacity_and_shard_amount(rt.alloc(), 5, 4).expect(&rt, "refused");
    is(&rt, least_room(&rt, &map) >= 2, true);
    let map = Map::with_capacity(rt.alloc(), 5, 1).expect(&rt, "refused");
    is(&rt, least_room(&rt, &map) >= 2, true);
    let most = usize::MAX;
    let refused = Map::with_capacity_and_shard_amount(rt.alloc(), most, 4).err();
    is(&rt, refused, Some(ConstructError::CapacityOverflow));
    let refused = Map::with_capacity_and_shard_amount(rt.alloc(), most - 3, 4).err();
    is(&rt, refused, Some(ConstructError::Memory));
}

#[test]
fn routes(rt: HostRuntime) {
    let four = Map::with_shard_amount(rt.alloc(), 4).expect(&rt, "refused");
    for (hash, shard) in [(1 << 55, 1), (1 << 56, 2), (1 << 57, 0), (usize::MAX, 3)] {
        is(&rt, (hash, four.determine_shard(hash)), (hash, shard));
    }
    let two = Map::with_shard_amount(rt.alloc(), 2).expect(&rt, "refused");
    is(&rt, two.determine_shard((1 << 56) - 1), 0);
    is(&rt, two.determine_shard(1 << 56), 1);

    let places = map_of_four::<u64>(&rt, rt.alloc());
    for key in 0..16u64 {
        is(
            &rt,
            (key, places.determine_map(&key) as u64),
            (key, key % 4),
        );
    }
}

// Finds an `of` that makes another number of shards than so many processors call for.
#[test]
fn asks_the_system_for_its_processors(rt: HostRuntime) {
    let map = Map::of(&rt).expect(&rt, "refused");
    let processors = thread::available_parallelism(&rt)
        .expect(&rt, "unknown")
        .get();
    let amount = processors.saturating_mul(4).checked_next_power_of_two();
    is(&rt, Some(map.alone().shard_count()), amount);
}
