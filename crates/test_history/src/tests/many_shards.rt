//! A recorded map of 64 shards, as of more processors than this machine may have.
use crate::tests::checks::is;
use crate::tests::maps::{Log, are_pairs};
use dash_history::record::RecordFault;
use dash_history::record::map::RecordedMap;
use dash_shard::hash::FixedState;
use dash_steps::step::{Reply, ShardStep};
use std::alloc::Global;
use std::process::Abort;
use std::rt::Clock;
use std::sync::Wait;

type Map = RecordedMap<u64, u64, FixedState>;

const SHARDS: usize = 64;

// So many pairs that each shard has some.
const PAIRS: u64 = 1_000;

// A map of 64 shards and one caller, and his log.
fn map_of_many(rt: &impl Abort, alloc: Global) -> (Map, Log) {
    let (map, mut logs) = Map::new(alloc, FixedState, SHARDS, 1).expect(rt, "refused");
    is(rt, map.shard_count(), SHARDS);
    (map, logs.pop().expect(rt, "no log"))
}

// Puts a pair for each key.
fn fill<R: Abort + Wait + Clock>(rt: &R, map: &Map, log: &mut Log) {
    for key in 0..PAIRS {
        assert!(rt; log.caller() < map.callers());
        assert!(rt; map.apply(rt, log, ShardStep::Insert(key, key)).is_ok());
    }
}

// Ends the test where other pairs than those are copied.
fn are_all(rt: &impl Abort, alloc: Global, found: Vec<(u64, u64)>) {
    let wanted = (0..PAIRS)
        .map(|key| (key, key))
        .collect::<Vec<(u64, u64)>>(alloc)
        .expect(rt, "refused");
    are_pairs(rt, found, &wanted);
}

// The four whole steps.
fn take_wholes<R: Abort + Wait + Clock>(rt: &R, alloc: Global, map: &Map, log: &mut Log) {
    assert!(rt; log.caller() < map.callers());
    is(rt, map.count_all(rt, log), Ok(PAIRS));
    is(rt, map.try_count_all(log), Ok(PAIRS));
    are_all(rt, alloc, map.clone_all(rt, log).expect(rt, "refused"));
    are_all(rt, alloc, map.try_clone_all(log).expect(rt, "refused"));
}

// The faults of the two try forms while a shard is held.
fn faults_beside<R: Abort + Wait + Clock>(
    rt: &R,
    map: &Map,
    log: &mut Log,
    shard: usize,
) -> [Option<RecordFault>; 2] {
    assert!(rt; log.caller() < map.callers());
    assert!(rt; shard < map.shard_count());
    let held = map.held(rt, shard);
    let faults = [map.try_count_all(log).err(), map.try_clone_all(log).err()];
    is(rt, held.number(), shard);
    faults
}

// Finds a whole step that passes over a shard, or leaves one held, and a try form that does so when it gives up, or doesn't.
#[test]
fn whole_steps_come_to_each_shard(rt: HostRuntime) {
    let (map, mut log) = map_of_many(&rt, rt.alloc());
    fill(&rt, &map, &mut log);
    take_wholes(&rt, rt.alloc(), &map, &mut log);
    for shard in [0, 1, 16, 17, 62, 63] {
        let faults = faults_beside(&rt, &map, &mut log, shard);
        is(&rt, faults, [Some(RecordFault::Locked); 2]);
    }
    take_wholes(&rt, rt.alloc(), &map, &mut log);
    let ats = map.alone().gather(&[log]).expect(&rt, "refused");
    is(&rt, ats.len(), 1_000 + 8 * SHARDS);
    for (at, i) in ats.iter().skip(1_000).zip(0..8 * SHARDS) {
        is(&rt, (at.shard, at.caller), (i % SHARDS, 0));
    }
}

// Finds a try form that gives up at a shard that nobody has, as one without pairs, or the last.
#[test]
fn each_shard_without_pairs_is_free(rt: HostRuntime) {
    let (map, mut log) = map_of_many(&rt, rt.alloc());
    for shard in 0..SHARDS {
        assert!(rt; log.caller() < map.callers());
        let counted = map.try_apply(&mut log, ShardStep::Count(shard));
        assert!(rt; matches!(counted, Ok(Reply::Number(0))), "{shard}");
    }
    assert!(rt; log.caller() < map.callers());
    is(&rt, map.try_count_all(&mut log), Ok(0));
    let copies = map.try_clone_all(&mut log).expect(&rt, "refused");
    is(&rt, copies.len(), 0);
}
