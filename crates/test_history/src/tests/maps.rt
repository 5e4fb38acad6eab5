//! Recorded maps of numbers, where of four shards the key k goes to shard k modulo 4, and the steps of their callers.
use crate::tests::checks::{is, prints};
use dash_history::alone::RecAlone;
use dash_history::record::map::RecordedMap;
use dash_history::record::{CallerLog, RecordFault};
use dash_shard::hash::PlaceState;
use dash_steps::step::{Reply, ShardStep};
use std::alloc::Global;
use std::process::Abort;
use std::rt::Clock;
use std::sync::Wait;

/// A recorded map behind its locks.
pub(crate) type Map = RecordedMap<u64, u64, PlaceState>;

/// The same of one owner.
pub(crate) type Alone = RecAlone<u64, u64, PlaceState>;

/// The log of a caller.
pub(crate) type Log = CallerLog<u64, u64>;

/// A step.
pub(crate) type Step = ShardStep<u64, u64>;

/// What a step returns.
pub(crate) type Answer = Result<Reply<u64, u64>, (Step, RecordFault)>;

/// A map of so many shards and two callers, beside the logs of caller 0 and of caller 1.
pub(crate) fn map_of_two(rt: &impl Abort, alloc: Global, amount: usize) -> (Map, Log, Log) {
    let (map, mut logs) = Map::new(alloc, PlaceState, amount, 2).expect(rt, "refused");
    let second = logs.pop().expect(rt, "no log");
    let first = logs.pop().expect(rt, "no log");
    (map, first, second)
}

/// Takes a step by the caller of this log, by the call that waits or by the one that doesn't.
pub(crate) fn take<R: Abort + Wait + Clock>(
    rt: &R,
    map: &Map,
    log: &mut Log,
    step: Step,
    waits: bool,
) -> Answer {
    assert!(rt; log.caller() < map.callers());
    if waits {
        map.apply(rt, log, step)
    } else {
        map.try_apply(log, step)
    }
}

/// Puts a pair by a step, and ends the test where it is refused.
pub(crate) fn put<R: Abort + Wait + Clock>(
    rt: &R,
    map: &Map,
    log: &mut Log,
    pair: (u64, u64),
    waits: bool,
) {
    assert!(rt; take(rt, map, log, Step::Insert(pair.0, pair.1), waits).is_ok());
}

/// Puts a value at each of these keys, which are new, and returns the caller's last stamp.
pub(crate) fn insert_all<R: Abort + Wait + Clock>(
    rt: &R,
    map: &Map,
    log: &mut Log,
    keys: &[u64],
) -> u64 {
    for key in keys {
        let answer = take(rt, map, log, ShardStep::Insert(*key, 10), true);
        assert!(rt; matches!(answer, Ok(Reply::Old(None))), "{key}");
    }
    log.last_stamp()
}

/// Takes a step by a call that waits, and ends the test where its answer prints as another text.
pub(crate) fn answers<R: Abort + Wait + Clock>(
    rt: &R,
    alloc: Global,
    map: &Map,
    log: &mut Log,
    step: Step,
    text: &str,
) {
    prints(rt, alloc, &take(rt, map, log, step, true), text);
}

/// The stamp of the last step of a shard.
pub(crate) fn last_of(rt: &impl Abort, alone: &Alone, shard: usize) -> u64 {
    assert!(rt; shard < alone.shard_count());
    alone.last_of(shard)
}

/// Ends the test where a map has other pairs, by rising keys.
pub(crate) fn are_pairs(rt: &impl Abort, mut pairs: Vec<(u64, u64)>, wanted: &[(u64, u64)]) {
    pairs.sort_unstable();
    is(rt, pairs.as_slice(), wanted);
}
