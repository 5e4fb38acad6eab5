//! What is gathered of a map after three inserts by two callers, as worked by hand.
use crate::tests::checks::{is, prints};
use crate::tests::maps::{Alone, Log, Map, Step, answers, are_pairs, map_of_two, put, take};
use dash_history::gather::{At, gather};
use dash_shard::hash::PlaceState;
use std::alloc::Global;
use std::process::Abort;
use std::rt::Clock;
use std::sync::Wait;

/// A place.
pub(crate) fn at(stamp: u64, shard: usize, place: usize, caller: u32) -> At {
    At {
        stamp,
        shard,
        place,
        caller,
    }
}

/// The places of the three inserts.
pub(crate) fn three_places() -> [At; 3] {
    [at(1, 0, 0, 1), at(1, 1, 0, 0), at(2, 0, 1, 0)]
}

/// Ends the test where `gather` doesn't give these places.
pub(crate) fn is_gathered(rt: &impl Abort, alone: &Alone, logs: &[Log], wanted: &[At]) {
    let gathered = alone.gather(logs).expect(rt, "refused");
    is(rt, gathered.as_slice(), wanted);
}

/// A map of so many shards after caller 0 put (1, 10), caller 1 put 30 at a key, and caller 0 put (0, 20), each by a call that
/// waits or not.
pub(crate) fn three_inserts<R: Abort + Wait + Clock>(
    rt: &R,
    alloc: Global,
    amount: usize,
    key: u64,
    waits: bool,
) -> (Map, Log, Log) {
    let (map, mut first, mut second) = map_of_two(rt, alloc, amount);
    put(rt, &map, &mut first, (1, 10), waits);
    put(rt, &map, &mut second, (key, 30), waits);
    put(rt, &map, &mut first, (0, 20), waits);
    (map, first, second)
}

// They share no shard and no caller but for the last, of caller 0 in the shard of caller 1. They stay as they are where the map
// goes back behind its locks.
#[test]
fn three_stamps_are_one_history(rt: HostRuntime) {
    for waits in [true, false] {
        let (map, first, second) = three_inserts(&rt, rt.alloc(), 4, 4, waits);
        let (alone, logs) = (map.alone(), [first, second]);
        let merged = alone.merged().expect(&rt, "refused");
        is(&rt, merged.as_slice(), &three_places());
        is_gathered(&rt, &alone, &logs, &three_places());

        let mut map = alone.end();
        let gathered = gather(&mut map, &logs).expect(&rt, "refused");
        is(&rt, gathered.as_slice(), &three_places());
        assert!(rt; 3 < map.shard_count());
        is(&rt, (map.last_of(0), map.last_of(3)), (2, 0));
        prints(
            &rt,
            rt.alloc(),
            &map.entry_at(0, 1),
            "Some(Record { stamp: 2, caller: 0, shard: 0, step: Insert(0, 20), reply: Old(None) })",
        );
        assert!(rt; map.entry_at(0, 2).is_none());
        are_pairs(
            &rt,
            map.pairs().expect(&rt, "refused"),
            &[(0, 20), (1, 10), (4, 30)],
        );
    }
}

// Puts a pair by the caller of this number.
fn put_by<R: Abort + Wait + Clock>(
    rt: &R,
    map: &Map,
    logs: &mut [Log],
    caller: usize,
    pair: (u64, u64),
) {
    let log = logs.get_mut(caller).expect(rt, "no log");
    put(rt, map, log, pair, true);
}

// Gathers a map twice, and ends the test where it doesn't give these places both times.
fn gather_twice(rt: &impl Abort, map: &mut Map, logs: &[Log], wanted: &[At]) {
    for _ in 0..2 {
        let gathered = gather(map, logs).expect(rt, "refused");
        is(rt, gathered.as_slice(), wanted);
    }
}

// The callers go on between two gathers and after them.
#[test]
fn a_gathered_map_goes_on(rt: HostRuntime) {
    let (mut map, mut logs) = Map::new(rt.alloc(), PlaceState, 4, 2).expect(&rt, "refused");
    put_by(&rt, &map, &mut logs, 0, (1, 10));
    put_by(&rt, &map, &mut logs, 1, (4, 30));
    put_by(&rt, &map, &mut logs, 0, (0, 20));
    gather_twice(&rt, &mut map, &logs, &three_places());
    put_by(&rt, &map, &mut logs, 1, (2, 40));
    put_by(&rt, &map, &mut logs, 0, (4, 50));
    let [one, two, three] = three_places();
    let all = [one, two, three, at(2, 2, 0, 1), at(3, 0, 2, 0)];
    gather_twice(&rt, &mut map, &logs, &all);
    is(&rt, map.pairs().expect(&rt, "refused").len(), 4);
}

// While shard 0 is held the others are free. A shard that is missing is refused before one that is held, and that before the last
// stamp.
#[test]
fn a_held_shard_is_locked_alone(rt: HostRuntime) {
    let (map, mut first, mut second) = map_of_two(&rt, rt.alloc(), 4);
    let held = map.held(&rt, 0);
    answers(
        &rt,
        rt.alloc(),
        &map,
        &mut first,
        Step::Insert(1, 10),
        "Ok(Old(None))",
    );
    for (step, text) in [
        (Step::Get(1), "Ok(Pair(Some((1, 10))))"),
        (Step::Get(0), "Err((Get(0), Locked))"),
        (Step::Count(4), "Err((Count(4), NoSuchShard))"),
        (Step::ReadPart(0), "Err((ReadPart(0), Part))"),
    ] {
        let answer = take(&rt, &map, &mut second, step, false);
        prints(&rt, rt.alloc(), &answer, text);
        second.learn(u64::MAX);
    }
    is(&rt, (second.entries().len(), held.last_stamp()), (1, 0));
    drop(held);
    let last = take(&rt, &map, &mut second, Step::Get(0), false);
    prints(&rt, rt.alloc(), &last, "Err((Get(0), LastStamp))");
    let free = take(&rt, &map, &mut first, Step::Get(0), false);
    prints(&rt, rt.alloc(), &free, "Ok(Pair(None))");
    let history = map.alone().gather(&[first, second]).expect(&rt, "refused");
    is(&rt, history.len(), 3);
}
