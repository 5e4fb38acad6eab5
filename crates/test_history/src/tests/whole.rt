//! Whole steps, as worked by hand.
use crate::tests::checks::is;
use crate::tests::maps::{Alone, Log, Map, are_pairs, map_of_two, put};
use dash_history::record::RecordFault;
use std::alloc::Global;
use std::process::Abort;
use std::rt::Clock;
use std::sync::Wait;

const PAIRS: [(u64, u64); 3] = [(0, 1), (1, 2), (3, 4)];

// Three pairs, in shards of the lasts 1, 2, 0 and 5, by two callers of the lasts 3 and 5.
fn three_pairs<R: Abort + Wait + Clock>(rt: &R, alloc: Global) -> (Map, Log, Log) {
    let (map, mut first, mut second) = map_of_two(rt, alloc, 4);
    put(rt, &map, &mut first, (0, 1), true);
    put(rt, &map, &mut first, (1, 2), true);
    second.learn(4);
    put(rt, &map, &mut second, (3, 4), true);
    first.learn(3);
    (map, first, second)
}

// Four whole steps on a map behind its locks. The first has the stamp 6.
fn take_shared<R: Abort + Wait + Clock>(rt: &R, map: &Map, log: &mut Log) {
    assert!(rt; log.caller() < map.callers());
    is(rt, map.count_all(rt, log), Ok(3));
    is(rt, (log.last_stamp(), log.entries().len()), (6, 6));
    is(rt, map.try_count_all(log), Ok(3));
    are_pairs(rt, map.clone_all(rt, log).expect(rt, "refused"), &PAIRS);
    are_pairs(rt, map.try_clone_all(log).expect(rt, "refused"), &PAIRS);
}

// Two on a map of one owner.
fn take_alone(rt: &impl Abort, alone: &mut Alone, log: &mut Log) {
    assert!(rt; log.caller() < alone.callers());
    is(rt, alone.count_all(log), Ok(3));
    are_pairs(rt, alone.clone_all(log).expect(rt, "refused"), &PAIRS);
}

// Six whole steps of caller 0, each by another call.
#[test]
fn a_whole_step_stands_at_one_place(rt: HostRuntime) {
    let (map, mut first, second) = three_pairs(&rt, rt.alloc());
    take_shared(&rt, &map, &mut first);
    let mut alone = map.alone();
    take_alone(&rt, &mut alone, &mut first);

    let ats = alone.gather(&[first, second]).expect(&rt, "refused");
    is(&rt, ats.len(), 27);
    for (at, i) in ats.iter().skip(3).zip(0..24usize) {
        let stamp = 6 + i as u64 / 4;
        is(&rt, (at.stamp, at.shard, at.caller), (stamp, i % 4, 0));
    }
}

// The steps of the script `insert 0 1`, `insert 1 2`, `insert 3 4`, `countall`, `readall`, by one caller: five stamps, and eleven records.
#[test]
fn a_count_and_a_copy_of_three_pairs(rt: HostRuntime) {
    for waits in [true, false] {
        let (map, mut log, other) = map_of_two(&rt, rt.alloc(), 4);
        for pair in PAIRS {
            put(&rt, &map, &mut log, pair, waits);
        }
        assert!(rt; log.caller() < map.callers());
        let (number, copies) = if waits {
            (map.count_all(&rt, &mut log), map.clone_all(&rt, &mut log))
        } else {
            (map.try_count_all(&mut log), map.try_clone_all(&mut log))
        };
        is(&rt, number, Ok(3));
        are_pairs(&rt, copies.expect(&rt, "refused"), &PAIRS);
        is(&rt, (log.last_stamp(), log.entries().len()), (5, 11));
        let ats = map.alone().gather(&[log, other]).expect(&rt, "refused");
        is(&rt, ats.len(), 11);
        is(&rt, ats.last().map(|at| at.stamp), Some(5));
    }
}

// A held shard is said before the last stamp.
fn try_beside_a_hold<R: Abort + Wait + Clock>(rt: &R, map: &Map, log: &mut Log) {
    assert!(rt; log.caller() < map.callers());
    assert!(rt; 2 < map.shard_count());
    let held = map.held(rt, 2);
    is(rt, map.try_count_all(log), Err(RecordFault::Locked));
    log.learn(u64::MAX);
    let refused = map.try_clone_all(log).err();
    is(rt, refused, Some(RecordFault::Locked));
    is(rt, held.last_stamp(), 0);
}

#[test]
fn a_held_shard_locks_the_try_forms_out(rt: HostRuntime) {
    let (map, mut first, second) = three_pairs(&rt, rt.alloc());
    try_beside_a_hold(&rt, &map, &mut first);
    assert!(rt; first.caller() < map.callers());
    let refused = map.count_all(&rt, &mut first);
    is(&rt, refused, Err(RecordFault::LastStamp));
    let refused = map.try_clone_all(&mut first).err();
    is(&rt, refused, Some(RecordFault::LastStamp));
    is(&rt, first.entries().len(), 2);
    is(
        &rt,
        map.alone()
            .gather(&[first, second])
            .expect(&rt, "refused")
            .len(),
        3,
    );
}
