//! The stamps of steps by two callers, and which steps stand between which.
use crate::tests::checks::is;
use crate::tests::gather::{at, is_gathered};
use crate::tests::maps::{Step, answers, are_pairs, insert_all, last_of, map_of_two, put};
use std::alloc::Global;
use std::process::Abort;
use std::rt::Clock;
use std::sync::Wait;

#[test]
fn a_stamp_is_above_the_last_of_shard_and_caller(rt: HostRuntime) {
    let (map, mut first, mut second) = map_of_two(&rt, rt.alloc(), 4);
    is(
        &rt,
        insert_all(&rt, &map, &mut first, &[0, 4, 8, 12, 16, 20, 24]),
        7,
    );
    is(&rt, insert_all(&rt, &map, &mut second, &[1, 5, 9, 13]), 4);
    is(&rt, insert_all(&rt, &map, &mut first, &[17]), 8);
    is(&rt, last_of(&rt, &map.alone(), 1), 8);
}

// The last of caller 0 is 8, in shard 0, and that of shard 1 is 2. Caller 1 has done nothing.
#[test]
fn what_was_learned_stands_before(rt: HostRuntime) {
    for (learned, stamp) in [(0, 3), (2, 3), (8, 9)] {
        let (map, mut first, mut second) = map_of_two(&rt, rt.alloc(), 4);
        is(
            &rt,
            insert_all(&rt, &map, &mut first, &[1, 5, 0, 4, 8, 12, 16, 20]),
            8,
        );
        second.learn(learned);
        is(&rt, second.last_stamp(), learned);
        put(&rt, &map, &mut second, (1, 1), true);
        is(&rt, (learned, second.last_stamp()), (learned, stamp));
        let places = map.alone().gather(&[first, second]).expect(&rt, "refused");
        assert!(rt; places.contains(&at(stamp, 1, 2, 1)), "{learned}");
    }
}

// A shard with the last stamp that there is takes no step, and a caller with it none.
#[test]
fn the_last_stamp_is_the_last(rt: HostRuntime) {
    let (map, mut first, mut second) = map_of_two(&rt, rt.alloc(), 4);
    first.learn(u64::MAX - 1);
    is(&rt, insert_all(&rt, &map, &mut first, &[1]), u64::MAX);
    let (step, text) = (Step::Insert(5, 50), "Err((Insert(5, 50), LastStamp))");
    answers(&rt, rt.alloc(), &map, &mut second, step, text);
    is(&rt, second.last_stamp(), 0);
    is(&rt, insert_all(&rt, &map, &mut second, &[4]), 1);
    second.learn(u64::MAX);
    let (step, text) = (Step::Insert(0, 20), "Err((Insert(0, 20), LastStamp))");
    answers(&rt, rt.alloc(), &map, &mut second, step, text);

    let (alone, logs) = (map.alone(), [first, second]);
    is_gathered(&rt, &alone, &logs, &[at(1, 0, 0, 1), at(u64::MAX, 1, 0, 0)]);
    are_pairs(
        &rt,
        alone.pairs().expect(&rt, "refused"),
        &[(1, 10), (4, 10)],
    );
}

// Takes these steps by callers 0 and 1 on a new map, and ends the test where one doesn't answer so.
fn all_answer<R: Abort + Wait + Clock>(rt: &R, alloc: Global, rows: [(u64, Step, &str); 7]) {
    let (map, mut first, mut second) = map_of_two(rt, alloc, 4);
    for (caller, step, text) in rows {
        let log = if caller == 0 { &mut first } else { &mut second };
        answers(rt, alloc, &map, log, step, text);
    }
    let history = map.alone().gather(&[first, second]).expect(rt, "refused");
    is(rt, history.len(), 7);
}

// The sum of the counts is first 0, though the map is never empty, and then 2, though no two pairs ever stand together.
#[test]
fn sums_of_none_and_of_two(rt: HostRuntime) {
    let rows = [
        (0, Step::Insert(3, 30), "Ok(Old(None))"),
        (0, Step::Count(0), "Ok(Number(0))"),
        (0, Step::Count(1), "Ok(Number(0))"),
        (0, Step::Count(2), "Ok(Number(0))"),
        (1, Step::Insert(0, 5), "Ok(Old(None))"),
        (1, Step::Remove(3), "Ok(Pair(Some((3, 30))))"),
        (0, Step::Count(3), "Ok(Number(0))"),
    ];
    all_answer(&rt, rt.alloc(), rows);
    let rows = [
        (0, Step::Insert(0, 5), "Ok(Old(None))"),
        (0, Step::Count(0), "Ok(Number(1))"),
        (0, Step::Count(1), "Ok(Number(0))"),
        (0, Step::Count(2), "Ok(Number(0))"),
        (1, Step::Remove(0), "Ok(Pair(Some((0, 5))))"),
        (1, Step::Insert(3, 30), "Ok(Old(None))"),
        (0, Step::Count(3), "Ok(Number(1))"),
    ];
    all_answer(&rt, rt.alloc(), rows);
}
