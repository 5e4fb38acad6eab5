//! A recorded map of one owner, and what both kinds of map are refused for.
use crate::tests::checks::{is, prints};
use crate::tests::gather::is_gathered;
use crate::tests::maps::{Alone, Log, Map, Step, answers, last_of, map_of_two};
use dash_history::gather::GatherError;
use dash_shard::error::ConstructError;
use dash_shard::hash::PlaceState;
use std::alloc::Global;
use std::process::Abort;

// A bad amount is refused before a bad number of callers.
#[test]
fn amounts_and_then_callers_are_refused(rt: HostRuntime) {
    for (amount, callers, error) in [
        (0, 0, ConstructError::ShardAmount),
        (1, 1, ConstructError::ShardAmount),
        (3, 0, ConstructError::ShardAmount),
        (3, 65_537, ConstructError::ShardAmount),
        (4, 0, ConstructError::Callers),
        (4, 65_537, ConstructError::Callers),
    ] {
        let refused = Map::new(rt.alloc(), PlaceState, amount, callers).err();
        is(
            &rt,
            (amount, callers, refused),
            (amount, callers, Some(error)),
        );
    }
    let (map, logs) = Map::new(rt.alloc(), PlaceState, 4, 65_536).expect(&rt, "refused");
    is(&rt, (map.callers(), logs.len()), (65_536, 65_536));
}

#[test]
fn one_owner_takes_steps_of_each_kind(rt: HostRuntime) {
    let (mut alone, mut logs) = Alone::new(rt.alloc(), PlaceState, 4, 1).expect(&rt, "refused");
    let log = logs.first_mut().expect(&rt, "no log");
    for (step, text) in [
        (Step::Insert(1, 10), "Ok(Old(None))"),
        (Step::Insert(1, 11), "Ok(Old(Some(10)))"),
        (Step::Get(1), "Ok(Pair(Some((1, 11))))"),
        (Step::Contains(5), "Ok(Found(false))"),
        (Step::AlterAll(1, ()), "Ok(Done)"),
        (Step::Read(1), "Ok(Pairs([(1, 11)]))"),
        (Step::Count(0), "Ok(Number(0))"),
        (Step::Read(4), "Err((Read(4), NoSuchShard))"),
        (Step::CountPart(9), "Err((CountPart(9), Part))"),
    ] {
        assert!(rt; log.caller() < alone.callers());
        let answer = alone.apply(log, step);
        prints(&rt, rt.alloc(), &answer, text);
    }
    is(&rt, (log.last_stamp(), log.entries().len()), (7, 7));
}

// The first steps that the program takes, and what they reply.
fn three_steps() -> [(Step, &'static str); 3] {
    [
        (Step::Insert(1, 10), "Ok(Old(None))"),
        (Step::Insert(1, 11), "Ok(Old(Some(10)))"),
        (Step::Get(1), "Ok(Pair(Some((1, 11))))"),
    ]
}

// Three steps on one shard: the lasts of caller and shard are then 3, on a map of one owner and on one that threads share.
#[test]
fn one_recorded_step(rt: HostRuntime) {
    let (mut alone, mut log, _) = alone_of_two(&rt, rt.alloc());
    for (step, text) in three_steps() {
        assert!(rt; log.caller() < alone.callers());
        prints(&rt, rt.alloc(), &alone.apply(&mut log, step), text);
    }
    is(&rt, (log.last_stamp(), last_of(&rt, &alone, 1)), (3, 3));

    let (map, mut log, _) = map_of_two(&rt, rt.alloc(), 4);
    for (step, text) in three_steps() {
        answers(&rt, rt.alloc(), &map, &mut log, step, text);
    }
    is(
        &rt,
        (log.last_stamp(), last_of(&rt, &map.alone(), 1)),
        (3, 3),
    );
}

// A map of four shards that one owner has, and the logs of its two callers.
fn alone_of_two(rt: &impl Abort, alloc: Global) -> (Alone, Log, Log) {
    let (map, first, second) = map_of_two(rt, alloc, 4);
    (map.alone(), first, second)
}

// Puts a value at each of these keys, which are new.
fn put_all(rt: &impl Abort, alone: &mut Alone, log: &mut Log, keys: &[u64]) {
    for key in keys {
        assert!(rt; log.caller() < alone.callers());
        assert!(rt; alone.apply(log, Step::Insert(*key, 10)).is_ok(), "{key}");
    }
}

// Caller's last 7, shard's last 4: the stamp is 8, and so are both lasts then.
#[test]
fn a_stamp_is_above_the_last_of_shard_and_caller(rt: HostRuntime) {
    let (mut alone, mut first, mut second) = alone_of_two(&rt, rt.alloc());
    put_all(&rt, &mut alone, &mut first, &[0, 4, 8, 12, 16, 20, 24]);
    put_all(&rt, &mut alone, &mut second, &[1, 5, 9, 13]);
    is(&rt, (first.last_stamp(), last_of(&rt, &alone, 1)), (7, 4));
    put_all(&rt, &mut alone, &mut first, &[17]);
    is(&rt, (first.last_stamp(), last_of(&rt, &alone, 1)), (8, 8));
}

// An untouched map merges to nothing, and so it gathers by its own two logs, but not where one comes twice.
#[test]
fn an_untouched_map_has_no_history(rt: HostRuntime) {
    let (alone, first, second) = alone_of_two(&rt, rt.alloc());
    is(&rt, alone.merged().expect(&rt, "refused").len(), 0);
    is_gathered(&rt, &alone, &[first, second], &[]);
    let (_, once, _) = alone_of_two(&rt, rt.alloc());
    let (_, twice, _) = alone_of_two(&rt, rt.alloc());
    let refused = alone.gather(&[once, twice]).err();
    is(&rt, refused, Some(GatherError::Mismatch));
}
