//! Threads that take steps on one map, beside whole steps. Their one history is replayed.
use crate::tests::checks::is;
use crate::tests::maps::{Alone, Log, Map, Step};
use dash_shard::hash::PlaceState;
use std::alloc::Global;
use std::process::Abort;
use std::rt::Clock;
use std::sync::Wait;
use std::thread;

// What stands at each of sixteen keys.
type Plain = [Option<u64>; 16];

// How many pairs the map had, and then what stood there.
type Seen = (u64, Plain);

// So many steps each thread takes.
const STEPS: u64 = 10_000;

// So often all is counted and copied.
const LOOKS: u64 = 50;

// How many pairs stand there.
fn count(plain: &Plain) -> u64 {
    let mut count: u64 = 0;
    for value in plain {
        count = count.saturating_add(value.is_some() as u64);
    }
    count
}

// Puts a value at a key, or takes it out.
fn put(plain: &mut Plain, key: u64, value: Option<u64>) {
    plain[(key % 16) as usize] = value;
}

// The steps of one caller over sixteen keys, or as many as it could take.
fn take_steps<R: Wait + Clock>(rt: &R, map: &Map, log: &mut Log) {
    let caller = u64::from(log.caller());
    for m in 0..STEPS {
        let key = (caller + m) % 16;
        let step = match m % 3 {
            0 => Step::Insert(key, caller * 1_000_000 + m),
            1 => Step::Get(key),
            _ => Step::Remove(key),
        };
        if log.caller() >= map.callers() || map.apply(rt, log, step).is_err() {
            return;
        }
    }
}

// What whole steps answer.
fn look<R: Abort + Wait + Clock>(rt: &R, alloc: Global, map: &Map, log: &mut Log) -> Vec<Seen> {
    let mut seen = Vec::new(alloc);
    for _ in 0..LOOKS {
        assert!(rt; log.caller() < map.callers());
        let number = map.count_all(rt, log).expect(rt, "refused");
        let pairs = map.clone_all(rt, log).expect(rt, "refused");
        let mut plain = [None; 16];
        for (key, value) in &pairs {
            put(&mut plain, *key, Some(*value));
        }
        is(rt, count(&plain), pairs.len() as u64);
        seen.push((number, plain)).expect(rt, "refused");
    }
    seen
}

// What whole steps have to answer, where all steps are replayed on a list.
fn replay(rt: &impl Abort, alloc: Global, alone: &Alone, logs: &[Log]) -> Vec<Seen> {
    let ats = alone.gather(logs).expect(rt, "refused");
    is(rt, ats.len() as u64, 3 * STEPS + 8 * LOOKS);
    let mut plain = [None; 16];
    let mut number = 0;
    let mut seen = Vec::new(alloc);
    for at in &ats {
        assert!(rt; at.shard < alone.shard_count());
        let entry = alone.entry_at(at.shard, at.place).expect(rt, "no record");
        match &entry.step {
            Step::Insert(key, value) => put(&mut plain, *key, Some(*value)),
            Step::Remove(key) => put(&mut plain, *key, None),
            Step::CountPart(3) => number = count(&plain),
            Step::ReadPart(3) => seen.push((number, plain)).expect(rt, "refused"),
            _ => (),
        }
    }
    seen
}

#[test]
fn whole_steps_beside_three_threads_are_one_history(rt: HostRuntime) {
    let (map, mut logs) = Map::new(rt.alloc(), PlaceState, 4, 4).expect(&rt, "refused");
    let mut fourth = logs.pop().expect(&rt, "no log");
    let work = |_: usize, log: &mut Log| take_steps(&rt, &map, log);
    let (_, seen) = thread::join_mut(
        &rt,
        &mut || thread::for_each_mut(&rt, logs.as_mut_slice(), 3, &work),
        &mut || look(&rt, rt.alloc(), &map, &mut fourth),
    );
    logs.push(fourth).expect(&rt, "refused");
    let wanted = replay(&rt, rt.alloc(), &map.alone(), &logs);
    is(&rt, seen.as_slice(), wanted.as_slice());
}
