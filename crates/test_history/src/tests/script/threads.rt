//! The steps of threads, the texts of their refusals, and that each has a thread of its own.
ghost use Rattle.std.specs.Prelude.{◌≡◌, ◌<◌, All, length};
ghost use Rattle.dash_script.specs.Threads.{IsSize};
ghost use Rattle.dash_script.specs.inner.Threads.{IsIdle};

use crate::tests::checks::is;
use dash_history::gather::GatherError;
use dash_history::record::map::RecordedMap;
use dash_history::record::{CallerLog, RecordFault};
use dash_script::script::Stop;
use dash_script::status::Status;
use dash_script::threads::{Outcome, Refusal, Worker, idle_workers, refuse, step, take_all, tell};
use dash_shard::error::ConstructError;
use dash_shard::hash::PlaceState;
use dash_steps::step::{Reply, ShardStep};
use std::alloc::Global;
use std::process::Abort;
use std::rt::Clock;
use std::sync::Wait;
use std::test::Fail;
use std::thread;

#[test]
fn steps_of_a_thread(rt: HostRuntime) -> Result<(), Fail> {
    for (thread, number, text) in [
        (0, 0, "Insert(0, 0)"),
        (2, 1, "Get(3)"),
        (63, 2, "Remove(1)"),
        (63, 9_999, "Insert(14, 63009999)"),
    ] {
        let step = format!(in rt.alloc(); "{:?}", step(thread, number))?;
        is(&rt, step.as_str(), text);
    }
    Ok(())
}

// Four workers that have done nothing on a map of five callers, and the log of the fifth.
fn four_idle<T: Abort>(
    rt: &T,
    alloc: Global,
) -> (
    RecordedMap<u64, u64, PlaceState>,
    Vec<Worker>,
    CallerLog<u64, u64>,
)
    ensures callers { result.0.callers ≡ 5 }
    ensures amount { result.0.amount ≡ 4 }
    ensures some { 0 < length result.1.items }
    ensures idle { All (IsIdle 5) result.1.items }
{
    let (map, logs) = RecordedMap::new(alloc, PlaceState, 4, 5).expect(rt, "refused");
    let mut workers = idle_workers(alloc, logs).expect(rt, "refused");
    let last = workers.pop().expect(rt, "no worker");
    (map, workers, last.log)
}

// Waits until the key is there.
fn await_key<T: Wait + Clock + Abort>(
    rt: &T,
    map: &RecordedMap<u64, u64, PlaceState>,
    log: &mut CallerLog<u64, u64>,
    key: u64,
) {
    for _ in rt.forever() {
        assert!(rt; log.caller() < map.callers());
        if let Ok(Reply::Pair(Some(_))) = map.apply(rt, log, ShardStep::Get(key)) {
            return;
        }
        // A look takes memory.
        for _ in 0..1_000 {
            thread::yield_now();
        }
    }
}

// Shard 1 is held, and each of four workers comes to it in its four steps. So none ends before the first steps of all are
// seen, and they are seen only where each worker has a thread of its own.
#[test]
fn each_worker_has_a_thread_of_its_own(rt: HostRuntime) {
    let (map, mut workers, mut log) = four_idle(&rt, rt.alloc());
    let held = map.held(&rt, 1);
    let idle = workers.as_mut_slice();
    thread::join(
        &rt,
        ||
            requires { IsSize map.callers 4 × (map.amount ≡ 4) × (0 < length idle.now) × All (IsIdle map.callers) idle.now }
        { take_all(&rt, &map, idle, 4) },
        || {
            for key in [0, 2, 3] {
                await_key(&rt, &map, &mut log, key);
            }
            drop(held);
        },
    );
    for worker in &workers {
        is(&rt, worker.log.entries().len(), 4);
    }
}

#[test]
fn what_became_of_the_threads_is_told(rt: HostRuntime) -> Result<(), Fail> {
    let mut text = Vec::new(rt.alloc());
    is(&rt, refuse(Refusal::Memory, &mut text)?, Status::Refused);
    for legal in [true, false] {
        tell(Outcome { entries: 3, legal }, &mut text)?;
    }
    let wanted: &[u8] = b"refused: no memory (19)\nentries 3\nlegal\nentries 3\nnot legal\n";
    is(&rt, text.as_slice(), wanted);
    Ok(())
}

// A program's texts of its own, beside those of the errors of the map.
#[test]
fn texts_are_those_of_the_map(rt: HostRuntime) -> Result<(), Fail> {
    for (fault, text) in [
        (
            RecordFault::LastStamp,
            "last stamp (18), refused line 3: last stamp (18)",
        ),
        (
            RecordFault::Memory,
            "no memory (19), refused line 3: no memory (19)",
        ),
        (
            RecordFault::NoSuchShard,
            "no such shard (20), refused line 3: no such shard (20)",
        ),
        (
            RecordFault::Locked,
            "locked (21), refused line 3: locked (21)",
        ),
        (RecordFault::Part, "part (24), refused line 3: part (24)"),
    ] {
        let said = format!(in rt.alloc(); "{fault}, {}", Stop::Step { line: 3, fault })?;
        is(&rt, said.as_str(), text);
    }
    let (made, gathered) = (ConstructError::Memory, GatherError::Memory);
    let said = format!(in rt.alloc(); "{made}, {}, {gathered}", GatherError::Mismatch)?;
    is(
        &rt,
        said.as_str(),
        "no memory (8), mismatch (22), no memory (23)",
    );
    for (refusal, text) in [
        (Refusal::Map, "refused: no memory (8)"),
        (Refusal::LastStamp, "refused: last stamp (18)"),
        (Refusal::Memory, "refused: no memory (19)"),
        (Refusal::Mismatch, "refused: mismatch (22)"),
        (Refusal::Gather, "refused: no memory (23)"),
    ] {
        let said = format!(in rt.alloc(); "{refusal}")?;
        is(&rt, said.as_str(), text);
    }
    Ok(())
}
