//! Two threads take steps on a recorded map, and their logs give its one history.
#![tactic(auto)]

use dashmap::hash::FixedState;
use dashmap::history::{CallerLog, RecordedMap, ShardStep};
use std::thread;

fn main(rt: HostRuntime) -> anyhow::Result<()> {
    let (map, mut logs) = RecordedMap::<u64, u64>::new(rt.alloc(), FixedState, 4, 2)?;
    let insert = |caller: usize, log: &mut CallerLog<u64, u64>| {
        let _ = map.apply(&rt, log, ShardStep::Insert(1, caller as u64));
    };
    thread::for_each_mut(&rt, logs.as_mut_slice(), 2, &insert);
    let history = map.alone().gather(logs.as_slice())?;
    println!(rt; "{} steps, in one order", history.len())?;
    Ok(())
}
