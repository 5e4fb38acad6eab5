//! `tool_refusals map CALL HASHER` takes a call of a map, a set or a cache, and `tool_refusals history CALL HASHER WAY` one of a recorded
//! map. It prints how the call ended: `answered`, `refused NAME`, or `wrong: WHAT`. A request for memory that is refused before the call
//! prints `setup`, and one that looks at what a recorded call left `unseen`.
//!
//! `checks/refusals` runs it with one request for memory refused after the other.
#![tactic(auto)]

mod history;
mod keys;
mod map;
mod trial;
mod words;

use std::env::Env;
use std::io;
use std::rt::Clock;
use std::sync::Wait;
use std::thread::Threads;
use trial::Outcome;
use words::word;

fn main(rt: HostRuntime) -> io::Result<()> {
    let outcome = tried(&rt).unwrap_or(Outcome::Setup);
    println!(rt; "{outcome}")
}

// Tries the call that the words name.
fn tried<R>(rt: &R) -> io::Result<Outcome>
where
    R: Env + AllocGlobal + Threads + Wait + Clock + Sync,
{
    match word(rt, 1)?.as_str() {
        "map" => map::tried(rt),
        "history" => history::tried(rt),
        _ => Ok(Outcome::Wrong("no such kind of map")),
    }
}
