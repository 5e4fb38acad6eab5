//! `tool_diff HASHER CALLS` takes random calls on a map and a set of four shards, and prints a line for each: its number, the call, its name
//! and the answer. `tool_diff text CALLS` does so on keys that are texts. `checks/diff` compares the lines with those of the Rust crate.
#![tactic(auto)]

mod answer;
mod draw;
mod entries;
mod keyed;
mod lists;
mod noted;
mod run;
mod sets;
mod texts;
mod walks;

use dashmap::hash::{FixedState, PlaceState, ZeroState};
use dashmap::{DashMap, DashSet};
use run::{SHARDS, run};
use std::alloc::Global;
use std::io::{BufWriter, Eprint, Write};
use std::process::ExitCode;
use std::rt::Clock;
use std::sync::Wait;
use std::{env, io};

const USAGE: &str = "usage: tool_diff fixed|place|zero|text CALLS";

fn main(rt: HostRuntime) -> io::Result<ExitCode> {
    let words: Vec<String> = env::args(&rt)?.collect(rt.alloc())?;
    let Some((hasher, calls)) = asked(words.as_slice()) else {
        eprintln!(rt; "{USAGE}")?;
        return Ok(ExitCode::from(2));
    };
    let out = &mut BufWriter::new(rt.alloc(), rt.stdout())?;
    take_by(&rt, rt.alloc(), out, hasher, calls)?;
    Ok(ExitCode::from(0))
}

// Takes the calls by the hasher of this name.
fn take_by<R: Wait + Clock, W: Write>(
    rt: &R,
    alloc: Global,
    out: &mut W,
    hasher: &str,
    calls: u64,
) -> io::Result<()> {
    match hasher {
        "text" => texts::run(rt, alloc, out, calls),
        "place" => {
            let map = DashMap::with_hasher_and_shard_amount(alloc, PlaceState, SHARDS);
            run(
                rt,
                alloc,
                out,
                map,
                DashSet::with_hasher(alloc, PlaceState, 1),
                calls,
            )
        }
        "zero" => {
            let map = DashMap::with_hasher_and_shard_amount(alloc, ZeroState, SHARDS);
            run(
                rt,
                alloc,
                out,
                map,
                DashSet::with_hasher(alloc, ZeroState, 1),
                calls,
            )
        }
        _ => {
            let map = DashMap::with_hasher_and_shard_amount(alloc, FixedState, SHARDS);
            run(
                rt,
                alloc,
                out,
                map,
                DashSet::with_hasher(alloc, FixedState, 1),
                calls,
            )
        }
    }
}

// The hasher and the number of calls that the words ask for. The first one is the program's name.
fn asked(words: &[String]) -> Option<(&str, u64)> {
    if words.len() != 3 {
        return None;
    }
    let hasher = words[1].as_str();
    if !matches!(hasher, "fixed" | "place" | "zero" | "text") {
        return None;
    }
    Some((hasher, words[2].as_str().parse::<u64>().ok()?))
}
