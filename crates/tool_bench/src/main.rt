//! `tool_bench WORK THREADS [SHARDS]` takes the time of one kind of work, on a map of 16 shards where the command line doesn't say.
//!
//! It prints a line: nanoseconds, operations, and a checksum that any right map gives for the same work. `tool_bench churn` searches a full
//! shard for absent keys, and again after a million of its pairs were exchanged.
#![tactic(auto)]

mod caches;
mod churn;
mod keys;
mod lists;
mod memory;
mod run;
mod texts;
mod work;
mod worker;
mod zipf;

use caches::Cached;
use dash_map::extend::ExtendRefused;
use dash_ref::mapref::entry::EntryRefused;
use dash_shard::error::ConstructError;
use dash_shard::hash::is_shard_amount;
use dash_shard::shard::InsertRefused;
use dashmap::memo::MemoRefused;
use lists::Call;
use run::Measured;
use std::alloc::{AllocError, AllocFailed, Global};
use std::io::Eprint;
use std::process::ExitCode;
use std::random::RandomSource;
use std::rt::{Clock, Files};
use std::sync::Wait;
use std::thread::Threads;
use std::{env, fmt, io};
use texts::Text;
use thiserror::Error;
use work::Work;

const USAGE: &str = "usage: tool_bench WORK THREADS [SHARDS] | tool_bench churn";

/// The most threads that a command line may ask for.
const MOST_THREADS: usize = 64;

/// How many shards a map has, where the command line doesn't say.
const SHARDS: usize = 16;

/// Why there is no time to print.
#[derive(Clone, Copy, Debug, Error)]
pub enum Refused {
    #[error("no memory")]
    Memory,
    #[error("no clock, or no random bytes")]
    Clock,
    #[error("no thread")]
    Thread,
    #[error("a cache keeps more than its bound")]
    Bound,
}

impl From<AllocError> for Refused {
    fn from(_: AllocError) -> Refused {
        Refused::Memory
    }
}

impl<T: Drop> From<AllocFailed<T>> for Refused {
    fn from(_: AllocFailed<T>) -> Refused {
        Refused::Memory
    }
}

impl From<ConstructError> for Refused {
    fn from(_: ConstructError) -> Refused {
        Refused::Memory
    }
}

impl<K: Drop, V: Drop> From<InsertRefused<K, V>> for Refused {
    fn from(_: InsertRefused<K, V>) -> Refused {
        Refused::Memory
    }
}

impl From<EntryRefused<u64>> for Refused {
    fn from(_: EntryRefused<u64>) -> Refused {
        Refused::Memory
    }
}

impl From<ExtendRefused<u64, u64>> for Refused {
    fn from(_: ExtendRefused<u64, u64>) -> Refused {
        Refused::Memory
    }
}

impl From<MemoRefused> for Refused {
    fn from(_: MemoRefused) -> Refused {
        Refused::Memory
    }
}

impl From<io::Error> for Refused {
    fn from(_: io::Error) -> Refused {
        Refused::Clock
    }
}

fn main(rt: HostRuntime) -> io::Result<ExitCode> {
    let mut words = Vec::new(rt.alloc());
    for word in env::args(&rt)?.skip(1) {
        words.push(word)?;
    }
    if words.len() == 1 && words[0].as_str() == "churn" {
        return tell(&rt, churn::measure(&rt, rt.alloc()));
    }
    let Some(asked) = parse(words.as_slice()) else {
        eprintln!(rt; "{USAGE}")?;
        return Ok(ExitCode::from(2));
    };
    tell(&rt, measure(&rt, rt.alloc(), asked))
}

// What a command line asks for: work of some threads on a map of so many shards.
#[derive(Clone, Copy)]
struct Asked {
    kind: Kind,
    threads: usize,
    shards: usize,
}

// Work of threads on a map, the same on a map of texts or on a cache, or one call that starts the threads.
#[derive(Clone, Copy)]
enum Kind {
    Work(Work),
    Text(Text),
    Cached(Cached),
    Call(Call),
}

impl Kind {
    fn of_name(name: &str) -> Option<Kind> {
        if let Some(call) = Call::of_name(name) {
            return Some(Kind::Call(call));
        }
        if let Some(text) = Text::of_name(name) {
            return Some(Kind::Text(text));
        }
        if let Some(cached) = Cached::of_name(name) {
            return Some(Kind::Cached(cached));
        }
        Some(Kind::Work(Work::of_name(name)?))
    }
}

fn measure<R: Threads + Wait + Clock + Files + AllocGlobal + RandomSource + Sync>(
    rt: &R,
    alloc: Global,
    asked: Asked,
) -> Result<Measured, Refused> {
    let Asked {
        kind,
        threads,
        shards,
    } = asked;
    match kind {
        Kind::Work(work) => run::measure(rt, alloc, work, threads, shards),
        Kind::Text(text) => texts::measure(rt, alloc, text, threads, shards),
        Kind::Cached(cached) => caches::measure(rt, alloc, cached, threads, shards),
        Kind::Call(call) => lists::measure(rt, alloc, call, threads, shards),
    }
}

// Prints what was measured, or why nothing was.
fn tell<T: fmt::Display + Drop>(
    rt: &(impl Print + Eprint),
    measured: Result<T, Refused>,
) -> io::Result<ExitCode> {
    match measured {
        Ok(measured) => {
            println!(rt; "{measured}")?;
            Ok(ExitCode::from(0))
        }
        Err(refused) => {
            eprintln!(rt; "refused: {refused}")?;
            Ok(ExitCode::from(1))
        }
    }
}

// What the words ask for.
fn parse(words: &[String]) -> Option<Asked> {
    let (name, threads, shards) = match words {
        [name, threads] => (name, threads, SHARDS),
        [name, threads, shards] => (name, threads, shards.as_str().parse::<usize>().ok()?),
        _ => return None,
    };
    let threads = threads.as_str().parse::<usize>().ok()?;
    if threads == 0 || threads > MOST_THREADS || !is_shard_amount(shards) {
        return None;
    }
    Some(Asked {
        kind: Kind::of_name(name.as_str())?,
        threads,
        shards,
    })
}
