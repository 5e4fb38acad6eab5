//! `tool_soak minutes N THREADS [SEED]` lets threads take random calls on one map, one recorded map and one set for so many minutes, and
//! judges each answer. `tool_soak rounds N THREADS [SEED]` does so for a number of short rounds, and prints the same whatever the
//! schedule.
//!
//! It ends with status 1 at the first wrong answer, and names it.
#![tactic(auto)]

mod answer;
mod call;
mod list;
mod random;
mod replay;
mod round;
mod worker;

use answer::{Judged, Wrong};
use call::NAMES;
use round::Soak;
use std::alloc::Global;
use std::io::Eprint;
use std::process::ExitCode;
use std::rt::Clock;
use std::sync::Wait;
use std::thread::Threads;
use std::time::Instant;
use std::{env, io};

const USAGE: &str = "usage: tool_soak minutes|rounds N THREADS [SEED]";

/// The most threads that a command line may ask for.
const MOST_THREADS: u64 = 32;

/// How many steps are recorded in a round.
const RECORDS: usize = 100_000;

/// The same, in a short round.
const SHORT_RECORDS: usize = 10_000;

// What a command line asks for: a number of minutes, or of short rounds.
#[derive(Clone, Copy)]
struct Asked {
    in_minutes: bool,
    number: u64,
    threads: u64,
    seed: u64,
}

fn main(rt: HostRuntime) -> io::Result<ExitCode> {
    let words: Vec<String> = env::args(&rt)?.collect(rt.alloc())?;
    if let Some(asked) = parse(&words) {
        return soak(&rt, rt.alloc(), asked);
    }
    eprintln!(rt; "{USAGE}")?;
    Ok(ExitCode::from(2))
}

// Takes rounds for as long as is asked, or until an answer is wrong, and prints what was done and found.
fn soak<R: Threads + Wait + Clock + Sync + Print + Eprint>(
    rt: &R,
    alloc: Global,
    asked: Asked,
) -> io::Result<ExitCode> {
    println!(rt; "seed {}, threads {}", asked.seed, asked.threads)?;
    let mut soak = Soak::new(alloc, asked.threads, asked.seed)?;
    judged(rt, alloc, &mut soak, asked)
}

// Takes the rounds, and prints what they came to.
fn judged<R: Threads + Wait + Clock + Sync + Print + Eprint>(
    rt: &R,
    alloc: Global,
    soak: &mut Soak,
    asked: Asked,
) -> io::Result<ExitCode> {
    if let Err(wrong) = run(rt, alloc, soak, asked)? {
        tell_wrong(rt, wrong)?;
        return Ok(ExitCode::from(1));
    }
    if asked.in_minutes {
        tell(rt, soak)?;
    }
    println!(rt; "no wrong answer")?;
    Ok(ExitCode::from(0))
}

// Takes the rounds.
fn run<R: Threads + Wait + Clock + Sync>(
    rt: &R,
    alloc: Global,
    soak: &mut Soak,
    asked: Asked,
) -> io::Result<Judged> {
    let start = Instant::now(rt)?;
    for _ in rt.forever() {
        let (done, records) = if asked.in_minutes {
            (start.elapsed(rt)?.as_secs() / 60, RECORDS)
        } else {
            (soak.rounds, SHORT_RECORDS)
        };
        if done >= asked.number {
            break;
        }
        if let Err(wrong) = soak.round(rt, alloc, records) {
            return Ok(Err(wrong));
        }
    }
    Ok(Ok(()))
}

// Prints how many calls of each kind were taken.
fn tell(rt: &(impl Print + Eprint), soak: &Soak) -> io::Result<()> {
    for (name, count) in NAMES.iter().zip(&soak.tally.counts) {
        println!(rt; "{name}: {count}")?;
    }
    println!(rt;
        "rounds {}, most pairs at once {}",
        soak.rounds, soak.tally.most
    )
}

// Prints a wrong answer.
fn tell_wrong(rt: &(impl Print + Eprint), wrong: Wrong) -> io::Result<()> {
    let Wrong {
        call,
        key,
        wanted,
        came,
    } = wrong;
    let name = NAMES.get(call as usize).unwrap_or(&"call");
    println!(rt; "wrong answer: {name} of {key}: wanted {wanted:?}, came {came:?}")
}

// What the words of a command line ask for. The first one is the program's name.
fn parse(words: &[String]) -> Option<Asked> {
    if words.len() != 4 && words.len() != 5 {
        return None;
    }
    let in_minutes = match words[1].as_str() {
        "minutes" => true,
        "rounds" => false,
        _ => return None,
    };
    let number = words[2].as_str().parse::<u64>().ok()?;
    let threads = words[3].as_str().parse::<u64>().ok()?;
    if threads == 0 || threads > MOST_THREADS {
        return None;
    }
    let seed = match words.get(4) {
        Some(word) => word.as_str().parse::<u64>().ok()?,
        None => 1,
    };
    Some(Asked {
        in_minutes,
        number,
        threads,
        seed,
    })
}
