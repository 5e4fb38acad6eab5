//! Works on a map whose keys are texts of 8 to 40 bytes, and whose values take 64 bytes.

use crate::Refused;
use crate::keys::key;
use crate::run::{Measured, on_threads};
use crate::worker::share_of;
use dash_map::map::DashMap;
use std::alloc::{AllocError, Global};
use std::rt::Clock;
use std::sync::Wait;
use std::thread::Threads;
use std::time::Instant;

/// How many pairs there are.
const PAIRS: usize = 200_000;

/// How often each key is looked up.
const ROUNDS: u64 = 5;

type Value = [u64; 8];

type Map = DashMap<String, Value>;

/// One kind of work. `of_name` says how a command line names it.
#[derive(Clone, Copy, PartialEq, Eq)]
pub enum Text {
    /// Looks up texts that are there.
    Hit,
    /// Inserts new texts into a map without room.
    Insert0,
    /// Removes texts.
    Remove,
}

impl Text {
    pub fn of_name(name: &str) -> Option<Text> {
        Some(match name {
            "string-hit" => Text::Hit,
            "string-insert0" => Text::Insert0,
            "string-remove" => Text::Remove,
            _ => return None,
        })
    }
}

// The text of a number: letters that stand for bits of its key.
fn text_of(alloc: Global, number: u64) -> Result<String, AllocError> {
    let mut bits = key(number);
    let length = 8 + bits % 33;
    let mut text = String::with_capacity(alloc, 40)?;
    for _ in 0..length {
        text.push((b'a' + (bits & 15) as u8) as char)?;
        bits = bits.rotate_right(4);
    }
    Ok(text)
}

fn sum_of(value: &Value) -> u64 {
    let mut sum: u64 = 0;
    for part in value {
        sum = sum.wrapping_add(*part);
    }
    sum
}

/// How many steps there were, and the sum of what they gave.
#[derive(Clone, Copy)]
struct Tally {
    steps: u64,
    sum: u64,
}

impl Tally {
    fn new() -> Self {
        Tally { steps: 0, sum: 0 }
    }

    // A step gave this, or nothing.
    #[inline(always)]
    fn count(&mut self, found: Option<u64>) {
        self.steps = self.steps.wrapping_add(1);
        self.sum = self.sum.wrapping_add(found.unwrap_or(1));
    }
}

fn look_up<R: Wait + Clock>(rt: &R, map: &Map, keys: &[String]) -> Tally {
    let mut tally = Tally::new();
    for _ in 0..ROUNDS {
        for key in keys {
            tally.count(map.get(rt, key.as_str()).map(|found| sum_of(found.value())));
        }
    }
    tally
}

fn insert<R: Wait + Clock>(rt: &R, map: &Map, keys: &mut Vec<String>) -> Result<Tally, Refused> {
    let mut tally = Tally::new();
    for number in 0..keys.len() as u64 {
        if let Some(key) = keys.pop() {
            let old = map.insert(rt, key, [number; 8])?;
            tally.count(old.map(|old| sum_of(&old)));
        }
    }
    Ok(tally)
}

fn remove<R: Wait + Clock>(rt: &R, map: &Map, keys: &[String]) -> Tally {
    let mut tally = Tally::new();
    for key in keys {
        let old = map.remove(rt, key);
        tally.count(old.map(|(_, value)| sum_of(&value)));
    }
    tally
}

/// A thread's texts, and what it came to.
#[derive(Drop)]
struct Worker {
    keys: Vec<String>,
    done: Result<Tally, Refused>,
}

impl Worker {
    // A thread's texts, in an order that looks random.
    fn new(alloc: Global, index: usize, threads: usize) -> Result<Self, AllocError> {
        let (first, end) = share_of(PAIRS, index, threads);
        let mut keys = Vec::with_capacity(alloc, end.saturating_sub(first) as usize)?;
        for number in first..end {
            let number = number.wrapping_mul(77_773) % PAIRS as u64;
            keys.push(text_of(alloc, number)?)?;
        }
        Ok(Worker {
            keys,
            done: Ok(Tally::new()),
        })
    }

    fn work<R: Wait + Clock>(&mut self, rt: &R, map: &Map, text: Text) {
        self.done = match text {
            Text::Hit => Ok(look_up(rt, map, self.keys.as_slice())),
            Text::Insert0 => insert(rt, map, &mut self.keys),
            Text::Remove => Ok(remove(rt, map, self.keys.as_slice())),
        };
    }
}

/// Makes the map of a work, of so many shards, and fills it, and then takes the time that so many threads need for the work.
///
/// It takes memory for the map and the workers, and waits for the threads.
pub fn measure<R: Threads + Wait + Clock + Sync>(
    rt: &R,
    alloc: Global,
    text: Text,
    threads: usize,
    shards: usize,
) -> Result<Measured, Refused> {
    let map = filled(rt, alloc, text, shards)?;
    let workers = idle_workers(alloc, threads)?;
    let one = |mut worker: Worker| -> Worker {
        worker.work(rt, &map, text);
        worker
    };
    let start = Instant::now(rt)?;
    let workers = on_threads(rt, alloc, workers, &one)?;
    let nanoseconds = start.elapsed(rt)?.as_nanos();
    let all = sum_up(workers.as_slice())?;
    Ok(Measured {
        nanoseconds,
        steps: all.steps,
        sum: all.sum,
        bytes: 0,
    })
}

// The map of a work: with all texts, or where they are inserted without room.
fn filled<R: Wait + Clock>(
    rt: &R,
    alloc: Global,
    text: Text,
    shards: usize,
) -> Result<Map, Refused> {
    let room = if text == Text::Insert0 { 0 } else { PAIRS };
    let map = Map::with_capacity_and_shard_amount(alloc, room, shards)?;
    for number in 0..room as u64 {
        map.insert(rt, text_of(alloc, number)?, [number; 8])?;
    }
    Ok(map)
}

// What all workers came to.
fn sum_up(workers: &[Worker]) -> Result<Tally, Refused> {
    let mut all = Tally::new();
    for worker in workers {
        let done = worker.done?;
        all.steps = all.steps.wrapping_add(done.steps);
        all.sum = all.sum.wrapping_add(done.sum);
    }
    Ok(all)
}

// A worker for each thread, which has done nothing yet.
fn idle_workers(alloc: Global, threads: usize) -> Result<Vec<Worker>, AllocError> {
    let mut workers = Vec::with_capacity(alloc, threads)?;
    for index in 0..threads {
        workers.push(Worker::new(alloc, index, threads)?)?;
    }
    Ok(workers)
}
