//! Works on a cache, and the time that they take.

use crate::Refused;
use crate::keys::{Random, key};
use crate::run::{Measured, on_threads};
use crate::work::SMALL;
use crate::worker::share_of;
use crate::zipf::below_million;
use dash_shard::hash::FixedState;
use dashmap::memo::{Memo, Rule};
use std::alloc::{AllocError, Global};
use std::rt::Clock;
use std::sync::Wait;
use std::thread::Threads;
use std::time::Instant;

/// How often a cache is asked in all.
const ASKS: usize = 1_000_000;

/// How many values a cache keeps at most that is asked for more.
const MOST: usize = 100_000;

/// One kind of work. `of_name` says how a command line names it.
#[derive(Clone, Copy, PartialEq, Eq)]
pub enum Cached {
    /// Asks for a thousand keys, whose values are kept.
    Hit,
    /// Asks for keys that are drawn of a million by Zipf's law, where a tenth of the values is kept.
    Mix,
}

impl Cached {
    pub fn of_name(name: &str) -> Option<Cached> {
        Some(match name {
            "memo-hit" => Cached::Hit,
            "memo-mix" => Cached::Mix,
            _ => return None,
        })
    }
}

// The rule: a key's square and one more, wrapped.
#[derive(Drop)]
struct Square;

impl Rule<u64, u64> for Square {
    ghost use Rattle.std.specs.Prelude.{◌+◌, ◌*◌, ◌%◌, ◌^◌};
    ghost use Rattle.std.proofs.Common.{arith};
    ghost use Rattle.std.proofs.lemmas.Bool.Decides.{nat_tests};

    ghost value_of = { λ k. (k * k + 1) % 2 ^ 64 };

    #[inline]
    fn compute(&self, key: &u64) -> Result<u64, AllocError> {
        Ok(key.wrapping_mul(*key).wrapping_add(1))
    }

    ghost equal_alike = { λ j k same. Prim.grind (arith, nat_tests) };
}

type Cache = Memo<u64, u64, Square, FixedState>;

/// A thread, and what it came to.
#[derive(Clone, Copy)]
struct Worker {
    index: usize,
    threads: usize,
    steps: u64,
    sum: u64,
    refused: Option<Refused>,
}

impl Worker {
    // Does this thread's share of the work.
    fn work<R: Wait + Clock>(&mut self, rt: &R, cache: &Cache, cached: Cached) {
        let done = match cached {
            Cached::Hit => self.hit(rt, cache),
            Cached::Mix => self.mix(rt, cache),
        };
        self.refused = done.err();
    }

    fn hit<R: Wait + Clock>(&mut self, rt: &R, cache: &Cache) -> Result<(), Refused> {
        let (first, end) = share_of(ASKS, self.index, self.threads);
        for step in first..end {
            self.ask(rt, cache, step.wrapping_mul(7) % SMALL as u64)?;
        }
        Ok(())
    }

    fn mix<R: Wait + Clock>(&mut self, rt: &R, cache: &Cache) -> Result<(), Refused> {
        let (first, end) = share_of(ASKS, self.index, self.threads);
        let mut random = Random::new(first.wrapping_add(1));
        for _ in first..end {
            self.ask(rt, cache, below_million(random.next()))?;
        }
        Ok(())
    }

    #[inline(always)]
    fn ask<R: Wait + Clock>(&mut self, rt: &R, cache: &Cache, number: u64) -> Result<(), Refused> {
        let value = cache.ask(rt, &key(number))?;
        self.steps = self.steps.wrapping_add(1);
        self.sum = self.sum.wrapping_add(value);
        Ok(())
    }
}

/// Makes the cache of a work, of so many shards, and takes the time that so many threads need for the work.
///
/// It takes memory for the cache and the workers, and waits for the threads. It is refused where more is kept than the bound lets.
pub fn measure<R: Threads + Wait + Clock + Sync>(
    rt: &R,
    alloc: Global,
    cached: Cached,
    threads: usize,
    shards: usize,
) -> Result<Measured, Refused> {
    let cache = Cache::with_bound_and_hasher_and_shard_amount(
        alloc, Square, MOST, FixedState, shards,
    )?;
    if cached == Cached::Hit {
        for number in 0..SMALL as u64 {
            cache.ask(rt, &key(number))?;
        }
    }
    let workers = idle_workers(alloc, threads)?;
    let one = |mut worker: Worker| -> Worker {
        worker.work(rt, &cache, cached);
        worker
    };
    let start = Instant::now(rt)?;
    let workers = on_threads(rt, alloc, workers, &one)?;
    let nanoseconds = start.elapsed(rt)?.as_nanos();
    if cache.len(rt) > cache.bound().saturating_mul(shards) {
        return Err(Refused::Bound);
    }
    sum_up(workers.as_slice(), nanoseconds)
}

// What all workers came to.
fn sum_up(workers: &[Worker], nanoseconds: u128) -> Result<Measured, Refused> {
    let (mut steps, mut sum) = (0u64, 0u64);
    for worker in workers {
        if let Some(refused) = worker.refused {
            return Err(refused);
        }
        steps = steps.wrapping_add(worker.steps);
        sum = sum.wrapping_add(worker.sum);
    }
    Ok(Measured {
        nanoseconds,
        steps,
        sum,
        bytes: 0,
    })
}

// A worker for each thread, which has done nothing yet.
fn idle_workers(alloc: Global, threads: usize) -> Result<Vec<Worker>, AllocError> {
    let mut workers = Vec::with_capacity(alloc, threads)?;
    for index in 0..threads {
        workers.push(Worker {
            index,
            threads,
            steps: 0,
            sum: 0,
            refused: None,
        })?;
    }
    Ok(workers)
}
