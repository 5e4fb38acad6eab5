//! A map that is made and filled, the threads that work on it, and the time that they take.
ghost use Rattle.dash_shard.specs.Hashing.{HashAlike};

use crate::Refused;
use crate::keys::{Keys, Masked, Mixed};
use crate::memory::resident;
use crate::work::{Form, Work};
use crate::worker::{Map, Worker};
use dash_shard::hash::{FixedState, ZeroState};
use dash_shard::keyed::Keyed;
use std::alloc::{AllocError, Global};
use std::fmt;
use std::hash::{BuildHasher, RandomState};
use std::random::RandomSource;
use std::rt::{Clock, Files};
use std::sync::Wait;
use std::thread::{self, Threads};
use std::time::Instant;

/// What was measured.
#[derive(Clone, Copy, Debug)]
pub struct Measured {
    pub nanoseconds: u128,
    pub steps: u64,
    pub sum: u64,
    pub bytes: u64,
}

impl Measured {
    // What the workers came to: of the work that asks for it the longest insert, in place of all.
    fn of<D: Keys>(
        work: Work,
        workers: &[Worker<D>],
        mut nanoseconds: u128,
        bytes: u64,
    ) -> Result<Measured, Refused> {
        let (mut steps, mut sum, mut worst) = (0u64, 0u64, 0u128);
        for worker in workers {
            if let Some(refused) = worker.refused {
                return Err(refused);
            }
            steps = steps.wrapping_add(worker.steps);
            sum = sum.wrapping_add(worker.sum);
            worst = worst.max(worker.worst);
        }
        if work == Work::Worst {
            (nanoseconds, steps) = (worst, 1);
        }
        Ok(Measured {
            nanoseconds,
            steps,
            sum,
            bytes,
        })
    }
}

impl fmt::Display for Measured {
    fn fmt<W: fmt::Write>(&self, f: &mut fmt::Formatter<W>) -> fmt::Result {
        let Measured {
            nanoseconds,
            steps,
            sum,
            bytes,
        } = *self;
        write!(f, "ns {nanoseconds} ops {steps} sum {sum} bytes {bytes}")
    }
}

/// Makes the map of a work, of so many shards, and fills it, and then takes the time that so many threads need for the work.
///
/// It takes memory for the map and the workers, and waits for the threads.
pub fn measure<R: Threads + Wait + Clock + Files + AllocGlobal + RandomSource + Sync>(
    rt: &R,
    alloc: Global,
    work: Work,
    threads: usize,
    shards: usize,
) -> Result<Measured, Refused> {
    match work.form() {
        Form::Mixed => measure_by(rt, alloc, FixedState, Mixed, work, threads, shards),
        Form::Masked => measure_by(rt, alloc, FixedState, Masked, work, threads, shards),
        Form::Random => {
            let hasher = RandomState::new(rt)?;
            measure_by(rt, alloc, hasher, Mixed, work, threads, shards)
        }
        Form::Zero => measure_by(rt, alloc, ZeroState, Mixed, work, threads, shards),
    }
}

// Measures a work on a map with this hasher and these keys.
fn measure_by<R, D: Keys, S: BuildHasher + Clone + Send + Sync + Drop>(
    rt: &R,
    alloc: Global,
    hasher: S,
    keys: D,
    work: Work,
    threads: usize,
    shards: usize,
) -> Result<Measured, Refused>
where
    R: Threads + Wait + Clock + Files + AllocGlobal + Sync,
    S::Hasher: Send + Sync,
    requires { (s t : S) → S.is_clone s t → HashAlike ⟦<Map<S> as Keyed>⟧.by s t }
{
    let before = resident(rt);
    let map = Map::with_capacity_and_hasher_and_shard_amount(alloc, work.room(), hasher, shards)?;
    fill(rt, &map, keys, work)?;
    let workers = idle_workers(alloc, threads, work.pairs(), keys)?;
    let (nanoseconds, workers) = timed(rt, alloc, &map, work, workers)?;
    let bytes = resident(rt).saturating_sub(before);
    Measured::of(work, workers.as_slice(), nanoseconds, bytes)
}

// Puts the pairs that a work wants to be there.
fn fill<R: Wait + Clock, D: Keys, S: BuildHasher>(
    rt: &R,
    map: &Map<S>,
    keys: D,
    work: Work,
) -> Result<(), Refused> {
    for number in 0..work.filled() as u64 {
        map.insert(rt, keys.key(number), number)?;
    }
    Ok(())
}

// The nanoseconds that the workers need, each on a thread, and the workers.
fn timed<R: Threads + Wait + Clock + Sync, D: Keys, S: BuildHasher + Send + Sync>(
    rt: &R,
    alloc: Global,
    map: &Map<S>,
    work: Work,
    workers: Vec<Worker<D>>,
) -> Result<(u128, Vec<Worker<D>>), Refused>
where
    S::Hasher: Send + Sync,
{
    let one = |mut worker: Worker<D>| -> Worker<D> {
        worker.work(rt, map, work);
        worker
    };
    let start = Instant::now(rt)?;
    let workers = on_threads(rt, alloc, workers, &one)?;
    Ok((start.elapsed(rt)?.as_nanos(), workers))
}

/// Lets each worker work and returns all: the first works here, and each other in a thread that this one makes, as in the Rust program. Where
/// threads make threads at one time, the system may put two of them on one processor.
pub fn on_threads<R: Threads + Wait + Sync, W: Send + Drop, F: Fn(W) -> W + Sync>(
    rt: &R,
    alloc: Global,
    workers: Vec<W>,
    one: &F,
) -> Result<Vec<W>, Refused>
    requires { (w : W) → F.pre one.now w }
{
    thread::scope(
        thread::scope_env(),
        rt,
        move |scope| -> Result<Vec<W>, Refused>
            requires { (w : W) → F.pre one.now w }
        {
            let mut done = Vec::with_capacity(alloc, workers.len())?;
            let mut threads = Vec::with_capacity(alloc, workers.len())?;
            let mut workers = workers.into_iter();
            let first = workers.next();
            for worker in workers {
                let Ok(thread) = scope.spawn(move || one(worker)) else {
                    return Err(Refused::Thread);
                };
                threads.push(thread)?;
            }
            if let Some(worker) = first {
                done.push(one(worker))?;
            }
            for thread in threads {
                done.push(thread.join(rt))?;
            }
            Ok(done)
        },
    )
}

// A worker for each thread, which has done nothing yet.
fn idle_workers<D: Keys>(
    alloc: Global,
    threads: usize,
    pairs: usize,
    keys: D,
) -> Result<Vec<Worker<D>>, AllocError> {
    let mut workers = Vec::with_capacity(alloc, threads)?;
    for index in 0..threads {
        workers.push(Worker::new(index, threads, pairs, keys))?;
    }
    Ok(workers)
}
