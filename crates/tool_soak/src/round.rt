//! A round: threads take calls till enough steps are recorded, and then all that they left is judged.

use crate::answer::{Answer, Judged, Wrong, judge, no_memory};
use crate::call::{COUNTERS, Call, Tally};
use crate::replay::{SHARDS, replay};
use crate::worker::{Log, Map, OWNERS, Recording, Set, Shared, Worker, counter_key};
use dash_shard::hash::PlaceState;
use std::alloc::{AllocError, Global};
use std::rt::Clock;
use std::sync::Wait;
use std::thread::{self, Threads};

/// After so many rounds the map and the set are cleared.
const CLEARED_AFTER: u64 = 8;

/// The map, the set and the threads, and what was done in all rounds.
#[derive(Drop)]
pub struct Soak {
    shared: Shared,
    workers: Vec<Worker>,
    pub rounds: u64,
    pub tally: Tally,
}

impl Soak {
    /// A map and a set of sixteen shards, and idle threads.
    pub fn new(alloc: Global, threads: u64, seed: u64) -> Result<Soak, AllocError> {
        let mut workers = Vec::new(alloc);
        for index in 1..=threads {
            workers.push(Worker::new(alloc, index, seed)?)?;
        }
        let Ok(map) = Map::with_shard_amount(alloc, 16) else {
            return Err(AllocError);
        };
        let Ok(set) = Set::new(alloc, 4) else {
            return Err(AllocError);
        };
        Ok(Soak {
            shared: Shared { map, set },
            workers,
            rounds: 0,
            tally: Tally::new(),
        })
    }

    /// Takes a round, which ends when so many steps are recorded, and judges it.
    ///
    /// It waits for the threads. It takes memory for the recorded map, its histories and the replay.
    pub fn round<R: Threads + Wait + Clock + Sync>(
        &mut self,
        rt: &R,
        alloc: Global,
        records: usize,
    ) -> Judged {
        for counter in 0..COUNTERS {
            let (key, stood) = (counter_key(counter), self.tally.added(counter));
            if self.shared.map.insert(rt, key, stood).is_err() {
                return Err(no_memory(Call::Insert));
            }
        }
        let recording = self.work(rt, alloc, records)?;
        self.judge_history(alloc, recording)?;
        self.judge_workers(rt)?;
        self.judge_sums(rt)?;
        self.end_round(rt)
    }

    // Lets the threads work on the map, the set and a new recorded map.
    fn work<R: Threads + Wait + Clock + Sync>(
        &mut self,
        rt: &R,
        alloc: Global,
        records: usize,
    ) -> Result<Recording, Wrong> {
        let threads = self.workers.len().clamp(1, OWNERS as usize);
        let shards = SHARDS as usize;
        let Ok((recording, logs)) = Recording::new(alloc, PlaceState, shards, threads as u32) else {
            return Err(no_memory(Call::Apply));
        };
        for (worker, log) in self.workers.iter_mut().zip(logs) {
            worker.log = Some(log);
        }
        let share = (records / threads).saturating_add(1);
        let shared = &self.shared;
        let one = |_: usize, worker: &mut Worker| worker.work(rt, shared, &recording, share);
        thread::for_each_mut(rt, self.workers.as_mut_slice(), threads, &one);
        Ok(recording)
    }

    // Judges whether a thread got a wrong answer, and lets each look at all that is left of its own.
    fn judge_workers<R: Wait + Clock>(&mut self, rt: &R) -> Judged {
        for worker in &mut self.workers {
            worker.look(rt, &self.shared);
            if let Some(wrong) = worker.wrong {
                return Err(wrong);
            }
            self.tally.add(&worker.tally);
            worker.tally = Tally::new();
        }
        Ok(())
    }

    // Judges the counters, and how many pairs and keys there are.
    fn judge_sums<R: Wait + Clock>(&mut self, rt: &R) -> Judged {
        for counter in 0..COUNTERS {
            let key = counter_key(counter);
            let wanted = Answer::Pair(key, self.tally.added(counter));
            let came = Answer::told(self.shared.map.get(rt, &key));
            self.tally.count(Call::CountGet);
            judge(Call::CountGet, key, wanted, came)?;
        }
        let (mut pairs, mut keys) = (COUNTERS as u64, 0u64);
        for worker in &self.workers {
            pairs = pairs.wrapping_add(worker.own.sums(0, 1).0);
            keys = keys.wrapping_add(worker.own_set.sums(0, 1).0);
        }
        let came = Answer::Number(self.shared.map.len(rt) as u64);
        judge(Call::Len, 0, Answer::Number(pairs), came)?;
        let came = Answer::Number(self.shared.set.len(rt) as u64);
        judge(Call::SetLen, 0, Answer::Number(keys), came)
    }

    // Judges the history of the recorded map.
    fn judge_history(&mut self, alloc: Global, recording: Recording) -> Judged {
        let Ok(logs) = self.logs(alloc) else {
            return Err(no_memory(Call::Gather));
        };
        replay(alloc, &recording.alone(), logs.as_slice(), &mut self.tally)
    }

    // The logs of the threads.
    fn logs(&mut self, alloc: Global) -> Result<Vec<Log>, AllocError> {
        let mut logs = Vec::new(alloc);
        for worker in &mut self.workers {
            if let Some(log) = worker.log.take() {
                logs.push(log)?;
            }
        }
        Ok(logs)
    }

    // Makes room between two rounds, and after some of them clears the map and the set.
    fn end_round<R: Wait + Clock>(&mut self, rt: &R) -> Judged {
        self.rounds = self.rounds.wrapping_add(1);
        if self.rounds % CLEARED_AFTER == 0 {
            self.tally.count(Call::Clear);
            self.shared.map.clear(rt);
            self.shared.set.clear(rt);
            for worker in &mut self.workers {
                worker.own.clear();
                worker.own_set.clear();
            }
        }
        self.tally.count(Call::TryReserve);
        match self.shared.map.try_reserve(1000) {
            Ok(()) => Ok(()),
            Err(_) => Err(no_memory(Call::TryReserve)),
        }
    }
}
