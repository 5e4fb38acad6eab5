//! What one thread does of the work.
//!
//! Each thread has numbers of its own, so that what it finds doesn't depend on the others, and the checksum is the same at every run.

use crate::Refused;
use crate::keys::{Keys, Random, key};
use crate::work::{ABSENT, HOLDS, PAIRS, STEPS, Work};
use dash_map::map::DashMap;
use std::hash::BuildHasher;
use std::rt::Clock;
use std::sync::Wait;
use std::thread;
use std::time::{Duration, Instant};

pub type Map<S> = DashMap<u64, u64, S>;

/// A thread's share of the numbers, and what it came to.
#[derive(Clone, Copy)]
pub struct Worker<D> {
    pub index: usize,
    pub threads: usize,
    /// Of how many pairs the numbers are, and their keys.
    pub pairs: usize,
    pub keys: D,
    pub steps: u64,
    pub sum: u64,
    /// The nanoseconds of the longest insert.
    pub worst: u128,
    pub refused: Option<Refused>,
}

// In percent, how many steps of a mix are look-ups, inserts and removals. The rest adds to values.
struct Mix {
    get: u64,
    insert: u64,
    remove: u64,
}

const READ: Mix = Mix {
    get: 98,
    insert: 1,
    remove: 1,
};

const EXCHANGE: Mix = Mix {
    get: 10,
    insert: 40,
    remove: 40,
};

const GROW: Mix = Mix {
    get: 5,
    insert: 80,
    remove: 5,
};

/// The first of a thread's numbers among `count`, and the first that is not.
pub fn share_of(count: usize, index: usize, threads: usize) -> (u64, u64) {
    let first = count.saturating_mul(index) / threads.max(1);
    let end = count.saturating_mul(index.saturating_add(1)) / threads.max(1);
    (first as u64, end as u64)
}

impl<D: Keys> Worker<D> {
    pub fn new(index: usize, threads: usize, pairs: usize, keys: D) -> Self {
        Worker {
            index,
            threads,
            pairs,
            keys,
            steps: 0,
            sum: 0,
            worst: 0,
            refused: None,
        }
    }

    /// Does this thread's share of the work.
    pub fn work<R: Wait + Clock, S: BuildHasher>(&mut self, rt: &R, map: &Map<S>, work: Work) {
        let done = match work {
            Work::Hit | Work::HitMask | Work::RandomHit | Work::SmallHit => {
                self.look_up(rt, map, STEPS, 0)
            }
            Work::CallerHit => self.look_up_as_caller(rt, map),
            Work::Miss | Work::MissMask | Work::SmallMiss => {
                self.look_up(rt, map, STEPS, ABSENT)
            }
            Work::Hostile => self.look_up(rt, map, HOLDS, 0),
            Work::Insert | Work::Insert0 | Work::Insert0Mask | Work::RandomInsert0 => {
                self.insert(rt, map)
            }
            Work::Memory => self.insert(rt, map),
            Work::Worst => self.insert_timed(rt, map),
            Work::Remove | Work::RemoveMask | Work::RandomRemove => self.remove(rt, map),
            Work::Iterate => self.walk(rt, map),
            Work::Retain => self.retain(rt, map),
            Work::GetMut => self.add_by_reference(rt, map),
            Work::SmallUpdate => self.update(rt, map),
            Work::SmallCycle => self.cycle(rt, map),
            Work::Alter => self.alter(rt, map),
            Work::Entry => self.add_by_entry(rt, map),
            Work::Contend => self.contend(rt, map),
            Work::Hold => self.hold(rt, map),
            Work::Wait => self.wait(rt, map),
            Work::Read | Work::ReadMask => self.mix(rt, map, &READ),
            Work::Exchange | Work::ExchangeMask => self.mix(rt, map, &EXCHANGE),
            Work::Grow | Work::GrowMask => self.mix(rt, map, &GROW),
        };
        self.refused = done.err();
    }

    // A step gave this number.
    #[inline(always)]
    fn count(&mut self, found: u64) {
        self.steps = self.steps.wrapping_add(1);
        self.sum = self.sum.wrapping_add(found);
    }

    fn share(&self, count: usize) -> (u64, u64) {
        share_of(count, self.index, self.threads)
    }

    fn look_up<R: Wait + Clock, S: BuildHasher>(
        &mut self,
        rt: &R,
        map: &Map<S>,
        steps: usize,
        from: u64,
    ) -> Result<(), Refused> {
        let (first, end) = self.share(steps);
        let (keys, pairs) = (self.keys, self.pairs as u64);
        for step in first..end {
            let number = keys.below(step.wrapping_mul(7), pairs);
            self.find(rt, map, keys.key(from.wrapping_add(number)));
        }
        Ok(())
    }

    fn look_up_as_caller<R: Wait + Clock, S: BuildHasher>(
        &mut self,
        rt: &R,
        map: &Map<S>,
    ) -> Result<(), Refused> {
        let (first, end) = self.share(STEPS);
        let (keys, pairs) = (self.keys, self.pairs as u64);
        let mut map = map.caller(rt);
        for step in first..end {
            let number = keys.below(step.wrapping_mul(7), pairs);
            let found = map.get(&keys.key(number));
            self.count(found.map_or(1, |found| *found.value()));
        }
        Ok(())
    }

    fn insert<R: Wait + Clock, S: BuildHasher>(
        &mut self,
        rt: &R,
        map: &Map<S>,
    ) -> Result<(), Refused> {
        let (first, end) = self.share(self.pairs);
        for number in first..end {
            let key = self.keys.key(number);
            self.put(rt, map, key, number)?;
        }
        Ok(())
    }

    fn insert_timed<R: Wait + Clock, S: BuildHasher>(
        &mut self,
        rt: &R,
        map: &Map<S>,
    ) -> Result<(), Refused> {
        let (first, end) = self.share(self.pairs);
        for number in first..end {
            let key = self.keys.key(number);
            let start = Instant::now(rt)?;
            self.put(rt, map, key, number)?;
            self.worst = self.worst.max(start.elapsed(rt)?.as_nanos());
        }
        Ok(())
    }

    fn remove<R: Wait + Clock, S: BuildHasher>(
        &mut self,
        rt: &R,
        map: &Map<S>,
    ) -> Result<(), Refused> {
        let (first, end) = self.share(self.pairs);
        for number in first..end {
            let key = self.keys.key(number);
            self.take(rt, map, key);
        }
        Ok(())
    }

    fn walk<R: Wait + Clock, S: BuildHasher>(
        &mut self,
        rt: &R,
        map: &Map<S>,
    ) -> Result<(), Refused> {
        for found in map.iter(rt) {
            let found = found?;
            self.count(*found.value());
        }
        Ok(())
    }

    fn retain<R: Wait + Clock, S: BuildHasher>(
        &mut self,
        rt: &R,
        map: &Map<S>,
    ) -> Result<(), Refused> {
        map.retain(rt, |_, value| {
            self.count(*value);
            true
        });
        Ok(())
    }

    fn add_by_reference<R: Wait + Clock, S: BuildHasher>(
        &mut self,
        rt: &R,
        map: &Map<S>,
    ) -> Result<(), Refused> {
        let (first, end) = self.share(self.pairs);
        for number in first..end {
            let key = self.keys.key(number);
            self.add(rt, map, key);
        }
        Ok(())
    }

    fn alter<R: Wait + Clock, S: BuildHasher>(
        &mut self,
        rt: &R,
        map: &Map<S>,
    ) -> Result<(), Refused> {
        let (first, end) = self.share(self.pairs);
        for number in first..end {
            self.alter_one(rt, map, number);
        }
        Ok(())
    }

    fn contend<R: Wait + Clock, S: BuildHasher>(
        &mut self,
        rt: &R,
        map: &Map<S>,
    ) -> Result<(), Refused> {
        let (first, end) = self.share(STEPS);
        for _ in first..end {
            self.alter_one(rt, map, 0);
        }
        Ok(())
    }

    fn update<R: Wait + Clock, S: BuildHasher>(
        &mut self,
        rt: &R,
        map: &Map<S>,
    ) -> Result<(), Refused> {
        let (first, end) = self.share(STEPS);
        for step in first..end {
            let number = self.keys.below(step, self.pairs as u64);
            if let Some(mut found) = map.get_mut(rt, &self.keys.key(number)) {
                *found = found.wrapping_add(1);
                self.count(1);
            }
        }
        Ok(())
    }

    fn cycle<R: Wait + Clock, S: BuildHasher>(
        &mut self,
        rt: &R,
        map: &Map<S>,
    ) -> Result<(), Refused> {
        let (first, end) = self.share(self.pairs);
        let (from, to) = self.share(STEPS);
        for step in from..to {
            let number = self.keys.below(step, end.saturating_sub(first));
            let key = self.keys.key(first.wrapping_add(number));
            self.take(rt, map, key);
            self.put(rt, map, key, step)?;
        }
        Ok(())
    }

    fn add_by_entry<R: Wait + Clock, S: BuildHasher>(
        &mut self,
        rt: &R,
        map: &Map<S>,
    ) -> Result<(), Refused> {
        let (first, end) = self.share(2 * PAIRS);
        for number in first..end {
            let mut found = map.entry(rt, self.keys.key(number))?.or_insert(0);
            let value = found.wrapping_add(1);
            *found = value;
            self.count(value);
        }
        Ok(())
    }

    fn hold<R: Wait + Clock, S: BuildHasher>(
        &mut self,
        rt: &R,
        map: &Map<S>,
    ) -> Result<(), Refused> {
        let (first, end) = self.share(HOLDS);
        for _ in first..end {
            if let Some(mut found) = map.get_mut(rt, &self.keys.key(0)) {
                let mut value = *found;
                for _ in 0..200u64 {
                    value = key(value);
                }
                *found = value;
                self.count(1);
            }
        }
        Ok(())
    }

    fn wait<R: Wait + Clock, S: BuildHasher>(
        &mut self,
        rt: &R,
        map: &Map<S>,
    ) -> Result<(), Refused> {
        let holds = self.index == 0;
        if !holds {
            thread::sleep(rt, Duration::from_millis(10));
        }
        if let Some(found) = map.get_mut(rt, &self.keys.key(0)) {
            if holds {
                thread::sleep(rt, Duration::from_secs(1));
            }
            self.count(*found);
        }
        Ok(())
    }

    fn mix<R: Wait + Clock, S: BuildHasher>(
        &mut self,
        rt: &R,
        map: &Map<S>,
        mix: &Mix,
    ) -> Result<(), Refused> {
        let (first, end) = self.share(self.pairs);
        let (from, to) = self.share(STEPS);
        let mut random = Random::new(first.wrapping_add(1));
        for _ in from..to {
            let drawn = random.next();
            let number = self.keys.below(drawn >> 20, end.saturating_sub(first));
            let key = self.keys.key(first.wrapping_add(number));
            self.step(rt, map, mix, drawn & 0xfffff, key)?;
        }
        Ok(())
    }

    // One step of a mix, on this key.
    #[inline]
    fn step<R: Wait + Clock, S: BuildHasher>(
        &mut self,
        rt: &R,
        map: &Map<S>,
        mix: &Mix,
        drawn: u64,
        key: u64,
    ) -> Result<(), Refused> {
        let kind = drawn % 100;
        if kind < mix.get {
            self.find(rt, map, key);
        } else if kind < mix.get.wrapping_add(mix.insert) {
            self.put(rt, map, key, drawn)?;
        } else if kind < mix.get.wrapping_add(mix.insert).wrapping_add(mix.remove) {
            self.take(rt, map, key);
        } else {
            self.add(rt, map, key);
        }
        Ok(())
    }

    #[inline(always)]
    fn find<R: Wait + Clock, S: BuildHasher>(&mut self, rt: &R, map: &Map<S>, key: u64) {
        self.count(map.get(rt, &key).map_or(1, |found| *found.value()));
    }

    #[inline(always)]
    fn put<R: Wait + Clock, S: BuildHasher>(
        &mut self,
        rt: &R,
        map: &Map<S>,
        key: u64,
        value: u64,
    ) -> Result<(), Refused> {
        self.count(map.insert(rt, key, value)?.unwrap_or(1));
        Ok(())
    }

    #[inline(always)]
    fn take<R: Wait + Clock, S: BuildHasher>(&mut self, rt: &R, map: &Map<S>, key: u64) {
        self.count(map.remove(rt, &key).map_or(1, |(_, value)| value));
    }

    #[inline(always)]
    fn add<R: Wait + Clock, S: BuildHasher>(&mut self, rt: &R, map: &Map<S>, key: u64) {
        match map.get_mut(rt, &key) {
            Some(mut found) => {
                let value = found.wrapping_add(1);
                *found = value;
                self.count(value);
            }
            None => self.count(1),
        }
    }

    #[inline(always)]
    fn alter_one<R: Wait + Clock, S: BuildHasher>(&mut self, rt: &R, map: &Map<S>, number: u64) {
        map.alter(rt, &self.keys.key(number), |_, value| value.wrapping_add(1));
        self.count(1);
    }
}
