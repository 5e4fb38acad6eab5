//! A thread of the soak: its random calls, and the lists by which it knows what they have to answer.
ghost use Rattle.std.specs.Prelude.{◌≡◌, ◌↔◌, Ok};

mod beside;
mod pairs;
mod recorded;
mod walks;

use crate::answer::{Answer, Judged, Wrong, judge};
use crate::call::{Call, Tally};
use crate::list::List;
use crate::random::Random;
use dash_history::record::CallerLog;
use dash_history::record::map::RecordedMap;
use dash_script::change::Change;
use dash_shard::hash::PlaceState;
use dashmap::hash::FixedState;
use dashmap::mapref::one::RefMut;
use dashmap::{DashMap, DashSet};
use std::alloc::{AllocError, Global};
use std::rt::Clock;
use std::sync::Wait;

/// How many keys of the map each thread has for its own, and how many of the set.
pub const OWN: u64 = 8192;

/// The low bits of a key or a value, modulo this number, say which thread has it for its own or has written it. The counters have 0.
pub const OWNERS: u64 = 64;

/// How long a thread mostly puts, and then mostly removes, in calls.
const TIDE: u64 = 32_768;

pub type Map = DashMap<u64, u64>;

pub type Set = DashSet<u64>;

pub type Recording = RecordedMap<u64, u64, PlaceState, Change>;

pub type Log = CallerLog<u64, u64, Change>;

/// What the threads share.
#[derive(Drop)]
pub struct Shared {
    pub map: Map,
    pub set: Set,
}

/// One thread, between and in its rounds.
#[derive(Drop)]
pub struct Worker {
    index: u64,
    random: Random,
    calls: u64,
    /// What the map has at each key of its own.
    pub own: List,
    /// The same of the set. What stands at a key is the key.
    pub own_set: List,
    // What the pairs of its own weigh that a walk saw.
    seen: u64,
    /// Its log of the recorded map.
    pub log: Option<Log>,
    pub tally: Tally,
    /// The first wrong answer that it got.
    pub wrong: Option<Wrong>,
}

// A random call: of which kind, on which key of the thread's own, and with which value. The key has a number in the thread's lists.
#[derive(Clone, Copy)]
pub struct Draw {
    group: u64,
    kind: u64,
    number: u64,
    key: u64,
    other: u64,
    value: u64,
}

/// The thread that has a key, or has written a value, from 1 on, or 0 for none.
#[inline]
pub fn owner(number: u64) -> u64 {
    number % OWNERS
}

/// The key of a counter.
#[inline]
pub fn counter_key(counter: usize) -> u64 {
    (counter as u64).wrapping_mul(OWNERS)
}

// Another value of the same thread.
#[inline]
fn raised(value: u64) -> u64 {
    value.wrapping_add(OWNERS)
}

fn raised_at(_: &u64, value: u64) -> u64 {
    raised(value)
}

fn raise(value: &mut u64) {
    *value = raised(*value);
}

// Raises a value by a reference, and returns the pair that stood there.
fn raise_found(found: Option<RefMut<'_, u64, u64, FixedState>>) -> Answer {
    let Some(mut found) = found else {
        return Answer::Nothing;
    };
    let stood = Answer::Pair(*found.key(), *found.value());
    raise(found.value_mut());
    stood
}

// Whether a value is one of those that go.
#[inline]
fn goes(value: u64) -> bool {
    value / OWNERS % 2 == 0
}

fn goes_at(_: &u64, value: &u64) -> bool {
    goes(*value)
}

// What goes of a value, and what stays.
fn parted(value: Option<u64>) -> (Option<u64>, Option<u64>) {
    match value {
        Some(number) if goes(number) => (value, None),
        _ => (None, value),
    }
}

impl Worker {
    /// A thread that has done nothing yet. It takes memory for its lists.
    pub fn new(alloc: Global, index: u64, seed: u64) -> Result<Worker, AllocError> {
        Ok(Worker {
            index,
            random: Random::of(seed, index),
            calls: 0,
            own: List::new(alloc, OWN as usize)?,
            own_set: List::new(alloc, OWN as usize)?,
            seen: 0,
            log: None,
            tally: Tally::new(),
            wrong: None,
        })
    }

    /// Takes random calls until its log has so many records, or an answer is wrong.
    pub fn work<R: Wait + Clock>(
        &mut self,
        rt: &R,
        shared: &Shared,
        recording: &Recording,
        records: usize,
    ) {
        let Some(mut log) = self.log.take() else {
            return;
        };
        for _ in rt.forever() {
            if log.entries().len() >= records || self.wrong.is_some() {
                break;
            }
            let judged = self.take(rt, shared, recording, &mut log);
            self.note(judged);
        }
        self.log = Some(log);
    }

    fn take<R: Wait + Clock>(
        &mut self,
        rt: &R,
        shared: &Shared,
        recording: &Recording,
        log: &mut Log,
    ) -> Judged {
        let draw = self.draw();
        match draw.group {
            0..=20 => self.take_pair(rt, &shared.map, draw),
            21..=26 => self.take_beside(rt, &shared.map, draw),
            27..=30 => self.take_counter(rt, &shared.map, draw),
            31..=37 => self.take_key(rt, &shared.set, draw),
            38 if draw.other % 64 == 0 => self.take_walk(rt, shared, draw),
            38 => self.take_look(rt, shared, draw),
            _ => self.take_step(rt, recording, log, draw),
        }
    }

    // The next random call. Of sixteen kinds, 4 to 7 put while the tide rises, as 0 to 3 do, and later remove.
    fn draw(&mut self) -> Draw {
        self.calls = self.calls.wrapping_add(1);
        let (drawn, value) = (self.random.next(), self.random.next());
        let number = (drawn >> 16) % OWN;
        let mut kind = (drawn >> 8) % 16;
        if self.calls / TIDE % 2 == 0 && kind < 8 {
            kind %= 4;
        }
        Draw {
            group: drawn % 64,
            kind,
            number,
            key: self.key(number),
            other: (drawn >> 32) % OWN,
            value: self.key(value),
        }
    }

    // The key of a number, or a value, of this thread's own.
    fn key(&self, number: u64) -> u64 {
        number.wrapping_mul(OWNERS).wrapping_add(self.index)
    }

    /// Looks at all that the map and the set have of its own, and notes what is wrong.
    pub fn look<R: Wait + Clock>(&mut self, rt: &R, shared: &Shared) {
        let judged = self.walk(rt, &shared.map, 0);
        self.note(judged);
        let judged = self.walk_set(rt, &shared.set);
        self.note(judged);
    }

    // Notes a wrong answer, if it is the first one.
    fn note(&mut self, judged: Judged) {
        if self.wrong.is_none() {
            self.wrong = judged.err();
        }
    }

    // Counts a call, and judges its answer.
    #[inline]
    fn judge(&mut self, call: Call, key: u64, wanted: Answer, came: Answer) -> Judged
        ensures right { result ≡ Ok tt ↔ (wanted ≡ came) }
    {
        self.tally.count(call);
        judge(call, key, wanted, came)
    }
}
