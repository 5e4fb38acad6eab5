//! Where a lock's waiters sleep. No proof rests on it.
use crate::lock::Tagged;
use crate::lock::cell::Cell;
use crate::lock::word::{MOST_READERS, ONE_READER, READERS_PARKED, WRITERS_PARKED};
use std::rt::Clock;
use std::sync::{Condvar, CondvarTimeouts, Mutex, Wait};
use std::time::Duration;

/// A waiter sets its mark under the Mutex, and sleeps a millisecond at most: a release that finds the mark takes no Mutex, so what it tells
/// may come before the sleep.
#[derive(Drop)]
pub struct Sleepers {
    gate: Mutex<()>,
    readers: Condvar,
    writers: Condvar,
}

impl Sleepers {
    /// Nobody sleeps. It takes no memory.
    #[inline]
    pub fn new() -> Sleepers {
        Sleepers {
            gate: Mutex::new(()),
            readers: Condvar::new(),
            writers: Condvar::new(),
        }
    }

    /// Sets the readers' mark, if a reader still has to wait, and sleeps.
    pub fn park_reader<T: Tagged, R: Wait + Clock>(&self, cell: &Cell<T>, rt: &R) {
        let gate = self.gate.lock(rt);
        let seen = cell.word();
        if seen / ONE_READER < MOST_READERS {
            return;
        }
        if seen % 2 == 0 && cell.remark(seen, seen + READERS_PARKED).is_err() {
            return;
        }
        let (_gate, _) = self
            .readers
            .wait_timeout(rt, gate, Duration::from_millis(1));
    }

    /// Sets the writers' mark, if a writer still has to wait, and sleeps.
    pub fn park_writer<T: Tagged, R: Wait + Clock>(&self, cell: &Cell<T>, rt: &R) {
        let gate = self.gate.lock(rt);
        let seen = cell.word();
        if seen < ONE_READER {
            return;
        }
        if seen / 2 % 2 == 0 && cell.remark(seen, seen + WRITERS_PARKED).is_err() {
            return;
        }
        let (_gate, _) = self
            .writers
            .wait_timeout(rt, gate, Duration::from_millis(1));
    }

    /// Wakes who the marks of the word `found` name, after a release. Where the last reader went and only writers sleep, their mark goes too.
    #[cold]
    #[inline(never)]
    pub fn unpark<T: Tagged>(&self, cell: &Cell<T>, found: u64) {
        if found == ONE_READER + WRITERS_PARKED {
            let _ = cell.remark(WRITERS_PARKED, 0);
        }
        if found % 2 != 0 {
            self.unpark_readers();
        }
        if found / 2 % 2 != 0 {
            self.writers.notify_one();
        }
    }

    /// Wakes the readers.
    #[cold]
    #[inline(never)]
    pub fn unpark_readers(&self) {
        self.readers.notify_all();
    }
}
