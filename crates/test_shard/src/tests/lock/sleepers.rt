//! Who must wait sleeps behind a mark, and nobody else does; a mark stops no call that needn't wait.
ghost use Rattle.std.specs.Prelude.{◌≡◌};

use super::{Bounded, locked};
use crate::tests::checks::is;
use crate::tests::nap::Nap;
use dash_shard::lock::cell::Cell as LockCell;
use dash_shard::lock::hold::Hold;
use dash_shard::lock::sleepers::Sleepers;
use dash_shard::lock::{RwLock, RwLockReadGuard};
use std::cell::Cell;
use std::rt::Clock;
use std::sync::Wait;

// The word of a writer and no mark: 2^64 - 4.
const WRITER: u64 = 0xffff_ffff_ffff_fffc;

// How often a reader and a writer sleep that come to a cell, and the word that they leave.
fn sleeps<R: Wait + Clock>(rt: &R, cell: &LockCell<Bounded>) -> (u64, u64, u64) {
    let sleepers = Sleepers::new();
    let (readers, writers) = (Nap::behind(rt, ()), Nap::behind(rt, ()));
    sleepers.park_reader(cell, &readers);
    sleepers.park_writer(cell, &writers);
    (readers.sleeps(), writers.sleeps(), cell.word())
}

// The same while the cell is held to read.
fn sleeps_behind_reader<R: Wait + Clock>(rt: &R, cell: &LockCell<Bounded>) -> (u64, u64, u64) {
    let (found, hold) = cell.take(0, 4);
    if found.is_err() {
        hold.done();
        return (0, 0, 0);
    }
    let slept = sleeps(rt, cell);
    hold.leave();
    slept
}

// The same while it is held to write.
fn sleeps_behind_writer<R: Wait + Clock>(rt: &R, cell: &LockCell<Bounded>) -> (u64, u64, u64) {
    let (found, hold) = cell.take(0, WRITER);
    if found.is_err() {
        hold.done();
        return (0, 0, 0);
    }
    let slept = sleeps(rt, cell);
    hold.open();
    slept
}

// Finds a waiter that sleeps at a free lock, or doesn't sleep at one that is held, and one that sets no mark or another's.
#[test]
fn who_must_wait_sleeps_behind_a_mark(rt: HostRuntime) {
    let cell = LockCell::new(Bounded { number: 7 }, &100);
    is(&rt, sleeps(&rt, &cell), (0, 0, 0));
    is(&rt, sleeps_behind_writer(&rt, &cell), (1, 1, WRITER + 3));
    is(&rt, sleeps_behind_reader(&rt, &cell), (0, 1, 6));
    is(&rt, cell.into_inner().number, 7);
}

// What is asked of a lock while a writer sleeps behind its last reader, who goes.
struct Goes<'v, 'a> {
    lock: &'a RwLock<Bounded>,
    guard: RwLockReadGuard<'a, Bounded>,
    word: &'v Cell<u64>,
}

impl Drop for Goes<'_, '_> {
    fn drop(self) {
        let Self { lock, guard, word } = self;
        drop(guard);
        if let Some(guard) = lock.try_write() {
            word.set(Hold::of(guard).0.open());
        }
    }
}

// How often a writer sleeps behind `hold`.
fn sleeps_to_write<R: Wait + Clock, B: Drop>(rt: &R, lock: &RwLock<Bounded>, hold: B) -> u64 {
    let nap = Nap::behind(rt, hold);
    drop(lock.write(&nap));
    nap.sleeps()
}

// Finds an `unpark` that leaves the writers' mark when the last reader goes.
#[test]
fn the_writers_mark_goes_with_the_last_reader(rt: HostRuntime) {
    let lock = locked(7);
    let word = Cell::new(0);
    let goes = Goes {
        lock: &lock,
        guard: lock.read(&rt),
        word: &word,
    };
    let sleeps = sleeps_to_write(&rt, &lock, goes);
    is(&rt, (sleeps, word.get()), (1, WRITER));
}

// A try form.
#[derive(Clone, Copy, Drop)]
enum Tries {
    Reads,
    Writes,
}

// A hold to read that ends while a writer sleeps, so that its mark stays on a free lock: what is then asked of the lock.
struct Stays<'v, 'a> {
    lock: &'a RwLock<Bounded>,
    hold: Hold<'a, Bounded>,
    tries: Tries,
    got: &'v Cell<(bool, bool)>,
    ghost reads: { hold.right ≡ 1 },
}

impl Drop for Stays<'_, '_> {
    fn drop(self) {
        let Self {
            lock,
            hold,
            tries,
            got,
        } = self;
        let beside = lock.try_read().is_some();
        hold.leave();
        let alone = match tries {
            Tries::Reads => lock.try_read().is_some(),
            Tries::Writes => lock.try_write().is_some(),
        };
        got.set((beside, alone));
    }
}

// Finds a try form that gives up at the writers' mark, though nobody has the lock, or readers alone. The readers' mark stands beside a
// writer alone.
#[test]
fn a_mark_stops_no_try_form(rt: HostRuntime) {
    for tries in [Tries::Reads, Tries::Writes] {
        let lock = locked(7);
        let got = Cell::new((false, false));
        let (_, hold) = Hold::of(lock.write(&rt)).0.soften();
        let stays = Stays {
            lock: &lock,
            hold,
            tries,
            got: &got,
        };
        let sleeps = sleeps_to_write(&rt, &lock, stays);
        is(&rt, (sleeps, got.get()), (1, (true, true)));
    }
}
