//! The end of a hold wakes who sleeps behind it: by how long a waiter slept, and how often, since the millisecond that ends each sleep would
//! hide one that nobody woke.
ghost use Rattle.std.specs.Prelude.{◌≡◌};

use super::{Bounded, locked};
use crate::tests::checks::is;
use crate::tests::nap::{Nap, ROUNDS, wakes_reader, wakes_writer};
use dash_shard::lock::raw::{ExclusiveHold, RawRwLock, SharedHold};
use dash_shard::lock::{RwLock, RwLockWriteGuard};
use std::rt::Clock;
use std::sync::Wait;
use std::sync::atomic::{AtomicU64, Ordering};
use std::thread::{self, Threads};
use std::time::Duration;

// A hold to write that ends by a downgrade, and by the end of that hold, which wakes nobody.
struct Downgraded<'a> {
    guard: RwLockWriteGuard<'a, Bounded>,
}

impl Drop for Downgraded<'_> {
    fn drop(self) {
        let Self { guard } = self;
        drop(guard.downgrade());
    }
}

// A writer that comes while another waiter sleeps, and sleeps too.
struct Writer<'v, 'a, R: Wait + Clock, B: Drop> {
    lock: &'a RwLock<Bounded>,
    nap: &'v Nap<'a, R, B>,
}

impl<R: Wait + Clock, B: Drop> Drop for Writer<'_, '_, R, B> {
    fn drop(self) {
        let Self { lock, nap } = self;
        drop(lock.write(nap));
    }
}

// Whether the end of a hold to write wakes a reader and a writer that sleep at once.
fn wakes_both<'a, R: Wait + Clock, B: Drop>(rt: &'a R, lock: &'a RwLock<Bounded>, hold: B) -> bool {
    let nap = Nap::behind(rt, hold);
    let is_reader_woken = wakes_reader(rt, lock, Writer { lock, nap: &nap });
    is_reader_woken && nap.is_woken()
}

// Finds an `unpark` that wakes nobody, readers alone or writers alone, a `downgrade` that wakes nobody, and a release without its wake.
#[test]
fn the_end_of_a_hold_wakes_who_sleeps(rt: HostRuntime) {
    let lock = locked(7);
    let mut woken = [false; 5];
    for _ in 0..ROUNDS {
        let guard = lock.write(&rt);
        let round = [
            wakes_reader(&rt, &lock, Downgraded { guard }),
            wakes_reader(&rt, &lock, lock.write(&rt)),
            wakes_writer(&rt, &lock, lock.write(&rt)),
            wakes_writer(&rt, &lock, lock.read(&rt)),
            wakes_both(&rt, &lock, lock.write(&rt)),
        ];
        for (woken, now) in woken.iter_mut().zip(round) {
            *woken |= now;
        }
    }
    is(&rt, woken, [true; 5]);
}

struct Shared<'a> {
    lock: &'a RawRwLock,
    hold: SharedHold<'a>,
    ghost own: { hold ≡ lock.now },
}

impl Drop for Shared<'_> {
    fn drop(self) {
        let Self { lock, hold } = self;
        lock.unlock_shared(hold);
    }
}

struct Exclusive<'a> {
    lock: &'a RawRwLock,
    hold: ExclusiveHold<'a>,
    is_downgraded: bool,
    ghost own: { hold ≡ lock.now },
}

impl Drop for Exclusive<'_> {
    fn drop(self) {
        let Self {
            lock,
            hold,
            is_downgraded,
        } = self;
        if is_downgraded {
            lock.unlock_shared(lock.downgrade(hold));
        } else {
            lock.unlock_exclusive(hold);
        }
    }
}

fn raw_wakes_reader<R: Wait + Clock, B: Drop>(rt: &R, lock: &RawRwLock, hold: B) -> bool {
    let nap = Nap::behind(rt, hold);
    let hold = lock.lock_shared(&nap);
    lock.unlock_shared(hold);
    nap.is_woken()
}

fn raw_wakes_writer<R: Wait + Clock, B: Drop>(rt: &R, lock: &RawRwLock, hold: B) -> bool {
    let nap = Nap::behind(rt, hold);
    let hold = lock.lock_exclusive(&nap);
    lock.unlock_exclusive(hold);
    nap.is_woken()
}

fn take_exclusive<'a, R: Wait + Clock>(
    rt: &R,
    lock: &'a RawRwLock,
    is_downgraded: bool,
) -> Exclusive<'a> {
    let hold = lock.lock_exclusive(rt);
    Exclusive {
        lock,
        hold,
        is_downgraded,
    }
}

fn take_shared<'a, R: Wait + Clock>(rt: &R, lock: &'a RawRwLock) -> Shared<'a> {
    let hold = lock.lock_shared(rt);
    Shared { lock, hold }
}

// Finds each of these in the raw lock's own calls.
#[test]
fn the_end_of_a_raw_hold_wakes_who_sleeps(rt: HostRuntime) {
    let lock = RawRwLock::new();
    let mut woken = [false; 3];
    for _ in 0..ROUNDS {
        let round = [
            raw_wakes_reader(&rt, &lock, take_exclusive(&rt, &lock, false)),
            raw_wakes_reader(&rt, &lock, take_exclusive(&rt, &lock, true)),
            raw_wakes_writer(&rt, &lock, take_shared(&rt, &lock)),
        ];
        for (woken, now) in woken.iter_mut().zip(round) {
            *woken |= now;
        }
    }
    is(&rt, woken, [true; 3]);
}

// Waits until all three readers are there, and counts who came and, right before the sleep, who goes on.
struct Meets<'a> {
    met: &'a AtomicU64,
}

impl Drop for Meets<'_> {
    fn drop(self) {
        let Self { met } = self;
        met.fetch_add(1, Ordering::SeqCst);
        wait_for(met, 4);
        met.fetch_add(1, Ordering::SeqCst);
    }
}

// Turns till the number is so large, and gives up in the end.
fn wait_for(number: &AtomicU64, least: u64) {
    for _ in 0..1_000_000u64 {
        if number.load(Ordering::SeqCst) >= least {
            return;
        }
        thread::yield_now();
    }
}

// Whether a writer's release wakes three readers that sleep at once: each sleeps at most once, and not to the end.
fn wakes_three<R: Threads + Wait + Clock + Sync>(rt: &R) -> bool {
    let lock = locked(7);
    let met = AtomicU64::new(0);
    let mut woken = [false; 4];
    let go = |number: usize, woken: &mut bool| {
        if number == 0 {
            let guard = lock.write(rt);
            met.fetch_add(1, Ordering::SeqCst);
            wait_for(&met, 7);
            thread::sleep(rt, Duration::from_micros(100));
            drop(guard);
            *woken = true;
            return;
        }
        wait_for(&met, 1);
        *woken = wakes_reader(rt, &lock, Meets { met: &met });
    };
    thread::for_each_mut(rt, woken.as_mut_slice(), 4, &go);
    woken == [true; 4]
}

// Finds an `unpark` that wakes one reader, or fewer than all.
#[test]
fn a_release_wakes_all_readers(rt: HostRuntime) {
    let mut is_done = false;
    for _ in 0..ROUNDS {
        is_done = is_done || wakes_three(&rt);
    }
    is(&rt, is_done, true);
}
