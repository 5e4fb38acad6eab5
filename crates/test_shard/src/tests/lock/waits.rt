//! Threads that wait for a lock get it, asleep or not.
use crate::tests::checks::is;
use dash_shard::lock::raw::RawRwLock;
use dash_shard::lock::{RwLock, Tagged};
use std::rt::Clock;
use std::sync::Wait;
use std::thread::{self, Threads};
use std::time::Duration;

/// A count.
#[derive(Drop)]
struct Counted {
    count: u64,
}

impl Tagged for Counted {
    type Tag = ();

    ghost use Rattle.std.specs.Prelude.{⊤};

    ghost fits = { λ _ _. ⊤ };
}

fn add_one<R: Wait + Clock>(rt: &R, lock: &RwLock<Counted>) {
    let mut guard = lock.write(rt);
    let count = guard.count.wrapping_add(1);
    guard.replace(Counted { count });
}

// A thread that holds the lock for twenty milliseconds, so that who waits sleeps.
fn hold<R: Wait + Clock>(rt: &R, lock: &RwLock<Counted>, writes: bool) {
    if writes {
        let _guard = lock.write(rt);
        thread::sleep(rt, Duration::from_millis(20));
    } else {
        let _guard = lock.read(rt);
        thread::sleep(rt, Duration::from_millis(20));
    }
}

#[test]
fn each_write_of_four_threads_counts(rt: HostRuntime) {
    let lock = RwLock::new(Counted { count: 0 }, &());
    let mut threads = [0u64; 4];
    thread::for_each_mut(
        &rt,
        threads.as_mut_slice(),
        4,
        &|_, last: &mut u64| {
            for _ in 0..250_000u64 {
                for _ in 0..3u64 {
                    *last = lock.read(&rt).count;
                }
                add_one(&rt, &lock);
            }
        },
    );
    is(&rt, lock.into_inner().count, 1_000_000);
}

// What four threads read: the first holds the lock, to write or to read, and the others sleep behind it to do the other.
fn sleep_behind<R: Threads + Wait + Clock + Sync>(
    rt: &R,
    lock: &RwLock<Counted>,
    writes: bool,
) -> [u64; 4] {
    let mut counts = [0u64; 4];
    let go = |number: usize, count: &mut u64| {
        if number == 0 {
            hold(rt, lock, writes);
            return;
        }
        thread::sleep(rt, Duration::from_millis(5));
        if writes {
            *count = lock.read(rt).count;
        } else {
            add_one(rt, lock);
        }
    };
    thread::for_each_mut(rt, counts.as_mut_slice(), 4, &go);
    counts
}

#[test]
fn who_sleeps_behind_a_hold_gets_the_lock(rt: HostRuntime) {
    let lock = RwLock::new(Counted { count: 0 }, &());
    is(&rt, sleep_behind(&rt, &lock, false), [0; 4]);
    is(&rt, sleep_behind(&rt, &lock, true), [0, 3, 3, 3]);
}

// Whether a reader and a writer would get the lock now.
fn admits(lock: &RawRwLock) -> (bool, bool) {
    let reader = lock.try_lock_shared();
    let is_reader = reader.is_some();
    if let Some(hold) = reader {
        lock.unlock_shared(hold);
    }
    let writer = lock.try_lock_exclusive();
    let is_writer = writer.is_some();
    if let Some(hold) = writer {
        lock.unlock_exclusive(hold);
    }
    (is_reader, is_writer)
}

#[test]
fn holds_go_back_to_their_lock(rt: HostRuntime) {
    let lock = RawRwLock::new();
    let hold = lock.lock_shared(&rt);
    let beside_reader = admits(&lock);
    lock.unlock_shared(hold);
    let hold = lock.lock_exclusive(&rt);
    let beside_writer = admits(&lock);
    let hold = lock.downgrade(hold);
    let after_downgrade = admits(&lock);
    lock.unlock_shared(hold);
    is(
        &rt,
        [beside_reader, beside_writer, after_downgrade, admits(&lock)],
        [(true, false), (false, false), (true, false), (true, true)],
    );
}
