//! The lock round any value, as worked by hand.
ghost use Rattle.std.specs.Prelude.{◌≡◌, ◌<◌};

use crate::tests::checks::is;
use dash_shard::lock::{RwLock, Tagged};
use std::mem;

mod sleepers;
mod waits;
mod wakes;
mod word;

/// A number below the bound that its lock is made for.
#[derive(Drop)]
struct Bounded {
    number: u64,
}

impl Tagged for Bounded {
    type Tag = u64;

    ghost fits = { λ bound bounded. bounded.number < bound };
}

fn locked(number: u64) -> RwLock<Bounded>
    requires { number < 100 }
    ensures { result.tag ≡ 100 }
{
    RwLock::new(Bounded { number }, &100)
}

// Whether a reader and a writer would get the lock now.
fn admits(lock: &RwLock<Bounded>) -> (bool, bool) {
    let reader = lock.try_read().is_some();
    (reader, lock.try_write().is_some())
}

#[test]
fn readers_share_and_a_writer_keeps_others_out(rt: HostRuntime) {
    let mut lock = locked(7);
    let first = lock.read(&rt);
    let second = lock.read(&rt);
    is(
        &rt,
        (first.number, second.number, admits(&lock)),
        (7, 7, (true, false)),
    );
    drop(first);
    is(&rt, admits(&lock), (true, false));
    drop(second);
    let mut guard = lock.write(&rt);
    is(&rt, admits(&lock), (false, false));
    is(&rt, guard.replace(Bounded { number: 8 }).number, 7);
    let guard = guard.downgrade();
    is(
        &rt,
        (guard.number, lock.read(&rt).number, admits(&lock)),
        (8, 8, (true, false)),
    );
    drop(guard);
    is(&rt, admits(&lock), (true, true));
    is(&rt, (lock.get().number, lock.into_inner().number), (8, 8));
}

#[test]
fn ten_thousand_readers_hold_it_at_once(rt: HostRuntime) {
    let lock = locked(7);
    let mut guards = Vec::new(rt.alloc());
    for _ in 0..10_000 {
        guards.push(lock.read(&rt)).expect(&rt, "refused");
    }
    is(&rt, admits(&lock), (true, false));
    drop(guards);
    is(&rt, admits(&lock), (true, true));
}

#[test]
fn leaked_guards_leave_a_lock_that_can_be_dropped(rt: HostRuntime) {
    let lock = locked(7);
    mem::forget(lock.write(&rt));
    is(&rt, admits(&lock), (false, false));
    drop(lock);
    let lock = locked(8);
    mem::forget(lock.read(&rt));
    is(&rt, admits(&lock), (true, false));
    is(&rt, lock.into_inner().number, 8);
}
