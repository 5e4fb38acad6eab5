//! A lock's holds, taken and given back by name: the original's `RawRwLock`, over the word and its sleepers.
ghost use Rattle.std.specs.Prelude.{◌≡◌, IfOk, IfSome};
ghost use Rattle.dash_shard.specs.Words.{GivenBack, LeftBehind};
ghost use Rattle.dash_shard.specs.inner.Locks.IsHold.{IsHold};

use super::RwLock;
use crate::lock::Tagged;
use crate::lock::hold::Hold;
use crate::lock::word::{MOST_READERS, ONE_READER, ONE_WRITER};
use crossbeam_utils::Backoff;
use std::marker::Model;
use std::rt::Clock;
use std::snapshot::Snapshot;
use std::sync::Wait;

/// A try form makes at most so many exchanges.
const TRIES: u32 = 8;

// How often a waiter pauses before each look at the word, until it sleeps. The first seven pauses are spins, each twice as long, and then it
// yields its processor, which who has the lock may want. Looks are seldom, the first ones too, since each holds that one up.
const PAUSES: [u32; 20] = [
    4, 2, 1, 16, 16, 16, 16, 16, 16, 16, 16, 16, 16, 16, 16, 16, 16, 16, 16, 16,
];

// What a raw lock guards.
#[derive(Drop)]
struct Nothing {}

// The tag says which lock it is. It has no bytes.
impl Tagged for Nothing {
    type Tag = Snapshot<u64>;

    ghost use Rattle.std.specs.Prelude.{⊤};

    ghost fits = { λ _ _. ⊤ };
}

/// A lock with nothing behind it, as the original's: its holds are values, and each goes back to the lock that it came from.
///
/// A contract sees a lock and a hold as a number that nothing tells, so that only holds of a lock can be shown to have its number.
#[derive(Drop)]
pub struct RawRwLock {
    lock: RwLock<Nothing>,
}

impl Model for RawRwLock {
    ghost use Rattle.std.specs.Prelude.{ℕ};

    ghost Value = { ℕ };

    ghost view = { λ s. s.lock.tag.value };
}

/// A hold to read. It has no `Drop`: `RawRwLock::unlock_shared` ends it.
#[must_use]
pub struct SharedHold<'a> {
    hold: Hold<'a, Nothing>,
}

impl<'a> Model for SharedHold<'a> {
    ghost use Rattle.std.specs.Prelude.{ℕ, ◌≡◌};

    ghost Value = { ℕ };

    ghost view = { λ s. s.hold.tag.value };

    ghost invariant = { λ s. s.hold.right ≡ 1 };
}

/// A hold to write. It has no `Drop`: `RawRwLock::unlock_exclusive` ends it.
#[must_use]
pub struct ExclusiveHold<'a> {
    hold: Hold<'a, Nothing>,
}

impl<'a> Model for ExclusiveHold<'a> {
    ghost use Rattle.std.specs.Prelude.{ℕ, ◌≡◌};

    ghost Value = { ℕ };

    ghost view = { λ s. s.hold.tag.value };

    ghost invariant = { λ s. s.hold.right ≡ 2 };
}

impl RawRwLock {
    /// A lock that nobody has, as the original's `INIT`. It takes no memory.
    pub fn new() -> RawRwLock {
        RawRwLock {
            lock: RwLock::new(Nothing {}, &Snapshot::of(&0)),
        }
    }

    /// Waits until no writer has the lock.
    #[inline]
    pub fn lock_shared<R: Wait + Clock>(&self, rt: &R) -> SharedHold<'_>
        ensures { result ≡ self.now }
    {
        SharedHold {
            hold: self.lock.read(rt).into_hold(),
        }
    }

    /// Takes the lock to read, if at most eight exchanges do it.
    #[inline]
    pub fn try_lock_shared(&self) -> Option<SharedHold<'_>>
        ensures { IfSome result (λ hold. hold ≡ self.now) }
    {
        let hold = self.lock.try_lock_shared()?;
        Some(SharedHold { hold })
    }

    /// Ends a hold to read. It waits for nobody and can't fail.
    #[inline]
    pub fn unlock_shared(&self, hold: SharedHold<'_>)
        requires { hold ≡ self.now }
    {
        let SharedHold { hold } = hold;
        self.lock.unlock_shared(hold);
    }

    /// Waits until nobody has the lock.
    #[inline]
    pub fn lock_exclusive<R: Wait + Clock>(&self, rt: &R) -> ExclusiveHold<'_>
        ensures { result ≡ self.now }
    {
        ExclusiveHold {
            hold: Hold::of(self.lock.write(rt)).0,
        }
    }

    /// Takes the lock to write, if at most eight exchanges do it.
    #[inline]
    pub fn try_lock_exclusive(&self) -> Option<ExclusiveHold<'_>>
        ensures { IfSome result (λ hold. hold ≡ self.now) }
    {
        let hold = self.lock.try_lock_exclusive()?;
        Some(ExclusiveHold { hold })
    }

    /// Ends a hold to write. It waits for nobody and can't fail.
    #[inline]
    pub fn unlock_exclusive(&self, hold: ExclusiveHold<'_>)
        requires { hold ≡ self.now }
    {
        let ExclusiveHold { hold } = hold;
        self.lock.unlock_exclusive(hold);
    }

    /// Turns a hold to write into one to read, by one atomic step.
    #[inline]
    pub fn downgrade<'a>(&self, hold: ExclusiveHold<'a>) -> SharedHold<'a>
        requires { hold ≡ self.now }
        ensures { result ≡ self.now }
    {
        let ExclusiveHold { hold } = hold;
        SharedHold {
            hold: self.lock.downgrade(hold),
        }
    }
}

// The same of each lock, for its guards, with the slow ways.
impl<T: Tagged> RwLock<T> {
    #[inline]
    pub(super) fn try_lock_shared(&self) -> Option<Hold<'_, T>>
        ensures { IfSome result (IsHold T.fits self.now.tag 1) }
    {
        match self.try_lock_shared_fast(self.cell.word()) {
            Ok(hold) => Some(hold),
            Err(seen) => self.try_lock_shared_slow(seen),
        }
    }

    #[inline]
    pub(super) fn try_lock_exclusive(&self) -> Option<Hold<'_, T>>
        ensures { IfSome result (IsHold T.fits self.now.tag 2) }
    {
        match self.try_lock_exclusive_fast(0) {
            Ok(hold) => Some(hold),
            Err(seen) => self.try_lock_exclusive_slow(seen),
        }
    }

    // One exchange at most, if the word is still `seen`. Else the word as it was found.
    #[inline]
    pub(super) fn try_lock_shared_fast(&self, seen: u64) -> Result<Hold<'_, T>, u64>
        ensures { IfOk result (IsHold T.fits self.now.tag 1) }
    {
        if seen / ONE_READER >= MOST_READERS {
            return Err(seen);
        }
        let (found, hold) = self.cell.take(seen, seen + ONE_READER);
        match found {
            Ok(_) => Ok(hold),
            Err(found) => {
                hold.done();
                Err(found)
            }
        }
    }

    #[inline]
    pub(super) fn try_lock_exclusive_fast(&self, seen: u64) -> Result<Hold<'_, T>, u64>
        ensures { IfOk result (IsHold T.fits self.now.tag 2) }
    {
        if seen >= ONE_READER {
            return Err(seen);
        }
        let (found, hold) = self.cell.take(seen, seen + ONE_WRITER);
        match found {
            Ok(_) => Ok(hold),
            Err(found) => {
                hold.done();
                Err(found)
            }
        }
    }

    // The exchanges that are left to a try form.
    #[cold]
    #[inline(never)]
    fn try_lock_shared_slow(&self, seen: u64) -> Option<Hold<'_, T>>
        ensures { IfSome result (IsHold T.fits self.now.tag 1) }
    {
        let backoff = Backoff::new();
        let mut seen = seen;
        for _ in 1..TRIES {
            if seen / ONE_READER >= MOST_READERS {
                return None;
            }
            backoff.spin();
            match self.try_lock_shared_fast(seen) {
                Ok(hold) => return Some(hold),
                Err(found) => seen = found,
            }
        }
        None
    }

    #[cold]
    #[inline(never)]
    fn try_lock_exclusive_slow(&self, seen: u64) -> Option<Hold<'_, T>>
        ensures { IfSome result (IsHold T.fits self.now.tag 2) }
    {
        let mut seen = seen;
        for _ in 1..TRIES {
            match self.try_lock_exclusive_fast(seen) {
                Ok(hold) => return Some(hold),
                Err(found) if found < ONE_READER => seen = found,
                Err(_) => return None,
            }
        }
        None
    }

    // Spins, and then sleeps, until it has the lock.
    #[cold]
    #[inline(never)]
    pub(super) fn lock_shared_slow<R: Wait + Clock>(&self, rt: &R) -> Hold<'_, T>
        ensures { IsHold T.fits self.now.tag 1 result }
    {
        let backoff = Backoff::new();
        for pauses in PAUSES {
            for _ in 0..pauses {
                backoff.snooze();
            }
            if let Ok(hold) = self.try_lock_shared_fast(self.cell.word()) {
                return hold;
            }
        }
        for _ in rt.forever() {
            self.sleepers.park_reader(&self.cell, rt);
            if let Ok(hold) = self.try_lock_shared_fast(self.cell.word()) {
                return hold;
            }
        }
        unreachable!()
    }

    #[cold]
    #[inline(never)]
    pub(super) fn lock_exclusive_slow<R: Wait + Clock>(&self, rt: &R) -> Hold<'_, T>
        ensures { IsHold T.fits self.now.tag 2 result }
    {
        let backoff = Backoff::new();
        for pauses in PAUSES {
            for _ in 0..pauses {
                backoff.snooze();
            }
            if let Ok(hold) = self.try_lock_exclusive_fast(self.cell.word()) {
                return hold;
            }
        }
        for _ in rt.forever() {
            self.sleepers.park_writer(&self.cell, rt);
            if let Ok(hold) = self.try_lock_exclusive_fast(self.cell.word()) {
                return hold;
            }
        }
        unreachable!()
    }

    #[inline]
    pub(super) fn unlock_shared(&self, hold: Hold<'_, T>)
        requires { hold.right ≡ 1 }
        ensures { GivenBack hold.entry.value }
    {
        let found = hold.leave();
        if found % ONE_READER != 0 {
            self.sleepers.unpark(&self.cell, found);
        }
    }

    #[inline]
    pub(super) fn unlock_exclusive(&self, hold: Hold<'_, T>)
        requires { hold.right ≡ 2 }
        ensures { LeftBehind hold.entry.value }
    {
        self.wake(hold.open());
    }

    /// Wakes who sleeps, after the release of a hold to write that found this word. For the crates here alone.
    #[inline]
    pub fn wake(&self, found: u64) {
        if found != ONE_WRITER {
            self.sleepers.unpark(&self.cell, found);
        }
    }

    #[inline]
    pub(super) fn downgrade<'a>(&self, hold: Hold<'a, T>) -> Hold<'a, T>
        requires { hold.right ≡ 2 }
        ensures same { (result.tag ≡ hold.entry.tag) × (result.value ≡ hold.entry.value) }
        ensures right { result.right ≡ 1 }
        ensures left { LeftBehind hold.entry.value }
    {
        let (found, hold) = hold.soften();
        if found % 2 != 0 {
            self.sleepers.unpark_readers();
        }
        hold
    }
}
