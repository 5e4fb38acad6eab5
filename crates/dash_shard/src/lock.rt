//! The reader-writer lock round each shard of a map: a value in place beside one word, and where waiters sleep.
//!
//! The word counts readers or says a writer, and has a mark for readers that wait and one for writers. It changes by the events of
//! `LockEvent` alone, each one atomic step. Whoever can't have the lock spins, yields its processor, and then sets its mark and sleeps.
ghost use Rattle.std.specs.Prelude.{◌≡◌, IfSome};
ghost use Rattle.std.specs.Fn.{FnOnceReturnsAtMut, FnOnceTakesAtMut};
ghost use Rattle.dash_shard.specs.Words.{EndedWith, FoundBehind, GivenBack, KeepsFit, LeftBehind};

use cell::{Cell, Origin};
use hold::Hold;
use sleepers::Sleepers;
use std::marker::Model;
use std::mem::{self, ManuallyDrop};
use std::ops::Deref;
use std::rt::Clock;
use std::sync::Wait;
pub use tagged::{Lendable, Tagged};

pub mod cell;
pub mod hold;
pub mod raw;
pub mod sleepers;
mod tagged;
pub mod word;

/// A value behind a reader-writer lock, as the original's `RwLock` over its `RawRwLock`. A contract sees a lock as its tag,
/// and the value that it was made for.
///
/// Nothing is said of who gets the lock first, nor that a call that waits returns: a thread that has a guard and waits for a second one
/// may wait for itself. A guard that is leaked keeps its hold for good, and leaves the lock safe to use and to drop.
pub struct RwLock<T: Tagged> {
    cell: Cell<T>,
    sleepers: Sleepers,
    made: Origin<T>,
}

impl<T: Tagged> Model for RwLock<T> {
    ghost use Rattle.dash_shard.specs.Made.{Made};
    ghost use Rattle.dash_shard.specs.inner.Locks.Codes.{made_code};

    ghost Value = { Made T.Tag T };

    ghost coded = { made_code T.Tag.code T.code };

    ghost view = { λ s. record { tag = s.cell; made = s.made.value } };
}

impl<T: Tagged + Drop> Drop for RwLock<T> {
    fn drop(self) {
        drop(self.into_inner());
    }
}

impl<T: Tagged> RwLock<T> {
    ghost use Rattle.std.specs.Borrow.{sem};
    ghost use Rattle.dash_shard.specs.Stays.{StaysAt};
    ghost use Rattle.dash_shard.specs.contracts.lock.RwLock.{the_row};

    /// A lock that nobody has. It takes no memory. The original's `new` takes no tag.
    #[inline]
    pub fn new(value: T, tag: &T::Tag) -> RwLock<T>
        requires fits { T.fits tag.now value }
        ensures tag { result.tag ≡ tag.now }
        ensures made { result.made ≡ value }
        ensures left { LeftBehind value }
    {
        let made = Origin::of(&value);
        RwLock {
            cell: Cell::new(value, tag),
            sleepers: Sleepers::new(),
            made,
        }
    }

    /// The value. It waits for nobody, even where a guard was leaked.
    #[inline]
    pub fn into_inner(self) -> T
        ensures fits { T.fits self.tag result }
        ensures found { FoundBehind result }
        ensures ended { EndedWith self.made result }
    {
        let Self {
            cell,
            sleepers: _sleepers,
            made: _made,
        } = self;
        cell.into_inner()
    }

    /// Lends the value for reading, as the original's `get_mut` does for writing. It waits for nobody, and the lock stays as it is.
    #[inline]
    pub fn get(&mut self) -> &T
        ensures* stays { sem 𝓛 (StaysAt (the_row T.row T.Tag.row (record { fits = T.fits })) self.entry) }
        ensures fits { T.fits self.old.tag result.now }
        ensures found { FoundBehind result.now }
    {
        self.cell.get()
    }

    /// Waits until no writer has the lock, as the original's `read`. Where the most readers have it, this waits too.
    #[inline]
    pub fn read<R: Wait + Clock>(&self, rt: &R) -> RwLockReadGuard<'_, T>
        ensures tag { result.tag ≡ self.now.tag }
        ensures fits { T.fits self.now.tag result.value }
        ensures found { FoundBehind result.value }
    {
        let hold = match self.try_lock_shared_fast(self.cell.word()) {
            Ok(hold) => hold,
            Err(_) => self.lock_shared_slow(rt),
        };
        RwLockReadGuard { hold, lock: self }
    }

    /// Waits until nobody has the lock, as the original's `write`.
    #[inline]
    pub fn write<R: Wait + Clock>(&self, rt: &R) -> RwLockWriteGuard<'_, T>
        ensures tag { result.tag ≡ self.now.tag }
        ensures fits { T.fits self.now.tag result.value }
        ensures found { FoundBehind result.value }
    {
        let hold = match self.try_lock_exclusive_fast(0) {
            Ok(hold) => hold,
            Err(_) => self.lock_exclusive_slow(rt),
        };
        RwLockWriteGuard { hold, lock: self }
    }

    /// Takes the lock for reading, as the original's `try_read`, if at most eight exchanges do it. `None` says nothing of who has it.
    #[inline]
    pub fn try_read(&self) -> Option<RwLockReadGuard<'_, T>>
        ensures tag { IfSome result (λ guard. guard.tag ≡ self.now.tag) }
        ensures fits { IfSome result (λ guard. T.fits self.now.tag guard.value) }
        ensures found { IfSome result (λ guard. FoundBehind guard.value) }
    {
        let hold = self.try_lock_shared()?;
        Some(RwLockReadGuard { hold, lock: self })
    }

    /// Takes the lock for writing, as the original's `try_write`, if at most eight exchanges do it. `None` says nothing of who has it.
    #[inline]
    pub fn try_write(&self) -> Option<RwLockWriteGuard<'_, T>>
        ensures tag { IfSome result (λ guard. guard.tag ≡ self.now.tag) }
        ensures fits { IfSome result (λ guard. T.fits self.now.tag guard.value) }
        ensures found { IfSome result (λ guard. FoundBehind guard.value) }
    {
        let hold = self.try_lock_exclusive()?;
        Some(RwLockWriteGuard { hold, lock: self })
    }
}

/// The right to read, as the original's `RwLockReadGuard`: it ends when the guard is dropped, and till then the value stays as it is.
///
/// To drop it takes one atomic step, which waits for nobody and can't fail. A contract sees a guard as the lock's tag and the value.
#[must_use]
pub struct RwLockReadGuard<'a, T: Tagged> {
    hold: Hold<'a, T>,
    lock: &'a RwLock<T>,
}

impl<'a, T: Tagged> Model for RwLockReadGuard<'a, T> {
    ghost use Rattle.std.specs.Prelude.{◌≡◌};
    ghost use Rattle.dash_shard.specs.Guarded.{Guarded};
    ghost use Rattle.dash_shard.specs.inner.Locks.Codes.{guarded_code};

    ghost Value = { Guarded T.Tag T };

    ghost coded = { guarded_code T.Tag.code T.code };

    ghost view = { λ s. record { tag = s.hold.tag; value = s.hold.value } };

    ghost invariant = { λ s. (s.hold.right ≡ 1) × T.fits s.hold.tag s.hold.value };
}

impl<'a, T: Tagged> Deref for RwLockReadGuard<'a, T> {
    type Target = T;

    ghost deref_gives = { λ guard x. (x ≡ guard.value) × T.fits guard.tag x };

    #[inline]
    fn deref(&self) -> &T {
        self.hold.get()
    }
}

impl<'a, T: Tagged> RwLockReadGuard<'a, T> {
    // The guard's hold.
    #[inline]
    fn into_hold(self) -> Hold<'a, T>
        ensures right { result.right ≡ 1 }
        ensures tag { result.tag ≡ self.entry.tag }
    {
        let Self { hold, lock: _ } = self;
        hold
    }
}

impl<T: Tagged> Drop for RwLockReadGuard<'_, T> {
    #[inline]
    fn drop(self)
        ensures back { GivenBack self.entry.value }
    {
        let Self { hold, lock } = self;
        lock.unlock_shared(hold);
    }
}

/// The right to read and to replace, as the original's `RwLockWriteGuard`: it ends when the guard is dropped, and till then the value
/// changes by the guard's own calls alone.
///
/// The original's guard lends the value for writing. This one doesn't, so that each value fits the tag, also after a guard was leaked.
/// To drop it takes one atomic step, which waits for nobody and can't fail. A contract sees a guard as the lock's tag and the value.
#[must_use]
pub struct RwLockWriteGuard<'a, T: Tagged> {
    hold: Hold<'a, T>,
    lock: &'a RwLock<T>,
}

impl<'a, T: Tagged> Model for RwLockWriteGuard<'a, T> {
    ghost use Rattle.std.specs.Prelude.{◌≡◌};
    ghost use Rattle.dash_shard.specs.Guarded.{Guarded};
    ghost use Rattle.dash_shard.specs.inner.Locks.Codes.{guarded_code};

    ghost Value = { Guarded T.Tag T };

    ghost coded = { guarded_code T.Tag.code T.code };

    ghost view = { λ s. record { tag = s.hold.tag; value = s.hold.value } };

    ghost invariant = { λ s. (s.hold.right ≡ 2) × T.fits s.hold.tag s.hold.value };
}

impl<'a, T: Tagged> Deref for RwLockWriteGuard<'a, T> {
    type Target = T;

    ghost deref_gives = { λ guard x. (x ≡ guard.value) × T.fits guard.tag x };

    #[inline]
    fn deref(&self) -> &T {
        self.hold.get()
    }
}

impl<T: Tagged> RwLockWriteGuard<'_, T> {
    /// Puts `new` in place, and returns what was there.
    #[inline]
    pub fn replace(&mut self, new: T) -> T
        requires fits { T.fits self.old.tag new }
        ensures old { result ≡ self.old.value }
        ensures old_fits { T.fits self.old.tag result }
        ensures tag { self.new.tag ≡ self.old.tag }
        ensures value { self.new.value ≡ new }
    {
        // The closure takes it out again, so nothing is leaked.
        let new = unsafe { ManuallyDrop::new_unchecked(new) };
        self.change(|value: &mut T| -> T { mem::replace(value, ManuallyDrop::into_inner(new)) })
    }

    // Calls `f` on the value in place, so that nothing moves. What `f` leaves has to fit.
    #[inline]
    fn change<R, F: FnOnce(&mut T) -> R>(&mut self, f: F) -> R
        requires callable { FnOnceTakesAtMut F.FnOnce f self.old.value }
        requires keeps { KeepsFit (T.fits self.old.tag) F.FnOnce f self.old.value }
        ensures tag { self.new.tag ≡ self.old.tag }
        ensures ran { FnOnceReturnsAtMut F.FnOnce f self.old.value result self.new.value }
        ensures old_fits { T.fits self.old.tag self.old.value }
        ensures fits { T.fits self.new.tag self.new.value }
    {
        self.hold.change(f)
    }
}

impl<'a, T: Tagged> RwLockWriteGuard<'a, T> {
    /// The right to read the same value, as the original's `downgrade`, by one atomic step: no other writer comes between. Readers that wait
    /// are woken.
    #[inline]
    pub fn downgrade(self) -> RwLockReadGuard<'a, T>
        ensures tag { result.tag ≡ self.entry.tag }
        ensures value { result.value ≡ self.entry.value }
        ensures fits { T.fits result.tag result.value }
        ensures left { LeftBehind self.entry.value }
    {
        let Self { hold, lock } = self;
        let hold = lock.downgrade(hold);
        RwLockReadGuard { hold, lock }
    }
}

impl<'a, T: Tagged> RwLockWriteGuard<'a, T> {
    // The guard's hold, and its lock.
    #[inline]
    fn into_parts(self) -> (Hold<'a, T>, &'a RwLock<T>)
        ensures right { result.0.right ≡ 2 }
        ensures same { (result.0.tag ≡ self.entry.tag) × (result.0.value ≡ self.entry.value) }
        ensures fits { T.fits self.entry.tag self.entry.value }
    {
        let Self { hold, lock } = self;
        (hold, lock)
    }
}

impl<'a, T: Tagged> Hold<'a, T> {
    /// The hold of a guard, and its lock.
    #[inline]
    pub fn of(guard: RwLockWriteGuard<'a, T>) -> (Hold<'a, T>, &'a RwLock<T>)
        ensures right { result.0.right ≡ 2 }
        ensures same { (result.0.tag ≡ guard.entry.tag) × (result.0.value ≡ guard.entry.value) }
        ensures fits { T.fits guard.entry.tag guard.entry.value }
    {
        guard.into_parts()
    }

    /// The guard of a hold to write, and of its lock.
    #[inline]
    pub fn guard(self, lock: &'a RwLock<T>) -> RwLockWriteGuard<'a, T>
        requires right { self.right ≡ 2 }
        requires fits { T.fits self.tag self.value }
        ensures same { (result.tag ≡ self.entry.tag) × (result.value ≡ self.entry.value) }
    {
        RwLockWriteGuard { hold: self, lock }
    }
}

impl<T: Tagged> Drop for RwLockWriteGuard<'_, T> {
    #[inline]
    fn drop(self)
        ensures left { LeftBehind self.entry.value }
    {
        let Self { hold, lock } = self;
        lock.unlock_exclusive(hold);
    }
}
