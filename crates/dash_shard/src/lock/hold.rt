//! What is raw in the lock: the atomic steps on its word, and a hold's way to the value. Each such function has a proof by hand.
ghost use Rattle.std.specs.Prelude.{◌≡◌, ℕ, ◌<◌, ◌-◌, OnOk, OnErr, Some, bit_and};
ghost use Rattle.std.specs.Borrow.{Lends, sem};
ghost use Rattle.std.specs.Fn.{FnOnceReturnsAtMut, FnOnceTakesAtMut};
ghost use Rattle.std.specs.Map.Iter.{deref_pair_mut};
ghost use Rattle.dash_shard.specs.Words.{Downgrade, FoundBehind, GivenBack, KeepsFit, LeftBehind, ReleaseExclusive, ReleaseShared, Steps};
ghost use Rattle.dash_shard.specs.inner.Locks.Holding.{hold_owns, hold_shares, IsTake, Gains};

use crate::lock::cell::Cell;
use crate::lock::word::ONE_READER;
use crate::lock::{Lendable, Tagged};
use std::marker::{Brand, Model, PhantomData};
use std::sync::atomic::Ordering::SeqCst;
use std::sync::atomic::raw;

/// What a take gained: `right` is 0 for nothing, 1 to read and 2 to write. It has no `Drop`: `done`, `leave` or `open` ends it.
pub struct Hold<'a, T: Tagged> {
    cell: *const Cell<T>,
    marker: PhantomData<&'a T>,
    pub ghost tag: { T.Tag } by { T.Tag.code },
    pub ghost right: { ℕ },
    pub ghost value: { T } by { T.code },
}

impl<'a, T: Tagged> Model for Hold<'a, T> {
    ghost also_owns = { λ h. hold_owns 'a T.row (T.fits h.tag) h.cell h.right h.value };

    ghost also_shares = { λ h _ κ. hold_shares 'a T.row (T.fits h.tag) h.cell h.right h.value κ };
}

impl<T: Tagged> Cell<T> {
    /// A compare-exchange that takes the cell to read or to write, the marks as they are.
    #[inline]
    pub fn take(&self, old: u64, new: u64) -> (Result<u64, u64>, Hold<'_, T>)
        requires { IsTake old new }
        ensures gained { OnOk result.0 (Gains new result.1.right) }
        ensures missed { OnErr result.0 (result.1.right ≡ 0) }
        ensures tag { result.1.tag ≡ self.now }
        ensures fits { 0 < result.1.right → T.fits self.now result.1.value }
        ensures found { 0 < result.1.right → FoundBehind result.1.value }
    {
        let found = unsafe {
            raw::compare_exchange::<Brand>(&raw const self.word, old, new, SeqCst, SeqCst)
        };
        let hold = Hold {
            cell: self,
            marker: PhantomData,
        };
        (found, hold)
    }
}

/// Calls `f` on what `at` refers to.
#[inline]
fn apply<T, R, F: FnOnce(&mut T) -> R>(at: &mut T, f: F) -> R
    requires callable { FnOnceTakesAtMut F.FnOnce f at.old }
    ensures ran { FnOnceReturnsAtMut F.FnOnce f at.old result at.new }
{
    f(at)
}

/// A part of what `at` refers to, lent for as long.
#[inline]
fn pair_of<T: Lendable>(at: &mut T, position: usize) -> (&T::Key, &mut T::Part)
    requires { T.has at.old position }
    ensures* writes_back { sem 𝓛 (Lends T.row T.Part.row at.entry result.1 (T.with at.old position)) }
    ensures pair { T.pair at.old position ≡ Some (deref_pair_mut result) }
    ensures keeps { (tag : T.Tag) (w : T.Part) → T.fits tag at.old → T.fits tag (T.with at.old position w) }
    ensures stays { (w : T.Part) (j : ℕ) → T.has at.old j → T.has (T.with at.old position w) j }
{
    at.pair_mut(position)
}

impl<T: Tagged> Hold<'_, T> {
    /// The value, which stays while the hold is borrowed.
    #[inline]
    pub fn get(&self) -> &T
        requires { 0 < self.now.right }
        ensures { result.now ≡ self.now.value }
    {
        unsafe { &(*self.cell).value }
    }

    /// Calls `f` on the value, in place.
    #[inline]
    pub fn change<R, F: FnOnce(&mut T) -> R>(&mut self, f: F) -> R
        requires right { self.old.right ≡ 2 }
        requires callable { FnOnceTakesAtMut F.FnOnce f self.old.value }
        requires keeps { KeepsFit (T.fits self.old.tag) F.FnOnce f self.old.value }
        ensures same { (self.new.tag ≡ self.old.tag) × (self.new.right ≡ 2) }
        ensures ran { FnOnceReturnsAtMut F.FnOnce f self.old.value result self.new.value }
        ensures fits { T.fits self.old.tag self.new.value }
    {
        unsafe {
            let at = &raw const (*self.cell).value as *mut T;
            apply(&mut *at, f)
        }
    }

    /// Ends a hold that gained nothing.
    #[inline]
    pub fn done(self)
        requires { self.right ≡ 0 }
    {
        let Hold { cell: _, marker: _ } = self;
    }

    /// Ends a hold for reading: one reader less. Returns the word as it was.
    #[inline]
    pub fn leave(self) -> u64
        requires { self.right ≡ 1 }
        ensures event { Steps ReleaseShared result (result - 4) }
        ensures back { GivenBack self.entry.value }
    {
        let Hold { cell, marker: _ } = self;
        unsafe { raw::fetch_sub::<Brand>(&raw const (*cell).word, ONE_READER, SeqCst) }
    }

    /// Ends a hold for writing: the lock is free, with no mark. Returns the word as it was.
    #[inline]
    pub fn open(self) -> u64
        requires { self.right ≡ 2 }
        ensures event { Steps ReleaseExclusive result 0 }
        ensures left { LeftBehind self.entry.value }
    {
        let Hold { cell, marker: _ } = self;
        unsafe { raw::swap::<Brand>(&raw const (*cell).word, 0, SeqCst) }
    }

    /// Turns a hold for writing into one for reading, of the same value. Returns the word as it was.
    #[inline]
    pub fn soften(self) -> (u64, Self)
        requires { self.right ≡ 2 }
        ensures event { Steps Downgrade result.0 (bit_and result.0 6) }
        ensures same { (result.1.tag ≡ self.entry.tag) × (result.1.value ≡ self.entry.value) }
        ensures right { result.1.right ≡ 1 }
        ensures left { LeftBehind self.entry.value }
    {
        let Hold { cell, marker: _ } = self;
        // AND 6 leaves one reader, and the writers' mark.
        let found = unsafe { raw::fetch_and::<Brand>(&raw const (*cell).word, 6, SeqCst) };
        let hold = Hold {
            cell,
            marker: PhantomData,
        };
        (found, hold)
    }
}

impl<T: Lendable> Hold<'_, T> {
    ghost use Rattle.dash_shard.specs.inner.Locks.Lending.{LendsHeld};

    /// A part of the value, lent in place for as long as the hold is borrowed.
    #[inline]
    pub fn lend(&mut self, position: usize) -> (&T::Key, &mut T::Part)
        requires right { self.old.right ≡ 2 }
        requires has { T.has self.old.value position }
        ensures* writes_back { sem 𝓛 (LendsHeld T.row T.Tag.row T.Part.row T.fits T.with self.entry position result.1) }
        ensures pair { T.pair self.old.value position ≡ Some (deref_pair_mut result) }
        ensures keeps { (w : T.Part) → T.fits self.old.tag (T.with self.old.value position w) }
        ensures stays { (w : T.Part) (j : ℕ) → T.has self.old.value j → T.has (T.with self.old.value position w) j }
    {
        unsafe {
            let at = &raw const (*self.cell).value as *mut T;
            pair_of(&mut *at, position)
        }
    }
}
