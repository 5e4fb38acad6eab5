//! A value in place beside a lock's word, and the steps on the word that give or end no hold.
ghost use Rattle.std.specs.Prelude.{◌≡◌};
ghost use Rattle.std.specs.Borrow.{sem};
ghost use Rattle.dash_shard.specs.Words.{FoundBehind, LeftBehind, StaysAt};
ghost use Rattle.dash_shard.specs.inner.Locks.Holding.{lock_owns, lock_shares, IsMark};

use crate::lock::Tagged;
use std::marker::{Brand, Model, Move, Owns, PhantomData};
use std::sync::atomic::Ordering::SeqCst;
use std::sync::atomic::raw;

/// A lock without its sleepers. A contract sees it as the tag.
pub struct Cell<T: Tagged> {
    pub(crate) word: u64,
    pub(crate) value: T,
}

impl<T: Tagged> Owns for Cell<T> {
    ghost Value = { T.Tag };

    ghost coded = { T.Tag.code };

    ghost shr_at = { λ tag p κ. lock_shares T.row (T.fits tag) p κ };
}

impl<T: Tagged> Move for Cell<T> {
    ghost own_val = { λ tag vs. lock_owns T.row (T.fits tag) (λ n x. Fields.own_val (record { word = n; value = x }) vs) };
}

unsafe impl<T: Tagged + Send> Send for Cell<T> {}

unsafe impl<T: Tagged + Send + Sync> Sync for Cell<T> {}

impl<T: Tagged> Cell<T> {
    ghost use Rattle.dash_shard.specs.contracts.lock.cell.Cell.{the_row};

    /// A cell that nobody has.
    #[inline]
    pub fn new(value: T, tag: &T::Tag) -> Cell<T>
        requires fits { T.fits tag.now value }
        ensures tag { result ≡ tag.now }
        ensures left { LeftBehind value }
    {
        let _ = tag;
        Cell { word: 0, value }
    }

    /// The value, whoever has the cell.
    #[inline]
    pub fn into_inner(self) -> T
        ensures fits { T.fits self result }
        ensures found { FoundBehind result }
    {
        let Self { word: _, value } = self;
        value
    }

    /// Lends the value for reading.
    #[inline]
    pub fn get(&mut self) -> &T
        ensures* stays { sem 𝓛 (StaysAt (the_row T.row T.Tag.row (record { fits = T.fits })) self.entry) }
        ensures fits { T.fits self.old result.now }
        ensures found { FoundBehind result.now }
    {
        &self.value
    }

    /// The word as it is now.
    #[inline]
    pub fn word(&self) -> u64 {
        unsafe { raw::load::<Brand>(&raw const self.word, SeqCst) }
    }

    /// A compare-exchange that sets a mark, or clears the writers': whoever has the cell keeps it.
    #[inline]
    pub fn remark(&self, old: u64, new: u64) -> Result<u64, u64>
        requires { IsMark old new }
    {
        unsafe { raw::compare_exchange::<Brand>(&raw const self.word, old, new, SeqCst, SeqCst) }
    }
}

/// What a lock was made for, which clauses alone read: std's `Snapshot`, with a `Sync` that a struct which has one hands on. It has no bytes.
pub struct Origin<T> {
    marker: PhantomData<T>,
    pub ghost value: { T } by { T.code },
}

impl<T> Model for Origin<T> {
    ghost use Rattle.std.specs.Borrow.{ftrue};

    ghost also_owns = { λ _. ftrue };
}

unsafe impl<T> Send for Origin<T> {}

unsafe impl<T> Sync for Origin<T> {}

impl<T> Drop for Origin<T> {
    fn drop(self) {
        let Self { marker: _ } = self;
    }
}

impl<T> Origin<T> {
    /// The origin of a lock that is made for this value.
    #[inline]
    pub fn of(value: &T) -> Origin<T>
        ensures { result.value ≡ value.now }
    {
        let _ = value;
        Origin {
            marker: PhantomData,
        }
    }
}
