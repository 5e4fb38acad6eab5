//! Walks over the keys of a set.
ghost use Rattle.std.specs.Prelude.{◌≡◌, length, map, ⊤};
ghost use Rattle.std.specs.Iterator.{at_most};
ghost use Rattle.std.specs.Map.Iter.{TakesFirst};
ghost use Rattle.dashmap.specs.Words.{StepsOn, at_start, by, keys_of, steps_left};

use crate::setref::multiple::RefMulti;
use dash_map::iter;
use dash_shard::hash::FixedState;
use std::alloc::AllocError;
use std::hash::{BuildHasher, Hash};
use std::iter::FusedIterator;
use std::marker::Model;
use std::rt::Clock;
use std::sync::Wait;

/// The keys of a set that ended, by rising shard and in each by rising slot. A contract sees it as the list of those that are left.
///
/// It waits for nobody. A step looks at the next slots. It hashes and searches nothing.
#[derive(Drop)]
pub struct OwningIter<K: Eq + Hash, S: BuildHasher = FixedState> {
    inner: iter::OwningIter<K, (), S>,
}

impl<K: Eq + Hash, S: BuildHasher> Model for OwningIter<K, S> {
    ghost use Rattle.std.specs.Prelude.{List};
    ghost use Rattle.dashmap.specs.Set.{keys_of};

    ghost Value = { List K };

    ghost view = { λ it. keys_of it.inner };
}

impl<K: Eq + Hash, S: BuildHasher> OwningIter<K, S> {
    #[inline]
    pub(crate) fn new(inner: iter::OwningIter<K, (), S>) -> Self
        ensures { result ≡ keys_of inner }
    {
        OwningIter { inner }
    }
}

impl<K: Eq + Hash + Drop, S: BuildHasher + Drop> Iterator for OwningIter<K, S> {
    type Item = K;

    ghost next_gives = { TakesFirst (λ k. k) };

    ghost remaining = { λ s. at_most (length s) };

    #[inline]
    fn next(&mut self) -> Option<K> {
        let (key, _) = self.inner.next()?;
        Some(key)
    }
}

impl<K: Eq + Hash + Drop, S: BuildHasher + Drop> FusedIterator for OwningIter<K, S> {}

/// A walk over the keys of a set, by rising shard and in each by rising slot: the original's `Iter`. It holds one shard for reading, and
/// waits, takes memory and ends as the map's walk does.
///
/// A contract sees it as a walk over a map to unit.
#[derive(Drop)]
pub struct Iter<'a, K: Eq + Hash, S: BuildHasher, R> {
    inner: iter::Iter<'a, K, (), S, R>,
}

impl<'a, K: Eq + Hash, S: BuildHasher, R> Model for Iter<'a, K, S, R> {
    ghost use Rattle.dash_map.specs.Walking.{IterState};

    ghost Value = { IterState K (Unit {0}) S };

    ghost view = { λ w. w.inner };
}

impl<'a, K: Eq + Hash, S: BuildHasher, R> Iter<'a, K, S, R> {
    #[inline]
    pub(crate) fn new(inner: iter::Iter<'a, K, (), S, R>) -> Self
        ensures { result ≡ inner.entry }
    {
        Iter { inner }
    }
}

impl<'a, K: Eq + Hash, S: BuildHasher, R: Wait + Clock> Iterator for Iter<'a, K, S, R> {
    type Item = Result<RefMulti<'a, K, S>, AllocError>;

    ghost next_gives = { StepsOn (by K.Hash S.BuildHasher S.Hasher.Hasher) };

    ghost remaining = { steps_left };

    #[inline]
    fn size_hint(&self) -> (usize, Option<usize>) {
        (0, None)
    }

    #[inline]
    fn next(&mut self) -> Option<Result<RefMulti<'a, K, S>, AllocError>> {
        match self.inner.next()? {
            Ok(found) => Some(Ok(RefMulti::new(found))),
            Err(refused) => Some(Err(refused)),
        }
    }
}

/// The copy starts from the beginning, as the map's walk does. It takes no memory.
impl<'a, K: Eq + Hash, S: BuildHasher, R> Clone for Iter<'a, K, S, R> {
    ghost is_clone = { λ it copy. copy ≡ at_start it.base };

    ghost is_infallible = { λ _. ⊤ };

    #[inline]
    fn clone(&self) -> Result<Self, AllocError> {
        Ok(Iter::new(self.inner.clone()?))
    }
}
