//! The iterators over the pairs of a map without locks.
ghost use Rattle.std.specs.Prelude.{◌≡◌, length, map, flat_map, ⊤};
ghost use Rattle.std.specs.Iterator.{at_most};
ghost use Rattle.std.specs.Map.Iter.{TakesFirst, deref, deref_pair};
ghost use Rattle.dash_rows.specs.Words.{pairs};

use dash_shard::hash::FixedState;
use dash_shard::shard::{Iter, Shard};
use std::alloc::AllocError;
use std::hash::{BuildHasher, Hash};
use std::iter::FusedIterator;
use std::marker::Model;

/// The pairs of a map without locks, by rising shard and in each by rising slot. A contract sees it as the list of those that are left.
///
/// A step looks at the next slots. It hashes and searches nothing.
#[derive(Drop)]
pub struct ViewIter<'a, K: Eq + Hash, V, S: BuildHasher = FixedState> {
    // What is left of the shard that the walk is in, and the shards behind it.
    here: Iter<'a, K, V>,
    shards: &'a [Shard<K, V, S>],
}

impl<'a, K: Eq + Hash, V, S: BuildHasher> Model for ViewIter<'a, K, V, S> {
    ghost use Rattle.std.specs.Prelude.{List, flat_map, ◌++◌};
    ghost use Rattle.dash_shard.specs.Shard.{pairs};

    ghost Value = { List (K × V) };

    ghost view = { λ it. it.here ++ flat_map pairs it.shards.now };
}

impl<'a, K: Eq + Hash, V, S: BuildHasher> ViewIter<'a, K, V, S> {
    #[inline]
    pub fn new(shards: &'a [Shard<K, V, S>]) -> Self
        ensures { result ≡ flat_map pairs shards.now }
    {
        ViewIter {
            here: Iter::default(),
            shards,
        }
    }
}

impl<'a, K: Eq + Hash, V, S: BuildHasher> Iterator for ViewIter<'a, K, V, S> {
    type Item = (&'a K, &'a V);

    ghost next_gives = { TakesFirst deref_pair };

    ghost remaining = { λ s. at_most (length s) };

    #[inline]
    fn next(&mut self) -> Option<(&'a K, &'a V)> {
        loop {
            if let Some(pair) = self.here.next() {
                return Some(pair);
            }
            let (shard, rest) = self.shards.split_first()?;
            self.here = shard.iter();
            self.shards = rest;
        }
    }
}

impl<'a, K: Eq + Hash, V, S: BuildHasher> FusedIterator for ViewIter<'a, K, V, S> {}

impl<'a, K: Eq + Hash, V, S: BuildHasher> Clone for ViewIter<'a, K, V, S> {
    ghost is_clone = { λ it copy. copy ≡ it };

    ghost is_infallible = { λ _. ⊤ };

    fn clone(&self) -> Result<Self, AllocError> {
        Ok(ViewIter {
            here: self.here.clone()?,
            shards: self.shards,
        })
    }
}

/// The keys of a map without locks, in the order of its pairs. A contract sees it as the list of those that are left.
#[derive(Drop)]
pub struct Keys<'a, K: Eq + Hash, V, S: BuildHasher = FixedState> {
    pairs: ViewIter<'a, K, V, S>,
}

impl<'a, K: Eq + Hash, V, S: BuildHasher> Model for Keys<'a, K, V, S> {
    ghost use Rattle.std.specs.Prelude.{List, map};

    ghost Value = { List K };

    ghost view = { λ it. map (λ p. p.0) it.pairs };
}

impl<'a, K: Eq + Hash, V, S: BuildHasher> Keys<'a, K, V, S> {
    #[inline]
    pub fn new(pairs: ViewIter<'a, K, V, S>) -> Self
        ensures { result ≡ map (λ p. p.0) pairs.entry }
    {
        Keys { pairs }
    }
}

impl<'a, K: Eq + Hash, V, S: BuildHasher> Iterator for Keys<'a, K, V, S> {
    type Item = &'a K;

    ghost next_gives = { TakesFirst deref };

    ghost remaining = { λ s. at_most (length s) };

    #[inline]
    fn next(&mut self) -> Option<&'a K> {
        let (key, _) = self.pairs.next()?;
        Some(key)
    }
}

impl<'a, K: Eq + Hash, V, S: BuildHasher> FusedIterator for Keys<'a, K, V, S> {}

/// The values of a map without locks, in the order of its pairs. A contract sees it as the list of those that are left.
#[derive(Drop)]
pub struct Values<'a, K: Eq + Hash, V, S: BuildHasher = FixedState> {
    pairs: ViewIter<'a, K, V, S>,
}

impl<'a, K: Eq + Hash, V, S: BuildHasher> Model for Values<'a, K, V, S> {
    ghost use Rattle.std.specs.Prelude.{List, map};

    ghost Value = { List V };

    ghost view = { λ it. map (λ p. p.1) it.pairs };
}

impl<'a, K: Eq + Hash, V, S: BuildHasher> Values<'a, K, V, S> {
    #[inline]
    pub fn new(pairs: ViewIter<'a, K, V, S>) -> Self
        ensures { result ≡ map (λ p. p.1) pairs.entry }
    {
        Values { pairs }
    }
}

impl<'a, K: Eq + Hash, V, S: BuildHasher> Iterator for Values<'a, K, V, S> {
    type Item = &'a V;

    ghost next_gives = { TakesFirst deref };

    ghost remaining = { λ s. at_most (length s) };

    #[inline]
    fn next(&mut self) -> Option<&'a V> {
        let (_, value) = self.pairs.next()?;
        Some(value)
    }
}

impl<'a, K: Eq + Hash, V, S: BuildHasher> FusedIterator for Values<'a, K, V, S> {}
