//! A reference to one key.
ghost use Rattle.std.specs.Prelude.{◌≡◌};
ghost use Rattle.dashmap.specs.Words.{GivenBack, IsShard, Stands, by};

use dash_ref::mapref;
use dash_shard::hash::FixedState;
use dash_shard::keyed::Keyed;
use std::fmt;
use std::hash::{BuildHasher, Hash};
use std::marker::Model;
use std::ops::Deref;

/// A key of a set, and a hold of its shard's lock for reading, as the original's `Ref`: the hold ends when this is dropped, and till then
/// the key stays.
///
/// No call takes memory or waits. A contract sees it as a reference of a map to unit: the held shard, the position, and the key there.
pub struct Ref<'a, K: Eq + Hash, S: BuildHasher = FixedState> {
    inner: mapref::one::Ref<'a, K, (), S>,
}

impl<'a, K: Eq + Hash, S: BuildHasher> Model for Ref<'a, K, S> {
    ghost use Rattle.dash_ref.specs.Ref.{RefState};

    ghost Value = { RefState K (Unit {0}) S };

    ghost view = { λ s. s.inner };
}

impl<K: Eq + Hash, S: BuildHasher> Keyed for Ref<'_, K, S> {
    type Key = K;

    type State = S;

    ghost by = { by K.Hash S.BuildHasher S.Hasher.Hasher };
}

impl<K: Eq + Hash, S: BuildHasher> Drop for Ref<'_, K, S> {
    #[inline]
    fn drop(self)
        ensures back { GivenBack self.entry.shard }
    {
        let Self { inner } = self;
        drop(inner);
    }
}

impl<'a, K: Eq + Hash, S: BuildHasher> Ref<'a, K, S> {
    #[inline]
    pub(crate) fn new(inner: mapref::one::Ref<'a, K, (), S>) -> Self
        ensures { result ≡ inner.entry }
    {
        Ref { inner }
    }

    /// The key that is stored.
    #[inline]
    pub fn key(&self) -> &K
        ensures key { result.now ≡ self.now.key }
        ensures stands { Stands self.now }
        ensures lawful { IsShard ⟦<Self as Keyed>⟧.by self.now.shard }
    {
        self.inner.key()
    }
}

impl<K: Eq + Hash, S: BuildHasher> Deref for Ref<'_, K, S> {
    type Target = K;

    ghost deref_gives = { λ found key. key ≡ found.key };

    #[inline]
    fn deref(&self) -> &K {
        self.key()
    }
}
