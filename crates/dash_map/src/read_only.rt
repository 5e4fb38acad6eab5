//! A view of a map that nobody writes any more.
ghost use Rattle.std.specs.Prelude.{◌≡◌, ◌≤◌, ◌==◌, IfOk, IfErr, is_some, length, map};
ghost use Rattle.std.specs.Option.{option_map};
ghost use Rattle.std.specs.Map.Iter.{deref_pair};
ghost use Rattle.dash_map.specs.Words.{AreBehind, AreEnded, CopiesAlone, FoldsEach, HashAlike, IsAlone, LeftBehind, MayFold, MayVisit, VisitsEach, at_named, by, contents, len_in, locked, of_pair, room_in};

use crate::alone::Alone;
use crate::map::DashMap;
use crate::shards::Shards;
use dash_rows::copies::copy_shards;
pub use dash_rows::view::{Keys, Values, ViewIter};
use dash_shard::hash::FixedState;
use dash_shard::keyed::Keyed;
use dash_shard::query::Query;
use dash_shard::row::Row;
use dash_shard::shard::Shard;
use dash_steps::kept::{Kept, KeptKey};
use std::alloc::{AllocError, Global};
use std::fmt;
use std::hash::{BuildHasher, Hash};
use std::marker::Model;
use thiserror::Error;

/// The pairs of a map, to be read alone: the original's `ReadOnlyView`. Its calls take no lock, wait for nobody and take no memory.
///
/// A contract sees its hasher and the row of its shards, as of a map of one owner.
#[derive(Drop)]
pub struct ReadOnlyView<K: Eq + Hash, V, S: BuildHasher = FixedState> {
    pub(crate) hasher: S,
    pub(crate) shards: Vec<Shard<K, V, S>>,
}

impl<K: Eq + Hash, V, S: BuildHasher> Model for ReadOnlyView<K, V, S> {
    ghost use Rattle.dash_map.specs.Alone.{AloneState, IsAlone};
    ghost use Rattle.dash_shard.specs.Hashing.{key_hash};

    ghost Value = { AloneState K V S };

    ghost view = { λ a. record { hasher = a.hasher; row = a.shards.items } };

    ghost invariant = { λ a. IsAlone (key_hash K.eq K.hash_input S.BuildHasher S.Hasher.Hasher) (record { hasher = a.hasher; row = a.shards.items }) };
}

impl<K: Eq + Hash, V, S: BuildHasher> Keyed for ReadOnlyView<K, V, S> {
    type Key = K;

    type State = S;

    ghost by = { by K.Hash S.BuildHasher S.Hasher.Hasher };
}

/// No memory for a view's row of locks (15). The view comes back whole.
#[derive(Drop, Error)]
#[error("no memory for a row of locks")]
pub struct ViewRefused<K: Eq + Hash, V, S: BuildHasher = FixedState> {
    pub owner: ReadOnlyView<K, V, S>,
}

impl<K: Eq + Hash, V, S: BuildHasher> fmt::Debug for ViewRefused<K, V, S> {
    fn fmt<W: fmt::Write>(&self, f: &mut fmt::Formatter<W>) -> fmt::Result {
        f.write_str("ViewRefused { .. }")
    }
}

/// So that `view.into_inner(alloc)?` converts. The view is dropped.
impl<K: Eq + Hash + Drop, V: Drop, S: BuildHasher + Drop> From<ViewRefused<K, V, S>>
    for AllocError {
    fn from(_: ViewRefused<K, V, S>) -> Self {
        AllocError
    }
}

impl<K: Eq + Hash, V, S: BuildHasher> ReadOnlyView<K, V, S> {
    // The shards, to be read.
    #[inline]
    fn lent(&self) -> Shards<'_, K, V, S>
        ensures same { result ≡ self.now }
        ensures lawful { IsAlone ⟦<Self as Keyed>⟧.by self.now }
    {
        Shards::new(&self.hasher, &self.shards)
    }

    /// How many pairs there are, saturating at 2^64 - 1. It asks each shard once.
    pub fn len(&self) -> usize
        ensures len { result ≡ len_in self.now }
        ensures lawful { IsAlone ⟦<Self as Keyed>⟧.by self.now }
    {
        self.lent().len()
    }

    /// Whether there are no pairs.
    pub fn is_empty(&self) -> bool
        ensures empty { result ≡ (length (contents self.now) == 0) }
        ensures lawful { IsAlone ⟦<Self as Keyed>⟧.by self.now }
    {
        self.len() == 0
    }

    /// How many pairs the shards have room for, saturating at 2^64 - 1. It asks each shard once.
    pub fn capacity(&self) -> usize
        ensures capacity { result ≡ room_in self.now }
        ensures holds { len_in self.now ≤ result }
        ensures lawful { IsAlone ⟦<Self as Keyed>⟧.by self.now }
    {
        self.lent().capacity()
    }

    /// Whether there is a pair whose key equals `key`.
    #[inline]
    pub fn contains_key<Q: Query<K>>(&self, key: Q) -> bool
        ensures found { result ≡ is_some (at_named (Q.names key) (contents self.now)) }
        ensures lawful { IsAlone ⟦<Self as Keyed>⟧.by self.now }
    {
        self.get_key_value(key).is_some()
    }

    /// The value of the pair whose key equals `key`.
    #[inline]
    pub fn get<Q: Query<K>>(&self, key: Q) -> Option<&V>
        ensures value { option_map (λ v. v.now) result ≡ option_map (λ p. p.1) (at_named (Q.names key) (contents self.now)) }
        ensures lawful { IsAlone ⟦<Self as Keyed>⟧.by self.now }
    {
        let (_, value) = self.get_key_value(key)?;
        Some(value)
    }

    /// The pair whose key equals `key`.
    #[inline]
    pub fn get_key_value<Q: Query<K>>(&self, key: Q) -> Option<(&K, &V)>
        ensures pair { option_map deref_pair result ≡ at_named (Q.names key) (contents self.now) }
        ensures lawful { IsAlone ⟦<Self as Keyed>⟧.by self.now }
    {
        self.lent().get(key)
    }

    /// The pairs, by rising shard and in each by rising slot.
    pub fn iter(&self) -> ViewIter<'_, K, V, S>
        ensures pairs { result ≡ contents self.now }
        ensures lawful { IsAlone ⟦<Self as Keyed>⟧.by self.now }
    {
        self.lent().iter()
    }

    /// What `f` makes of `first` and the pairs, called at each in turn with what it made before, in the order of `iter`.
    #[inline]
    pub fn fold<T, F: FnMut(T, &K, &V) -> T>(&self, first: T, mut f: F) -> T
        requires { MayFold of_pair F.FnMut f first }
        ensures { FoldsEach of_pair F.FnMut f first (contents self.now) result }
    {
        let mut folded = first;
        for (key, value) in self.iter() {
            folded = f(folded, key, value);
        }
        folded
    }

    /// Calls `f` at each pair, in the order of `iter`.
    #[inline]
    pub fn for_each<F: FnMut(&K, &V)>(&self, mut f: F)
        requires { MayVisit of_pair F.FnMut f }
        ensures { VisitsEach of_pair F.FnMut f (contents self.now) }
    {
        for (key, value) in self.iter() {
            f(key, value);
        }
    }

    /// The keys, in the order of `iter`.
    pub fn keys(&self) -> Keys<'_, K, V, S>
        ensures keys { result ≡ map (λ p. p.0) (contents self.now) }
        ensures lawful { IsAlone ⟦<Self as Keyed>⟧.by self.now }
    {
        Keys::new(self.iter())
    }

    /// The values, in the order of `iter`.
    pub fn values(&self) -> Values<'_, K, V, S>
        ensures values { result ≡ map (λ p. p.1) (contents self.now) }
        ensures lawful { IsAlone ⟦<Self as Keyed>⟧.by self.now }
    {
        Values::new(self.iter())
    }

    /// The shards, which have no locks.
    pub fn shards(&self) -> &[Shard<K, V, S>]
        ensures shards { result.now ≡ self.now.row }
        ensures lawful { IsAlone ⟦<Self as Keyed>⟧.by self.now }
    {
        &self.shards
    }

    /// The map behind locks again. It asks for the memory of the row of locks, and is refused (15) only for want of it.
    pub fn into_inner(self, alloc: Global) -> Result<DashMap<K, V, S>, ViewRefused<K, V, S>>
    where
        K: Drop,
        V: Drop,
        ensures map { IfOk result (λ m. m ≡ locked self) }
        ensures left { IfOk result (λ m. AreBehind ⟦<Self as Keyed>⟧.by LeftBehind m self) }
        ensures refused { IfErr result (λ e. e.owner ≡ self) }
    {
        let ReadOnlyView { hasher, shards } = self;
        match Row::try_of(alloc, shards) {
            Ok(row) => Ok(Alone { hasher, row }.end()),
            Err(shards) => Err(ViewRefused {
                owner: ReadOnlyView { hasher, shards },
            }),
        }
    }
}

impl<K: KeptKey + Drop, V: Kept + Drop, S: BuildHasher + Clone + Drop> ReadOnlyView<K, V, S> {
    /// A view of copies of the pairs, each alike its source, with a clone of the hasher.
    ///
    /// It takes memory once a shard and once for the row, and what the copies of keys and values take, and hashes each key once. Where
    /// there is none it is refused (4), and keeps nothing. Which slots the pairs have is left open.
    pub fn clone(&self) -> Result<Self, AllocError>
        requires { (s t : S) → S.is_clone s t → HashAlike ⟦<Self as Keyed>⟧.by s t }
        ensures copies { IfOk result (CopiesAlone K.eq K.alike V.alike S.is_clone self.now) }
        ensures lawful { IfOk result (IsAlone ⟦<Self as Keyed>⟧.by) }
    {
        let hasher = self.hasher.clone()?;
        let shards = copy_shards(*self.shards.allocator(), &self.shards)?;
        Ok(ReadOnlyView { hasher, shards })
    }
}

impl<K: Eq + Hash + fmt::Debug, V: fmt::Debug, S: BuildHasher> fmt::Debug
    for ReadOnlyView<K, V, S> {
    // The pairs in the order of `iter`, as `{0: 5, 1: 6}`.
    fn fmt<W: fmt::Write>(&self, f: &mut fmt::Formatter<W>) -> fmt::Result {
        f.debug_map().entries(self.iter()).finish()
    }
}

impl<K: Eq + Hash, V, S: BuildHasher> DashMap<K, V, S> {
    /// The map as a view without locks. It takes no memory, and waits for nobody. The memory of the row of locks is given back.
    pub fn into_read_only(self) -> ReadOnlyView<K, V, S>
        ensures { AreEnded ⟦<Self as Keyed>⟧.by self result }
    {
        let Alone { hasher, row } = self.alone();
        ReadOnlyView {
            hasher,
            shards: row.into_items(),
        }
    }
}
