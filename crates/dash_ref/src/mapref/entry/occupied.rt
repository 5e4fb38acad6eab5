//! A key that has a pair.
ghost use Rattle.std.specs.Prelude.{[], ◌≡◌, Some};
ghost use Rattle.std.specs.Option.{option_map};
ghost use Rattle.std.specs.Borrow.{Lends, sem};
ghost use Rattle.std.specs.Fn.{FnOnceReturnsAtMut};
ghost use Rattle.dash_ref.specs.Words.{HasKey, Leaves, LeftBehind, MayModify, Modified, Pair, Remove, Replaces, TakesAt, revalued, stored};

use crate::held::ShardMut;
use crate::held::holds::{Holds, Writing};
use crate::mapref::one::{HeldRef, RefMut};
use dash_shard::hash::FixedState;
use dash_shard::keyed::Lender;
use dash_shard::lock::RwLock;
use dash_shard::shard::Shard;
use std::hash::{BuildHasher, Hash};
use std::marker::Model;
use std::mem;

/// A key, the pair with an equal key, and a hold of its shard for writing: the original's `OccupiedEntry`.
pub struct HeldEntry<K: Eq + Hash, V, S: BuildHasher, H: Holds<Key = K, Value = V, State = S>> {
    pair: HeldRef<K, V, S, H>,
    key: K,
}

/// The original's `OccupiedEntry`.
pub type OccupiedEntry<'a, K, V, S = FixedState> = HeldEntry<K, V, S, Writing<'a, K, V, S>>;

impl<K: Eq + Hash, V, S: BuildHasher, H: Holds<Key = K, Value = V, State = S>> Model
    for HeldEntry<K, V, S, H> {
    ghost use Rattle.dash_shard.specs.Shard.{HasKey};
    ghost use Rattle.dash_ref.specs.Entry.{OccupiedState};
    ghost use Rattle.dash_ref.specs.inner.Entries.{occupied_code};

    ghost Value = { OccupiedState K V S };

    ghost coded = { occupied_code K.code V.code S.code };

    ghost view = { λ e. record { pair = e.pair; key = e.key } };

    ghost invariant = { λ e. HasKey K.eq e.pair.shard e.key e.pair.position };
}

impl<K: Eq + Hash, V, S: BuildHasher, H: Holds<Key = K, Value = V, State = S>> Lender
    for HeldEntry<K, V, S, H> {
    ghost use Rattle.dash_ref.specs.contracts.mapref.entry.occupied.HeldEntry.{the_row};

    ghost row = { the_row K.row V.row S.row H.row S.Hasher.row H.Lock.row (record { eq = K.eq }) (record { hash_input = K.hash_input }) S.BuildHasher S.Hasher.Hasher H.Holds };
}

impl<K: Eq + Hash + Drop, V, S: BuildHasher, H: Holds<Key = K, Value = V, State = S>> Drop
    for HeldEntry<K, V, S, H> {
    #[inline]
    fn drop(self)
        ensures left { LeftBehind self.pair.shard }
    {
        let Self { pair, key: _ } = self;
        drop(pair);
    }
}

impl<K: Eq + Hash, V, S: BuildHasher, H: Holds<Key = K, Value = V, State = S>> HeldEntry<
    K,
    V,
    S,
    H,
> {
    /// The stored value.
    #[inline]
    pub fn get(&self) -> &V
        ensures { option_map (λ p. p.1) (stored self.now.pair) ≡ Some result.now }
    {
        self.pair.value()
    }

    /// The stored value, to be written.
    #[inline]
    pub fn get_mut(&mut self) -> &mut V
        ensures* writes_back { sem 𝓛 (Lends ⟦<Self as Lender>⟧.row V.row self.entry result (revalued self.old)) }
        ensures value { option_map (λ p. p.1) (stored self.old.pair) ≡ Some result.now }
    {
        self.pair.value_mut()
    }

    // Changes the stored value by `f`.
    #[inline]
    pub(super) fn modify<F: FnOnce(&mut V)>(&mut self, f: F)
        requires { MayModify F.FnOnce f self.old }
        ensures { Modified (λ v w. FnOnceReturnsAtMut F.FnOnce f v tt w) self.old self.new }
    {
        f(self.get_mut());
    }

    /// Puts a value under the stored key, and returns the old one.
    #[inline]
    pub fn insert(&mut self, value: V) -> V
        ensures old { option_map (λ p. p.1) (stored self.old.pair) ≡ Some result }
        ensures new { self.new ≡ revalued self.old value }
    {
        mem::replace(self.get_mut(), value)
    }

    /// The stored key, which equals the one that was handed in.
    #[inline]
    pub fn key(&self) -> &K
        ensures { option_map (λ p. p.0) (stored self.now.pair) ≡ Some result.now }
    {
        self.pair.key()
    }
}

impl<'a, K: Eq + Hash + Drop, V: Drop, S: BuildHasher> OccupiedEntry<'a, K, V, S> {
    /// The entry of a key, at the slot of the pair with an equal one.
    #[inline]
    pub(crate) fn new(
        shard: ShardMut<'a, K, V, S>,
        position: usize,
        key: K,
    ) -> OccupiedEntry<'a, K, V, S>
        requires { HasKey K.eq shard key position }
        ensures { result ≡ record { pair = record { shard = shard.entry; position = position }; key = key } }
    {
        HeldEntry {
            pair: RefMut::new(shard, position),
            key,
        }
    }

    /// The stored pair, for as long as the shard is held.
    #[inline]
    pub fn into_ref(self) -> RefMut<'a, K, V, S>
        ensures { result ≡ self.entry.pair }
    {
        let Self { pair, key: _ } = self;
        pair
    }

    /// The key that was handed in.
    #[inline]
    pub fn into_key(self) -> K
        ensures key { result ≡ self.entry.key }
        ensures left { LeftBehind self.entry.pair.shard }
    {
        let Self { pair: _, key } = self;
        key
    }

    /// Takes the stored pair out, and returns its value.
    #[inline]
    pub fn remove(self) -> V
        ensures value { option_map (λ p. p.1) (stored self.entry.pair) ≡ Some result }
        ensures removes { Leaves (λ s. (k : K)
            × TakesAt K.eq self.entry.pair.shard s self.entry.pair.position Remove (Pair (Some (k, result)))) }
    {
        self.remove_entry().1
    }

    /// Takes the stored pair out, and returns it.
    #[inline]
    pub fn remove_entry(self) -> (K, V)
        ensures pair { stored self.entry.pair ≡ Some result }
        ensures removes { Leaves (λ s. TakesAt K.eq self.entry.pair.shard s self.entry.pair.position Remove (Pair (Some result))) }
    {
        self.remove_held().0
    }

    /// As `remove_entry`, and returns the shard too, held on. The original has no such call.
    #[inline]
    pub fn remove_held(self) -> ((K, V), ShardMut<'a, K, V, S>)
        ensures pair { stored self.entry.pair ≡ Some result.0 }
        ensures removes { TakesAt K.eq self.entry.pair.shard result.1 self.entry.pair.position Remove (Pair (Some result.0)) }
    {
        let (mut shard, position) = self.into_ref().into_place();
        (shard.remove_at(position), shard)
    }

    /// Stores the key that was handed in with the value, and returns the pair that stood there.
    #[inline]
    pub fn replace_entry(self, value: V) -> (K, V)
        ensures { Leaves (λ s. Replaces K.eq self.entry.pair.shard s self.entry.pair.position self.entry.key value result) }
    {
        self.replace_held(value).0
    }

    /// As `replace_entry`, and returns the shard too, held on. The original has no such call.
    #[inline]
    pub fn replace_held(self, value: V) -> ((K, V), ShardMut<'a, K, V, S>)
        ensures { Replaces K.eq self.entry.pair.shard result.1 self.entry.pair.position self.entry.key value result.0 }
    {
        let Self { pair, key } = self;
        let (mut shard, position) = pair.into_place();
        (shard.replace_at(position, key, value), shard)
    }
}
