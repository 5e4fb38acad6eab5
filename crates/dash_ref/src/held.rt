//! A shard that is held for writing, changed and lent from in place behind its lock.
ghost use Rattle.std.specs.Prelude.{◌≡◌, ◌<◌, ◌≤◌, ◌↔◌, IsTrue, IsSome, IfSome};
ghost use Rattle.std.specs.Option.{option_map};
ghost use Rattle.std.specs.Map.Iter.{deref_pair};
ghost use Rattle.dash_ref.specs.Words.{Alter, Answered, ChangesOn, Done, FitsTag, Given, Inserts, IsHashOf, IsShard, LeftBehind, MayAsk, MayChange, MayGive, RemoveIf, RemoveIfMut, RemovesNamed, RemovesNamedBy, Reserves, Routes, TakesBy, at_named, by, pairs, shard_len, slot};

use dash_shard::error::TryReserveError;
use dash_shard::hash::FixedState;
use dash_shard::keyed::Keyed;
use dash_shard::lock::hold::Hold;
use dash_shard::lock::{RwLockReadGuard, RwLockWriteGuard};
use dash_shard::query::Query;
use dash_shard::shard::{InsertRefused, Shard};
use holds::{Holds, Wakes, Writing};
use std::hash::{BuildHasher, Hash};
use std::marker::{Model, PhantomData};
use std::ops::Deref;

mod all_pairs;
pub mod holds;
mod lent;
mod part;
mod positions;

/// A shard that is held for writing, as the original's write guard of one shard: the hold ends when it is dropped.
///
/// It is read as a `Shard`, and has the calls of one that change it, which do so in place. To take or to end a hold takes no memory, and
/// to end one waits for nobody and can't fail. A contract sees it as the shard.
#[must_use]
pub struct HeldShard<K: Eq + Hash, V, S: BuildHasher, H: Holds<Key = K, Value = V, State = S>> {
    hold: H,
    lock: H::Lock,
    marker: PhantomData<Shard<K, V, S>>,
}

/// A shard that is held for writing, behind its lock.
pub type ShardMut<'a, K, V, S = FixedState> = HeldShard<K, V, S, Writing<'a, K, V, S>>;

impl<K: Eq + Hash, V, S: BuildHasher, H: Holds<Key = K, Value = V, State = S>> Model
    for HeldShard<K, V, S, H> {
    ghost use Rattle.std.specs.Prelude.{◌≡◌};
    ghost use Rattle.dash_shard.specs.Hashing.{key_hash};
    ghost use Rattle.dash_shard.specs.Held.{FitsTag};
    ghost use Rattle.dash_shard.specs.Shard.{ShardState};
    ghost use Rattle.dash_shard.specs.inner.Codes.{shard_code};

    ghost Value = { ShardState K V S };

    ghost coded = { shard_code K.code V.code S.code };

    ghost view = { λ s. H.value s.hold };

    ghost invariant = { λ s. (H.right s.hold ≡ 2) × FitsTag (key_hash K.eq K.hash_input S.BuildHasher S.Hasher.Hasher) (H.tag s.hold) (H.value s.hold) };
}

impl<K: Eq + Hash, V, S: BuildHasher, H: Holds<Key = K, Value = V, State = S>> Keyed
    for HeldShard<K, V, S, H> {
    type Key = K;

    type State = S;

    ghost by = { by K.Hash S.BuildHasher S.Hasher.Hasher };
}

/// The shard, to be read.
impl<K: Eq + Hash, V, S: BuildHasher, H: Holds<Key = K, Value = V, State = S>> Deref
    for HeldShard<K, V, S, H> {
    type Target = Shard<K, V, S>;

    ghost deref_gives = { λ held shard. shard ≡ held };

    #[inline(always)]
    fn deref(&self) -> &Shard<K, V, S> {
        self.hold.get()
    }
}

impl<K: Eq + Hash, V, S: BuildHasher, H: Holds<Key = K, Value = V, State = S>> Drop
    for HeldShard<K, V, S, H> {
    #[inline]
    fn drop(self)
        ensures left { LeftBehind self }
    {
        let Self {
            hold,
            lock,
            marker: _,
        } = self;
        lock.wake(hold.release());
    }
}

/// A guard that turns into the shard that it holds.
pub trait IntoShard {
    type Shard;

    /// The shard that is held, whose calls change it in place.
    fn shard(self) -> Self::Shard;
}

impl<'a, K: Eq + Hash, V, S: BuildHasher> IntoShard for RwLockWriteGuard<'a, Shard<K, V, S>> {
    type Shard = ShardMut<'a, K, V, S>;

    #[inline]
    fn shard(self) -> ShardMut<'a, K, V, S>
        ensures value { result ≡ self.entry.value }
        ensures fits { FitsTag ⟦<Shard<K, V, S> as Keyed>⟧.by self.entry.tag result }
    {
        let (hold, lock) = Hold::of(self);
        HeldShard {
            hold,
            lock,
            marker: PhantomData,
        }
    }
}

impl<'a, K: Eq + Hash, V, S: BuildHasher> ShardMut<'a, K, V, S> {
    /// The right to read the shard, by one atomic step: no other writer comes between. Readers that wait are woken.
    #[inline]
    pub fn downgrade(self) -> RwLockReadGuard<'a, Shard<K, V, S>>
        ensures value { result.value ≡ self.entry }
        ensures left { LeftBehind self.entry }
    {
        let Self {
            hold,
            lock,
            marker: _,
        } = self;
        hold.guard(lock).downgrade()
    }
}

impl<K: Eq + Hash, V, S: BuildHasher> ShardMut<'_, K, V, S> {
    /// Puts the pair, or where an equal key is there the value under the stored key, and returns the old value.
    ///
    /// Takes memory for a new key where the shard is full, and is refused (1) only then.
    #[inline]
    pub fn insert(&mut self, key: K, value: V) -> Result<Option<V>, InsertRefused<K, V>>
    where
        K: Drop,
        V: Drop,
        requires { Routes ⟦<Self as Keyed>⟧.by self.old key }
        ensures inserts { Inserts K.eq self.old self.new key value result }
        ensures lawful { IsShard ⟦<Self as Keyed>⟧.by self.new }
    {
        let hash = self.hash_one(&key);
        self.insert_hashed(hash, key, value)
    }

    /// As `insert`, for a caller who has the key's hash.
    #[inline(always)]
    pub fn insert_hashed(
        &mut self,
        hash: u64,
        key: K,
        value: V,
    ) -> Result<Option<V>, InsertRefused<K, V>>
    where
        K: Drop,
        V: Drop,
        requires hash { hash ≡ ⟦<Self as Keyed>⟧.by.hash self.old.hasher key }
        requires route { Routes ⟦<Self as Keyed>⟧.by self.old key }
        ensures inserts { Inserts K.eq self.old self.new key value result }
        ensures lawful { IsShard ⟦<Self as Keyed>⟧.by self.new }
    {
        // As `insert_found`, by its parts: an answer of this size is copied by each closure that hands it on.
        let place = match self.find_or_place(hash, &key) {
            Ok(slot) => {
                let old = self.hold.change(|shard| shard.set_at(slot, value));
                return Ok(Some(old));
            }
            Err(place) => place,
        };
        let Ok(place) = self.make_place(hash, place) else {
            return Err(InsertRefused { key, value });
        };
        self.insert_new_at(place, hash, key, value);
        Ok(None)
    }

    /// Takes the pair whose key equals `key` out, and returns it. It takes no memory, and can't be refused.
    ///
    /// The room stays, for pairs that come later.
    #[inline]
    pub fn remove<Q: Query<K>>(&mut self, key: Q) -> Option<(K, V)>
        ensures removes { RemovesNamed K.eq (Q.names key) self.old self.new result }
        ensures lawful { IsShard ⟦<Self as Keyed>⟧.by self.new }
    {
        let hash = self.hash_one(key);
        self.remove_hashed(hash, key)
    }

    /// As `remove`, for a caller who has the key's hash.
    #[inline(always)]
    pub fn remove_hashed<Q: Query<K>>(&mut self, hash: u64, key: Q) -> Option<(K, V)>
        requires { IsHashOf ⟦<Self as Keyed>⟧.by self.old.hasher (Q.names key) hash }
        ensures removes { RemovesNamed K.eq (Q.names key) self.old self.new result }
        ensures lawful { IsShard ⟦<Self as Keyed>⟧.by self.new }
    {
        self.hold.change(|shard| shard.remove_hashed(hash, key))
    }

    /// Takes the pair whose key equals `key` out if `f` returns true on it, and returns it. It takes no memory, and can't be refused.
    #[inline]
    pub fn remove_if<Q: Query<K>, F: FnOnce(&K, &V) -> bool>(
        &mut self,
        key: Q,
        f: F,
    ) -> Option<(K, V)>
        requires callable { IfSome (at_named (Q.names key) (pairs self.old)) (MayAsk F.FnOnce f) }
        ensures removes { RemovesNamedBy K.eq (Q.names key) self.old self.new RemoveIf result (Answered F.FnOnce f) }
        ensures lawful { IsShard ⟦<Self as Keyed>⟧.by self.new }
    {
        let hash = self.hash_one(key);
        self.remove_if_hashed(hash, key, f)
    }

    /// As `remove_if`, for a caller who has the key's hash.
    #[inline]
    pub fn remove_if_hashed<Q: Query<K>, F: FnOnce(&K, &V) -> bool>(
        &mut self,
        hash: u64,
        key: Q,
        f: F,
    ) -> Option<(K, V)>
        requires hash { IsHashOf ⟦<Self as Keyed>⟧.by self.old.hasher (Q.names key) hash }
        requires callable { IfSome (at_named (Q.names key) (pairs self.old)) (MayAsk F.FnOnce f) }
        ensures removes { RemovesNamedBy K.eq (Q.names key) self.old self.new RemoveIf result (Answered F.FnOnce f) }
        ensures lawful { IsShard ⟦<Self as Keyed>⟧.by self.new }
    {
        self.hold.change(
            |shard: &mut Shard<K, V, S>| -> Option<(K, V)>
                requires hash { IsHashOf (by K.Hash S.BuildHasher S.Hasher.Hasher) shard.old.hasher (Q.names key) hash }
                requires callable { IfSome (at_named (Q.names key) (pairs shard.old)) (MayAsk F.FnOnce f) }
                ensures removes { RemovesNamedBy K.eq (Q.names key) shard.old shard.new RemoveIf result (Answered F.FnOnce f) }
                ensures lawful { IsShard (by K.Hash S.BuildHasher S.Hasher.Hasher) shard.new }
            { shard.remove_if_hashed(hash, key, f) },
        )
    }

    /// As `remove_if`, where `f` may write the value. On `true` the pair is returned as `f` left it, and on `false` it stays so.
    #[inline]
    pub fn remove_if_mut<Q: Query<K>, F: FnOnce(&K, &mut V) -> bool>(
        &mut self,
        key: Q,
        f: F,
    ) -> Option<(K, V)>
        requires callable { IfSome (at_named (Q.names key) (pairs self.old)) (MayChange F.FnOnce f) }
        ensures removes { RemovesNamedBy K.eq (Q.names key) self.old self.new RemoveIfMut result (ChangesOn F.FnOnce f) }
        ensures lawful { IsShard ⟦<Self as Keyed>⟧.by self.new }
    {
        let hash = self.hash_one(key);
        self.remove_if_mut_hashed(hash, key, f)
    }

    /// As `remove_if_mut`, for a caller who has the key's hash.
    #[inline]
    pub fn remove_if_mut_hashed<Q: Query<K>, F: FnOnce(&K, &mut V) -> bool>(
        &mut self,
        hash: u64,
        key: Q,
        f: F,
    ) -> Option<(K, V)>
        requires hash { IsHashOf ⟦<Self as Keyed>⟧.by self.old.hasher (Q.names key) hash }
        requires callable { IfSome (at_named (Q.names key) (pairs self.old)) (MayChange F.FnOnce f) }
        ensures removes { RemovesNamedBy K.eq (Q.names key) self.old self.new RemoveIfMut result (ChangesOn F.FnOnce f) }
        ensures lawful { IsShard ⟦<Self as Keyed>⟧.by self.new }
    {
        self.hold.change(
            |shard: &mut Shard<K, V, S>| -> Option<(K, V)>
                requires hash { IsHashOf (by K.Hash S.BuildHasher S.Hasher.Hasher) shard.old.hasher (Q.names key) hash }
                requires callable { IfSome (at_named (Q.names key) (pairs shard.old)) (MayChange F.FnOnce f) }
                ensures removes { RemovesNamedBy K.eq (Q.names key) shard.old shard.new RemoveIfMut result (ChangesOn F.FnOnce f) }
                ensures lawful { IsShard (by K.Hash S.BuildHasher S.Hasher.Hasher) shard.new }
            { shard.remove_if_mut_hashed(hash, key, f) },
        )
    }

    /// Gives the pair whose key equals `key` the value that `f` makes of its own, in its place; without such a pair it does nothing. It takes
    /// no memory, and can't be refused.
    #[inline]
    pub fn alter<Q: Query<K>, F: FnOnce(&K, V) -> V>(&mut self, key: Q, f: F)
        requires callable { IfSome (at_named (Q.names key) (pairs self.old)) (MayGive F.FnOnce f) }
        ensures alters { TakesBy K.eq self.old self.new Alter (Q.names key) Done (Given F.FnOnce f) }
        ensures len { shard_len self.new ≡ shard_len self.old }
        ensures lawful { IsShard ⟦<Self as Keyed>⟧.by self.new }
    {
        let hash = self.hash_one(key);
        self.alter_hashed(hash, key, f);
    }

    /// As `alter`, for a caller who has the key's hash.
    #[inline]
    pub fn alter_hashed<Q: Query<K>, F: FnOnce(&K, V) -> V>(&mut self, hash: u64, key: Q, f: F)
        requires hash { IsHashOf ⟦<Self as Keyed>⟧.by self.old.hasher (Q.names key) hash }
        requires callable { IfSome (at_named (Q.names key) (pairs self.old)) (MayGive F.FnOnce f) }
        ensures alters { TakesBy K.eq self.old self.new Alter (Q.names key) Done (Given F.FnOnce f) }
        ensures len { shard_len self.new ≡ shard_len self.old }
        ensures lawful { IsShard ⟦<Self as Keyed>⟧.by self.new }
    {
        self.hold.change(
            |shard: &mut Shard<K, V, S>|
                requires hash { IsHashOf (by K.Hash S.BuildHasher S.Hasher.Hasher) shard.old.hasher (Q.names key) hash }
                requires callable { IfSome (at_named (Q.names key) (pairs shard.old)) (MayGive F.FnOnce f) }
                ensures alters { TakesBy K.eq shard.old shard.new Alter (Q.names key) Done (Given F.FnOnce f) }
                ensures len { shard_len shard.new ≡ shard_len shard.old }
                ensures lawful { IsShard (by K.Hash S.BuildHasher S.Hasher.Hasher) shard.new }
            { shard.alter_hashed(hash, key, f) },
        );
    }

    /// Makes room for so many pairs more, where there is less. It is refused (11) only where there is no memory for it. The pairs stay;
    /// their slots change, unless there was room.
    pub fn try_reserve(&mut self, additional: usize) -> Result<(), TryReserveError>
        ensures reserves { Reserves K.eq additional self.old self.new result }
        ensures lawful { IsShard ⟦<Self as Keyed>⟧.by self.new }
    {
        self.hold.change(|shard| shard.try_reserve(additional))
    }
}
