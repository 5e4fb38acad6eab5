//! A set that threads share: a map to unit.
ghost use Rattle.std.specs.Prelude.{ℕ, ◌≡◌, ◌<◌, ◌∷◌, [], ◌==◌, ◌↔◌, length, map, true, IsTrue, IfSome, IfOk, IfErr, IsErrOf, is_some};
ghost use Rattle.std.specs.Fn.{FnOnceTakesAt};
ghost use Rattle.dashmap.specs.Words.{AnsweredKey, CallableOnPairs, CalledAtKey, CapacityOverflow, ClearsAlone, CopiesAlone, EndedShards, FoldsEach, HashAlike, Inserts, IsDefault, IsGot, IsMap, IsNew, IsOneOf, IsParallelism, LeavesShard, LeavesShards, MadeShards, MayFold, MayVisit, Memory, OverflowsDefault, Parallelism, RemoveIf, Removes, RemovesBy, RetainsAlone, SawAt, SawShards, ShrinksAlone, TakesKey, VisitsEach, at_start, by, contents, hash_of, inserted, keys_of, len_in, made_of, member, of_key, room_in, route_of_hash, shape, share};

use crate::iter_set::{Iter, OwningIter};
use crate::setref::one::Ref;
pub use alone::AloneSet;
pub use caller::SetCaller;
use crossbeam_utils::CachePadded;
use dash_map::map::DashMap;
use dash_map::waiting::Waiting;
use dash_shard::error::ConstructError;
use dash_shard::hash::FixedState;
use dash_shard::keyed::Keyed;
use dash_shard::lock::RwLock;
use dash_shard::query::Query;
use dash_shard::shard::Shard;
use dash_steps::kept::KeptKey;
use std::alloc::{AllocError, Global};
use std::hash::{BuildHasher, Hash};
use std::marker::Model;
use std::rt::Clock;
use std::sync::Wait;
use std::thread::Threads;

mod alone;
mod caller;
mod extend;

/// A set that threads share, as the original's `DashSet`: a map to unit, and its calls are the map's.
///
/// A contract sees its hasher and the number of its shards.
#[derive(Drop)]
pub struct DashSet<K: Eq + Hash, S: BuildHasher = FixedState> {
    pub(crate) inner: DashMap<K, (), S>,
}

impl<K: Eq + Hash, S: BuildHasher> Model for DashSet<K, S> {
    ghost use Rattle.dash_map.specs.Map.{MapState};

    ghost Value = { MapState K (Unit {0}) S };

    ghost view = { λ s. s.inner };
}

impl<K: Eq + Hash, S: BuildHasher> Keyed for DashSet<K, S> {
    type Key = K;

    type State = S;

    ghost by = { by K.Hash S.BuildHasher S.Hasher.Hasher };
}

impl<K: Eq + Hash + Drop> DashSet<K, FixedState> {
    /// A set with no keys and the default hasher, of the default number of shards for so many processors.
    ///
    /// It is refused where the parallelism is 0 or above 2^61 (6), then where there is no memory (8). `of` asks the system for the number,
    /// as the original does.
    pub fn new(alloc: Global, parallelism: usize) -> Result<Self, ConstructError>
        ensures amount { IfOk result (λ s. IsDefault parallelism s.amount) }
        ensures new { IfOk result (IsNew 0) }
        ensures bad_parallelism { IsErrOf result Parallelism ↔ (IsParallelism parallelism → ⊥) }
        ensures kinds { IfErr result (IsOneOf (Parallelism ∷ Memory ∷ [])) }
    {
        Self::with_hasher(alloc, FixedState, parallelism)
    }

    /// As `new`, by the allocator of `rt`, for as many processors as the system says, as the map's `of`.
    pub fn of<R: Threads + AllocGlobal>(rt: &R) -> Result<Self, ConstructError>
        ensures amount { IfOk result (λ s. (processors : ℕ) × IsDefault processors s.amount) }
        ensures new { IfOk result (IsNew 0) }
        ensures kinds { IfErr result (IsOneOf (Parallelism ∷ Memory ∷ [])) }
    {
        let inner = DashMap::of(rt)?;
        Ok(DashSet { inner })
    }

    /// As `new`, with room for so many keys if they spread evenly. Where the capacity can't be rounded up it is refused too (7).
    pub fn with_capacity(
        alloc: Global,
        capacity: usize,
        parallelism: usize,
    ) -> Result<Self, ConstructError>
        ensures amount { IfOk result (λ s. IsDefault parallelism s.amount) }
        ensures new { IfOk result (λ s. IsNew (share capacity s.amount) s) }
        ensures bad_parallelism { IsErrOf result Parallelism ↔ (IsParallelism parallelism → ⊥) }
        ensures overflow { IsErrOf result CapacityOverflow ↔ OverflowsDefault parallelism capacity }
        ensures kinds { IfErr result (IsOneOf (Parallelism ∷ CapacityOverflow ∷ Memory ∷ [])) }
    {
        Self::with_capacity_and_hasher(alloc, capacity, FixedState, parallelism)
    }

    /// As `new`.
    pub fn default(alloc: Global, parallelism: usize) -> Result<Self, ConstructError>
        ensures amount { IfOk result (λ s. IsDefault parallelism s.amount) }
        ensures new { IfOk result (IsNew 0) }
        ensures bad_parallelism { IsErrOf result Parallelism ↔ (IsParallelism parallelism → ⊥) }
        ensures kinds { IfErr result (IsOneOf (Parallelism ∷ Memory ∷ [])) }
    {
        Self::new(alloc, parallelism)
    }
}

impl<K: Eq + Hash + Drop, S: BuildHasher + Clone + Drop> DashSet<K, S> {
    /// A set with no keys, of the default number of shards for so many processors.
    ///
    /// It is refused where the parallelism is 0 or above 2^61 (6), then where there is no memory (8).
    pub fn with_hasher(alloc: Global, hasher: S, parallelism: usize) -> Result<Self, ConstructError>
        requires { (s t : S) → S.is_clone s t → HashAlike ⟦<Self as Keyed>⟧.by s t }
        ensures hasher { IfOk result (λ s. s.hasher ≡ hasher) }
        ensures amount { IfOk result (λ s. IsDefault parallelism s.amount) }
        ensures new { IfOk result (IsNew 0) }
        ensures bad_parallelism { IsErrOf result Parallelism ↔ (IsParallelism parallelism → ⊥) }
        ensures kinds { IfErr result (IsOneOf (Parallelism ∷ Memory ∷ [])) }
    {
        let inner = DashMap::with_hasher(alloc, hasher, parallelism)?;
        Ok(DashSet { inner })
    }

    /// As `with_hasher`, with room for so many keys if they spread evenly. Where the capacity can't be rounded up it is refused too (7).
    pub fn with_capacity_and_hasher(
        alloc: Global,
        capacity: usize,
        hasher: S,
        parallelism: usize,
    ) -> Result<Self, ConstructError>
        requires { (s t : S) → S.is_clone s t → HashAlike ⟦<Self as Keyed>⟧.by s t }
        ensures hasher { IfOk result (λ s. s.hasher ≡ hasher) }
        ensures amount { IfOk result (λ s. IsDefault parallelism s.amount) }
        ensures new { IfOk result (λ s. IsNew (share capacity s.amount) s) }
        ensures bad_parallelism { IsErrOf result Parallelism ↔ (IsParallelism parallelism → ⊥) }
        ensures overflow { IsErrOf result CapacityOverflow ↔ OverflowsDefault parallelism capacity }
        ensures kinds { IfErr result (IsOneOf (Parallelism ∷ CapacityOverflow ∷ Memory ∷ [])) }
    {
        let inner = DashMap::with_capacity_and_hasher(alloc, capacity, hasher, parallelism)?;
        Ok(DashSet { inner })
    }
}

impl<K: Eq + Hash, S: BuildHasher> DashSet<K, S> {
    /// The hash of an item by the set's hasher.
    #[inline]
    pub fn hash_usize<T: Hash>(&self, item: &T) -> usize
        ensures { result ≡ hash_of S.BuildHasher S.Hasher.Hasher self.now.hasher (T.hash_input item.now) }
    {
        self.inner.hash_usize(item)
    }

    /// The shards behind their locks, in the order of their numbers.
    #[inline]
    pub fn shards(&self) -> &[CachePadded<RwLock<Shard<K, (), S>>>]
        ensures count { length result.now ≡ self.now.amount }
        ensures locks { IsMap (shape self.now) result.now }
        ensures made { map made_of result.now ≡ self.now.made }
    {
        self.inner.shards()
    }

    /// The number of the shard that a key goes to.
    #[inline]
    pub fn determine_map<Q: Query<K>>(&self, key: Q) -> usize
        ensures route { result ≡ route_of_hash self.now.amount (hash_of S.BuildHasher S.Hasher.Hasher self.now.hasher (Q.hash_input key)) }
        ensures below { result < self.now.amount }
    {
        self.inner.determine_map(key)
    }

    /// The number of the shard that a hash goes to. Its top seven bits don't matter.
    #[inline]
    pub fn determine_shard(&self, hash: usize) -> usize
        ensures route { result ≡ route_of_hash self.now.amount hash }
        ensures below { result < self.now.amount }
    {
        self.inner.determine_shard(hash)
    }

    /// Puts the key, unless an equal one is there, which then stays. Says whether it is new. Waits for the key's shard.
    ///
    /// Takes memory for a new key where its shard is full, and only then is refused (16): the key comes back, and the set is as it was.
    #[inline]
    pub fn insert<R: Wait + Clock>(&self, rt: &R, key: K) -> Result<bool, K>
    where
        K: Drop,
        ensures { LeavesShard ⟦<Self as Keyed>⟧.by self.now key (λ s t. Inserts K.eq s t key tt (inserted result)) }
    {
        match self.inner.insert(rt, key, ()) {
            Ok(old) => Ok(old.is_none()),
            Err(refused) => Err(refused.key),
        }
    }

    /// Takes the key that equals `key` out, and returns it. Waits for the key's shard. It takes no memory.
    #[inline]
    pub fn remove<R: Wait + Clock, Q: Query<K>>(&self, rt: &R, key: Q) -> Option<K>
        ensures equal { IfSome result (λ found. IsTrue (Q.names key found)) }
        ensures leaves { Removes ⟦<Self as Keyed>⟧.by self.now (Q.names key) (member result) }
    {
        let (key, _) = self.inner.remove(rt, key)?;
        Some(key)
    }

    /// Takes the key that equals `key` out if `f` returns true on it, and returns it. Waits for the key's shard. It takes no memory.
    ///
    /// The shard is held while `f` runs.
    #[inline]
    pub fn remove_if<R: Wait + Clock, Q: Query<K>, F: FnOnce(&K) -> bool>(
        &self,
        rt: &R,
        key: Q,
        f: F,
    ) -> Option<K>
        requires { (k : K) → IsTrue (Q.names key k) → FnOnceTakesAt F.FnOnce f k }
        ensures { RemovesBy ⟦<Self as Keyed>⟧.by self.now RemoveIf (Q.names key) (member result) (AnsweredKey F.FnOnce f) }
    {
        let (key, _) = self.inner.remove_if(
            rt,
            key,
            |found: &K, _: &()| -> bool
                requires { F.pre f found }
                ensures { F.post f found.entry result }
            { f(found) },
        )?;
        Some(key)
    }

    /// A walk over the keys, by rising shard. This call waits for nobody and takes no memory; the walk's steps do both.
    #[inline]
    pub fn iter<'a, R>(&'a self, rt: &'a R) -> Iter<'a, K, S, R>
        ensures { result ≡ at_start self.now }
    {
        Iter::new(self.inner.iter(rt))
    }

    /// The key that equals `key`, with a hold of its shard for reading. Waits until no writer has the shard.
    ///
    /// Till the reference is dropped, whoever wants to write the shard waits; in the same thread that is a deadlock. It takes no memory.
    #[inline]
    pub fn get<R: Wait + Clock, Q: Query<K>>(&self, rt: &R, key: Q) -> Option<Ref<'_, K, S>>
        ensures { IsGot ⟦<Self as Keyed>⟧.by self.now (Q.names key) result }
    {
        let found = self.inner.get(rt, key)?;
        Some(Ref::new(found))
    }

    /// Moves each shard's keys to as few slots as hold them, which gives the rest of the memory back. It waits until nobody has a
    /// shard, for one shard after the other. A shard takes memory for its new slots, and keeps the old ones where there is none.
    pub fn shrink_to_fit<R: Wait + Clock>(&self, rt: &R)
    where
        K: Drop,
        ensures { LeavesShards {V = Unit {0}} ⟦<Self as Keyed>⟧.by self.now (ShrinksAlone K.eq) }
    {
        self.inner.shrink_to_fit(rt);
    }

    /// Keeps the keys on which `f` returns true, and lets the others go. It waits until nobody has a shard, for one shard after the
    /// other, in rising order. It takes no memory, and can't be refused.
    ///
    /// `f` is called once at each key, while the key's shard is held: a call of this set from `f` deadlocks where it wants that shard.
    pub fn retain<R: Wait + Clock, F: FnMut(&K) -> bool>(&self, rt: &R, mut f: F)
    where
        K: Drop,
        requires { CallableOnPairs (CalledAtKey F.FnMut) (TakesKey F.FnMut) f }
        ensures { LeavesShards ⟦<Self as Keyed>⟧.by self.now (RetainsAlone K.eq (CalledAtKey F.FnMut) f) }
    {
        self.inner.retain(
            rt,
            |key: &K, _: &mut ()| -> bool
                requires { F.pre f key }
                ensures { F.step f.entry key.entry result f.exit }
            { f(key) },
        );
    }

    /// What `f` makes of `first` and the keys, called at each in turn with what it made before, by rising shard and in each by rising slot.
    /// It waits until no writer has a shard, for one shard after the other, and holds each for reading while `f` runs over its keys. It
    /// takes no memory, and can't be refused. The original has no such call.
    #[inline]
    pub fn fold<R: Wait + Clock, T, F: FnMut(T, &K) -> T>(&self, rt: &R, first: T, f: F) -> T
        requires { MayFold of_key F.FnMut f first }
        ensures { SawShards ⟦<Self as Keyed>⟧.by self.now (λ a. FoldsEach of_key F.FnMut f first (keys_of (contents a)) result) }
    {
        self.inner.fold_keys(rt, first, f)
    }

    /// Calls `f` at each key. It waits and holds as `fold` does.
    #[inline]
    pub fn for_each<R: Wait + Clock, F: FnMut(&K)>(&self, rt: &R, f: F)
        requires { MayVisit of_key F.FnMut f }
        ensures { SawShards ⟦<Self as Keyed>⟧.by self.now (λ a. VisitsEach of_key F.FnMut f (keys_of (contents a))) }
    {
        self.inner.for_each_key(rt, f);
    }

    /// How many keys there are, saturating at 2^64 - 1. Waits until no writer has a shard, for one shard after the other: others may
    /// change those that it asked before. It takes no memory.
    pub fn len<R: Wait + Clock>(&self, rt: &R) -> usize
        ensures { SawShards {V = Unit {0}} ⟦<Self as Keyed>⟧.by self.now (λ a. result ≡ len_in a) }
    {
        self.inner.len(rt)
    }

    /// Whether there are no keys. It waits as `len` does.
    pub fn is_empty<R: Wait + Clock>(&self, rt: &R) -> bool
        ensures { SawShards {V = Unit {0}} ⟦<Self as Keyed>⟧.by self.now (λ a. result ≡ (length (contents a) == 0)) }
    {
        self.inner.is_empty(rt)
    }

    /// Lets all keys go; the room stays. It waits until nobody has a shard, for one shard after the other, in rising order. It takes no
    /// memory, and can't be refused.
    pub fn clear<R: Wait + Clock>(&self, rt: &R)
    where
        K: Drop,
        ensures { LeavesShards {V = Unit {0}} ⟦<Self as Keyed>⟧.by self.now ClearsAlone }
    {
        self.inner.clear(rt);
    }

    /// How many keys there may be before some shard takes memory, if they spread as the shards' room does, saturating at 2^64 - 1. It
    /// waits as `len` does.
    pub fn capacity<R: Wait + Clock>(&self, rt: &R) -> usize
        ensures { SawShards {V = Unit {0}} ⟦<Self as Keyed>⟧.by self.now (λ a. result ≡ room_in a) }
    {
        self.inner.capacity(rt)
    }

    /// Whether there is a key that equals `key`. Waits until no writer has the key's shard. It takes no memory.
    #[inline]
    pub fn contains<R: Wait + Clock, Q: Query<K>>(&self, rt: &R, key: Q) -> bool
        ensures { SawAt {V = Unit {0}} ⟦<Self as Keyed>⟧.by self.now (Q.names key) (λ p. result ≡ is_some p) }
    {
        self.inner.contains_key(rt, key)
    }

    /// The inner map with the right to wait: it prints the set as `{7: ()}`, as the original does, and its walks give the keys with unit.
    #[inline]
    pub fn waiting<'a, R: Wait + Clock>(&'a self, rt: &'a R) -> Waiting<'a, K, (), S, R>
        ensures { result.map.now ≡ self.now }
    {
        self.inner.waiting(rt)
    }
}

impl<K: KeptKey + Drop, S: BuildHasher + Clone + Drop> DashSet<K, S> {
    /// A set with copies of the keys, each alike its source, and a clone of the hasher.
    ///
    /// It waits, takes memory and is refused (4) as the map's `clone`.
    pub fn clone<R: Wait + Clock>(&self, rt: &R) -> Result<Self, AllocError>
        requires { (s t : S) → S.is_clone s t → HashAlike ⟦<Self as Keyed>⟧.by s t }
        ensures { IfOk result (λ copy. SawShards {V = Unit {0}} ⟦<Self as Keyed>⟧.by self.now
            (λ a. MadeShards ⟦<Self as Keyed>⟧.by copy (CopiesAlone K.eq K.alike (λ _ _. true) S.is_clone a))) }
    {
        let inner = self.inner.clone(rt)?;
        Ok(DashSet { inner })
    }
}

impl<K: Eq + Hash + Drop, S: BuildHasher + Drop> IntoIterator for DashSet<K, S> {
    type Item = K;

    type IntoIter = OwningIter<K, S>;

    ghost into_iter_gives = { λ s keys. EndedShards (by K.Hash S.BuildHasher S.Hasher.Hasher) s (λ a. keys ≡ keys_of (contents a)) };

    /// The keys, moved out. It takes no memory, and waits for nobody.
    fn into_iter(self) -> OwningIter<K, S> {
        OwningIter::new(self.inner.into_iter())
    }
}
