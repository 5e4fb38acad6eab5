//! Lists of keys that several workers put into a set, and parallel work on its keys.
ghost use Rattle.std.specs.Prelude.{◌≡◌, ◌≢◌, ◌↔◌, ◌∷◌, [], IfOk, IfErr, IsErrOf, OnOk, OnErr, length};
ghost use Rattle.std.specs.Fn.{FnReturnsAt};
ghost use Rattle.std.specs.List.{AllZip};
ghost use Rattle.std.specs.Thread.{IsSync};
ghost use denote.Param.Send.{IsSend};
ghost use Rattle.dashmap.specs.Words.{EndedShards, HashAlike, IsAlone, IsDefault, IsOneOf, IsParallelism, MadeOf, MadeShards, MayMapKey, Memory, ParExtends, ParExtendsBehind, Parallelism, PutsEachBehind, SawShards, by, contents, keys_of, members, shape};

use crate::set::{AloneSet, DashSet};
use core::mem::replace_with;
use dash_map::alone::Alone;
use dash_map::map::default_shard_amount;
use dash_map::parallel::map;
use dash_shard::error::ConstructError;
use dash_shard::hash::FixedState;
use dash_shard::keyed::Keyed;
use std::alloc::{AllocError, Global};
use std::hash::{BuildHasher, Hash};
use std::marker::Model;
use std::rt::Clock;
use std::sync::Wait;
use std::thread::Threads;

// The keys, each with unit.
fn with_units<K: Drop>(list: Vec<K>) -> Result<Vec<(K, ())>, AllocError>
    ensures members { IfOk result (λ pairs. pairs.items ≡ members list.items) }
    ensures some { OnErr result (list.items ≢ []) }
{
    let alloc = *list.allocator();
    if list.is_empty() {
        return Ok(Vec::new(alloc));
    }
    list.into_iter().map(|key| (key, ())).collect(alloc)
}

impl<K: Eq + Hash + Send + Drop, S: BuildHasher + Send> AloneSet<K, S> {
    /// Puts the keys of a list by so many workers: each shard's in the list's order, those of different shards at once. So of equal keys the
    /// first stays. 0 workers count as 1, more than there are shards as so many.
    ///
    /// It takes memory for lists of the list's length before the first key is put, and each key takes memory as `insert` does. Where there
    /// is none (4), a shard whose key is refused lets go of that key and of its later ones, and the other shards go on. It waits for its own
    /// workers alone.
    pub fn par_extend<R: Threads + Sync>(
        &mut self,
        rt: &R,
        list: Vec<K>,
        workers: usize,
    ) -> Result<(), AllocError>
    where
        S::Hasher: Send,
        ensures { ParExtends ⟦<Self as Keyed>⟧.by (members list.items) self.old self.new result }
    {
        // Only a look at the map tells the prover its invariant, which a list that finds no memory needs too.
        let _ = self.inner.shard_count();
        let pairs = with_units(list)?;
        self.inner.par_extend(rt, pairs, workers)
    }
}

impl<K: Eq + Hash + Send + Drop, S: BuildHasher + Clone + Default + Send + Drop> AloneSet<K, S> {
    /// A set of one owner into which so many workers put the keys of a list as `par_extend` does, of the default number of shards for so many
    /// processors.
    ///
    /// Room is made first, by the list's length. It is refused where the parallelism is 0 or above 2^61 (6), then where there is no memory for
    /// a set, for the workers' lists or for a key (8); then nothing is made.
    pub fn from_par_iter<R: Threads + Sync>(
        rt: &R,
        alloc: Global,
        list: Vec<K>,
        parallelism: usize,
        workers: usize,
    ) -> Result<Self, ConstructError>
    where
        S::Hasher: Send,
        requires { (s t : S) → S.is_clone s t → HashAlike ⟦<Self as Keyed>⟧.by s t }
        ensures made { IfOk result (MadeOf ⟦<Self as Keyed>⟧.by (members list.items)) }
        ensures hasher { IfOk result (λ s. S.is_default s.hasher) }
        ensures amount { IfOk result (λ s. IsDefault parallelism (length s.row)) }
        ensures lawful { IfOk result (IsAlone ⟦<Self as Keyed>⟧.by) }
        ensures bad_parallelism { IsErrOf result Parallelism ↔ (IsParallelism parallelism → ⊥) }
        ensures kinds { IfErr result (IsOneOf (Parallelism ∷ Memory ∷ [])) }
    {
        default_shard_amount(parallelism)?;
        let Ok(pairs) = with_units(list) else {
            return Err(ConstructError::Memory);
        };
        let inner = Alone::from_par_iter(rt, alloc, pairs, parallelism, workers)?;
        Ok(AloneSet { inner })
    }
}

impl<K: Eq + Hash + Send + Drop, S: BuildHasher + Send> DashSet<K, S> {
    /// As `AloneSet::par_extend`, on this set, which nobody else has. It waits for its own workers alone, even where a hold was leaked.
    ///
    /// The shards leave their locks for it and go back, which takes no memory.
    pub fn par_extend<R: Threads + Sync>(
        &mut self,
        rt: &R,
        list: Vec<K>,
        workers: usize,
    ) -> Result<(), AllocError>
    where
        S::Hasher: Send,
        ensures extends { ParExtendsBehind ⟦<Self as Keyed>⟧.by self.old self.new (members list.items) result }
        ensures same { shape self.new ≡ shape self.old }
    {
        replace_with(
            self,
            list,
            |set: Self, list: Vec<K>| -> (Self, Result<(), AllocError>)
                requires { IsSync R.row × IsSend K.row × IsSend S.row × IsSend S.Hasher.row }
                ensures extends { ParExtendsBehind (by K.Hash S.BuildHasher S.Hasher.Hasher) set result.0 (members list.items) result.1 }
                ensures same { shape result.0 ≡ shape set }
            { set.par_extend_alone(rt, list, workers) },
        )
    }

    // Puts the keys, and the set after it.
    fn par_extend_alone<R: Threads + Sync>(
        self,
        rt: &R,
        list: Vec<K>,
        workers: usize,
    ) -> (Self, Result<(), AllocError>)
    where
        S::Hasher: Send,
        ensures extends { ParExtendsBehind ⟦<Self as Keyed>⟧.by self result.0 (members list.items) result.1 }
        ensures same { shape result.0 ≡ shape self }
    {
        let mut alone = self.alone();
        let extended = alone.par_extend(rt, list, workers);
        (alone.end(), extended)
    }
}

impl<K: Eq + Hash + Send + Drop, S: BuildHasher + Clone + Default + Send + Drop> DashSet<K, S> {
    /// As `AloneSet::from_par_iter`, behind locks.
    pub fn from_par_iter<R: Threads + Sync>(
        rt: &R,
        alloc: Global,
        list: Vec<K>,
        parallelism: usize,
        workers: usize,
    ) -> Result<Self, ConstructError>
    where
        S::Hasher: Send,
        requires { (s t : S) → S.is_clone s t → HashAlike ⟦<Self as Keyed>⟧.by s t }
        ensures made { IfOk result (λ s. MadeShards ⟦<Self as Keyed>⟧.by s (MadeOf ⟦<Self as Keyed>⟧.by (members list.items))) }
        ensures hasher { IfOk result (λ s. S.is_default s.hasher) }
        ensures amount { IfOk result (λ s. IsDefault parallelism s.amount) }
        ensures bad_parallelism { IsErrOf result Parallelism ↔ (IsParallelism parallelism → ⊥) }
        ensures kinds { IfErr result (IsOneOf (Parallelism ∷ Memory ∷ [])) }
    {
        Ok(AloneSet::from_par_iter(rt, alloc, list, parallelism, workers)?.end())
    }
}

impl<K: Eq + Hash + Send + Sync + Drop, S: BuildHasher + Send + Sync> DashSet<K, S> {
    /// Puts the keys of a list by so many workers, while others may change the set: each shard's in one hold and in the list's order. A
    /// shard to which no key goes is not held. 0 workers count as 1.
    ///
    /// A worker waits until nobody has a shard, for one shard after the other. It takes memory as `par_extend` does, its own before the first
    /// hold. Where there is none (4), some keys may have been put: of each shard a front of its own.
    pub fn par_extend_shared<R: Threads + Wait + Clock + Sync>(
        &self,
        rt: &R,
        list: Vec<K>,
        workers: usize,
    ) -> Result<(), AllocError>
    where
        S::Hasher: Send,
        ensures { OnOk result (PutsEachBehind ⟦<Self as Keyed>⟧.by self.now (members list.items)) }
    {
        let pairs = with_units(list)?;
        self.inner.par_extend_shared(rt, pairs, workers)
    }
}

/// The keys of a set that ended, by rising shard and in each by rising slot. A contract sees it as their list.
#[derive(Drop)]
pub struct OwningIter<K: Eq + Hash, S: BuildHasher = FixedState> {
    inner: map::OwningIter<K, (), S>,
}

impl<K: Eq + Hash, S: BuildHasher> Model for OwningIter<K, S> {
    ghost use Rattle.std.specs.Prelude.{List};
    ghost use Rattle.dashmap.specs.Set.{keys_of};

    ghost Value = { List K };

    ghost view = { λ it. keys_of it.inner };
}

impl<K: Eq + Hash + Send + Drop, S: BuildHasher + Send + Drop> OwningIter<K, S>
where
    S::Hasher: Send,
{
    /// The keys in a list. Threads take the shards, and wait for nobody.
    ///
    /// It takes memory as the map's `collect` does. Where there is none it is refused (4), and all keys are dropped.
    pub fn collect<R: Threads + Sync>(self, rt: &R) -> Result<Vec<K>, AllocError>
        ensures { IfOk result (λ list. list.items ≡ self) }
    {
        self.inner.collect_keys(rt)
    }
}

/// The keys of a set that threads share, by rising shard and in each by rising slot. A contract sees the set.
#[derive(Drop)]
pub struct Iter<'a, K: Eq + Hash, S: BuildHasher = FixedState> {
    inner: map::Iter<'a, K, (), S>,
}

impl<'a, K: Eq + Hash, S: BuildHasher> Model for Iter<'a, K, S> {
    ghost use Rattle.dash_map.specs.Map.{MapState};

    ghost Value = { MapState K (Unit {0}) S };

    ghost view = { λ it. it.inner };
}

impl<K: Eq + Hash, S: BuildHasher> Keyed for Iter<'_, K, S> {
    type Key = K;

    type State = S;

    ghost by = { by K.Hash S.BuildHasher S.Hasher.Hasher };
}

impl<K: Eq + Hash + Send + Sync, S: BuildHasher + Send + Sync> Iter<'_, K, S>
where
    S::Hasher: Send + Sync,
{
    /// What `f` returns for each key, in the order of the keys. It waits, takes memory and is refused (4) as the map's `map_collect`.
    ///
    /// A call of this set from `f` that writes may deadlock: this thread or another holds the shard.
    pub fn map_collect<R: Threads + Wait + Clock + Sync, T: Send + Drop, F: Fn(&K) -> T + Sync>(
        self,
        rt: &R,
        f: F,
    ) -> Result<Vec<T>, AllocError>
        requires { (k : K) → MayMapKey F.Fn f k }
        ensures { IfOk result (λ list. SawShards ⟦<Self as Keyed>⟧.by self.entry (λ a. AllZip (FnReturnsAt F.Fn f) (keys_of (contents a)) list.items)) }
    {
        self.inner.map_collect(
            rt,
            |key: &K, _: &()| -> T
                requires { F.pre f key }
                ensures { F.post f key.entry result }
            { f(key) },
        )
    }
}

impl<K: Eq + Hash, S: BuildHasher> DashSet<K, S> {
    /// The keys, moved out. It takes no memory, and waits for nobody, even where a hold was leaked.
    pub fn into_par_iter(self) -> OwningIter<K, S>
    where
        S: Drop,
        ensures { EndedShards ⟦<Self as Keyed>⟧.by self (λ a. result ≡ keys_of (contents a)) }
    {
        OwningIter {
            inner: self.inner.into_par_iter(),
        }
    }

    /// The keys, to be read by several threads. This call waits for nobody and takes no memory.
    #[inline]
    pub fn par_iter(&self) -> Iter<'_, K, S>
        ensures { result ≡ self.now }
    {
        Iter {
            inner: self.inner.par_iter(),
        }
    }
}
