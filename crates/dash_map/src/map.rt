//! The map that threads share.
ghost use Rattle.std.specs.Prelude.{ℕ, ◌≡◌, ◌<◌, ◌↔◌, ◌∷◌, [], length, map, IsErrOf, IfOk, IfErr, OnOk};
ghost use Rattle.dash_map.specs.Words.{CapacityOverflow, HashAlike, IsAmount, IsDefault, IsMap, IsNew, IsOneOf, IsParallelism, Memory, Overflows, OverflowsDefault, Parallelism, ShardAmount, by, hash_of, made_of, route_of_hash, shape, share};

use crate::alone::Alone;
use crossbeam_utils::CachePadded;
use dash_shard::error::ConstructError;
use dash_shard::hash::{FixedState, determine_shard};
use dash_shard::keyed::Keyed;
use dash_shard::lock::RwLock;
use dash_shard::query::Query;
use dash_shard::row::Row;
use dash_shard::shard::Shard;
use std::alloc::Global;
use std::hash::{BuildHasher, Hash};
use std::marker::Model;
use std::thread::{self, Threads};

/// A shard behind its lock, on cache lines of its own.
pub(crate) type Locked<K, V, S> = CachePadded<RwLock<Shard<K, V, S>>>;

/// A hash map that threads share: its shards behind locks.
///
/// A contract sees its hasher and the number of its shards. What is behind a lock is known to whom holds it.
#[derive(Drop)]
pub struct DashMap<K: Eq + Hash, V, S: BuildHasher = FixedState> {
    pub(crate) hasher: S,
    pub(crate) row: Row<Locked<K, V, S>, Shard<K, V, S>>,
}

impl<K: Eq + Hash, V, S: BuildHasher> Model for DashMap<K, V, S> {
    ghost use Rattle.std.specs.Prelude.{◌≡◌, ◌≤◌, [], length, map, vec_len, vec_capacity};
    ghost use Rattle.dash_map.specs.Map.{MapState};
    ghost use Rattle.dash_map.specs.Locks.{IsMap, made_of};

    ghost Value = { MapState K V S };

    ghost view = { λ m. record { hasher = m.hasher; amount = length m.row; made = map made_of m.row } };

    ghost invariant = { λ m. IsMap (record { hasher = m.hasher; amount = length m.row }) m.row };
}

impl<K: Eq + Hash, V, S: BuildHasher> Keyed for DashMap<K, V, S> {
    type Key = K;

    type State = S;

    ghost by = { by K.Hash S.BuildHasher S.Hasher.Hasher };
}

/// The number of shards for so many processors: four for each, rounded up to a power of two. For the crates here alone.
pub fn default_shard_amount(parallelism: usize) -> Result<usize, ConstructError>
    ensures default { IfOk result (IsDefault parallelism) }
    ensures lawful { IfOk result IsAmount }
    ensures good { OnOk result (IsParallelism parallelism) }
    ensures bad { IsErrOf result Parallelism ↔ (IsParallelism parallelism → ⊥) }
    ensures kinds { IfErr result (λ e. e ≡ Parallelism) }
{
    if parallelism == 0 || parallelism > 1 << 61 {
        return Err(ConstructError::Parallelism);
    }
    Ok((parallelism * 4).next_power_of_two())
}

impl<K: Eq + Hash + Drop, V: Drop> DashMap<K, V, FixedState> {
    /// A map with no pairs and the default hasher, of the default number of shards for so many processors.
    ///
    /// It is refused where the parallelism is 0 or above 2^61 (6), then where there is no memory (8). `of` asks the system for the number,
    /// as the original does.
    pub fn new(alloc: Global, parallelism: usize) -> Result<Self, ConstructError>
        ensures amount { IfOk result (λ m. IsDefault parallelism m.amount) }
        ensures new { IfOk result (IsNew 0) }
        ensures bad_parallelism { IsErrOf result Parallelism ↔ (IsParallelism parallelism → ⊥) }
        ensures kinds { IfErr result (IsOneOf (Parallelism ∷ Memory ∷ [])) }
    {
        Self::with_hasher(alloc, FixedState, parallelism)
    }

    /// As `new`, by the allocator of `rt`, for as many processors as the system says that this thread may run on, and for one where it
    /// doesn't say, as the original's `new`. To ask takes the right to start threads, and reads a file of the system's.
    pub fn of<R: Threads + AllocGlobal>(rt: &R) -> Result<Self, ConstructError>
        ensures amount { IfOk result (λ m. (processors : ℕ) × IsDefault processors m.amount) }
        ensures new { IfOk result (IsNew 0) }
        ensures kinds { IfErr result (IsOneOf (Parallelism ∷ Memory ∷ [])) }
    {
        let processors = thread::available_parallelism(rt).map_or(1, |found| found.get());
        Self::new(rt.alloc(), processors)
    }

    /// As `new`, with room for so many pairs if they spread evenly. Where the capacity can't be rounded up it is refused too (7).
    pub fn with_capacity(
        alloc: Global,
        capacity: usize,
        parallelism: usize,
    ) -> Result<Self, ConstructError>
        ensures amount { IfOk result (λ m. IsDefault parallelism m.amount) }
        ensures new { IfOk result (λ m. IsNew (share capacity m.amount) m) }
        ensures bad_parallelism { IsErrOf result Parallelism ↔ (IsParallelism parallelism → ⊥) }
        ensures overflow { IsErrOf result CapacityOverflow ↔ OverflowsDefault parallelism capacity }
        ensures kinds { IfErr result (IsOneOf (Parallelism ∷ CapacityOverflow ∷ Memory ∷ [])) }
    {
        Self::with_capacity_and_hasher(alloc, capacity, FixedState, parallelism)
    }

    /// A map with no pairs and the default hasher, of so many shards.
    ///
    /// It is refused where the amount is no power of two above 1 (5), then where there is no memory (8).
    pub fn with_shard_amount(alloc: Global, amount: usize) -> Result<Self, ConstructError>
        ensures amount { IfOk result (λ m. m.amount ≡ amount) }
        ensures new { IfOk result (IsNew 0) }
        ensures bad_amount { IsErrOf result ShardAmount ↔ (IsAmount amount → ⊥) }
        ensures kinds { IfErr result (IsOneOf (ShardAmount ∷ Memory ∷ [])) }
    {
        Self::with_hasher_and_shard_amount(alloc, FixedState, amount)
    }

    /// As `with_shard_amount`, with room for so many pairs if they spread evenly. Where the capacity can't be rounded up it is refused
    /// too (7).
    pub fn with_capacity_and_shard_amount(
        alloc: Global,
        capacity: usize,
        amount: usize,
    ) -> Result<Self, ConstructError>
        ensures amount { IfOk result (λ m. m.amount ≡ amount) }
        ensures new { IfOk result (IsNew (share capacity amount)) }
        ensures bad_amount { IsErrOf result ShardAmount ↔ (IsAmount amount → ⊥) }
        ensures overflow { IsErrOf result CapacityOverflow ↔ (IsAmount amount × Overflows capacity amount) }
        ensures kinds { IfErr result (IsOneOf (ShardAmount ∷ CapacityOverflow ∷ Memory ∷ [])) }
    {
        Self::with_capacity_and_hasher_and_shard_amount(alloc, capacity, FixedState, amount)
    }

    /// As `new`.
    pub fn default(alloc: Global, parallelism: usize) -> Result<Self, ConstructError>
        ensures amount { IfOk result (λ m. IsDefault parallelism m.amount) }
        ensures new { IfOk result (IsNew 0) }
        ensures bad_parallelism { IsErrOf result Parallelism ↔ (IsParallelism parallelism → ⊥) }
        ensures kinds { IfErr result (IsOneOf (Parallelism ∷ Memory ∷ [])) }
    {
        Self::new(alloc, parallelism)
    }
}

impl<K: Eq + Hash + Drop, V: Drop, S: BuildHasher + Clone + Drop> DashMap<K, V, S> {
    /// A map with no pairs, of the default number of shards for so many processors.
    ///
    /// It is refused where the parallelism is 0 or above 2^61 (6), then where the capacity can't be rounded up (7), then where there is
    /// no memory (8). The original reads the parallelism from the system.
    pub fn with_hasher(alloc: Global, hasher: S, parallelism: usize) -> Result<Self, ConstructError>
        requires { (s t : S) → S.is_clone s t → HashAlike ⟦<Self as Keyed>⟧.by s t }
        ensures hasher { IfOk result (λ m. m.hasher ≡ hasher) }
        ensures amount { IfOk result (λ m. IsDefault parallelism m.amount) }
        ensures new { IfOk result (IsNew 0) }
        ensures bad_parallelism { IsErrOf result Parallelism ↔ (IsParallelism parallelism → ⊥) }
        ensures kinds { IfErr result (IsOneOf (Parallelism ∷ Memory ∷ [])) }
    {
        Self::with_capacity_and_hasher(alloc, 0, hasher, parallelism)
    }

    /// As `with_hasher`, with room for so many pairs if they spread evenly.
    pub fn with_capacity_and_hasher(
        alloc: Global,
        capacity: usize,
        hasher: S,
        parallelism: usize,
    ) -> Result<Self, ConstructError>
        requires { (s t : S) → S.is_clone s t → HashAlike ⟦<Self as Keyed>⟧.by s t }
        ensures hasher { IfOk result (λ m. m.hasher ≡ hasher) }
        ensures amount { IfOk result (λ m. IsDefault parallelism m.amount) }
        ensures new { IfOk result (λ m. IsNew (share capacity m.amount) m) }
        ensures bad_parallelism { IsErrOf result Parallelism ↔ (IsParallelism parallelism → ⊥) }
        ensures overflow { IsErrOf result CapacityOverflow ↔ OverflowsDefault parallelism capacity }
        ensures kinds { IfErr result (IsOneOf (Parallelism ∷ CapacityOverflow ∷ Memory ∷ [])) }
    {
        let amount = default_shard_amount(parallelism)?;
        Self::with_capacity_and_hasher_and_shard_amount(alloc, capacity, hasher, amount)
    }

    /// A map with no pairs, of so many shards.
    ///
    /// It is refused where the amount is no power of two above 1 (5), then where there is no memory (8).
    pub fn with_hasher_and_shard_amount(
        alloc: Global,
        hasher: S,
        amount: usize,
    ) -> Result<Self, ConstructError>
        requires { (s t : S) → S.is_clone s t → HashAlike ⟦<Self as Keyed>⟧.by s t }
        ensures made { IfOk result (λ m. shape m ≡ record { hasher = hasher; amount = amount }) }
        ensures new { IfOk result (IsNew 0) }
        ensures bad_amount { IsErrOf result ShardAmount ↔ (IsAmount amount → ⊥) }
        ensures kinds { IfErr result (IsOneOf (ShardAmount ∷ Memory ∷ [])) }
    {
        Self::with_capacity_and_hasher_and_shard_amount(alloc, 0, hasher, amount)
    }

    /// As `with_hasher_and_shard_amount`, with room for so many pairs if they spread evenly.
    ///
    /// It is refused where the amount is no power of two above 1 (5), then where the capacity, rounded up to a multiple of the amount,
    /// has more than 64 bits (7), then where there is no memory (8).
    pub fn with_capacity_and_hasher_and_shard_amount(
        alloc: Global,
        capacity: usize,
        hasher: S,
        amount: usize,
    ) -> Result<Self, ConstructError>
        requires { (s t : S) → S.is_clone s t → HashAlike ⟦<Self as Keyed>⟧.by s t }
        ensures made { IfOk result (λ m. shape m ≡ record { hasher = hasher; amount = amount }) }
        ensures new { IfOk result (IsNew (share capacity amount)) }
        ensures bad_amount { IsErrOf result ShardAmount ↔ (IsAmount amount → ⊥) }
        ensures overflow { IsErrOf result CapacityOverflow ↔ (IsAmount amount × Overflows capacity amount) }
        ensures kinds { IfErr result (IsOneOf (ShardAmount ∷ CapacityOverflow ∷ Memory ∷ [])) }
    {
        Ok(Alone::new(alloc, capacity, hasher, amount)?.end())
    }
}

impl<K: Eq + Hash, V, S: BuildHasher> DashMap<K, V, S> {
    /// The hash of an item by the map's hasher.
    #[inline]
    pub fn hash_usize<T: Hash>(&self, item: &T) -> usize
        ensures { result ≡ hash_of S.BuildHasher S.Hasher.Hasher self.now.hasher (T.hash_input item.now) }
    {
        self.hasher.hash_one(item) as usize
    }

    /// The shards behind their locks, in the order of their numbers.
    #[inline]
    pub fn shards(&self) -> &[CachePadded<RwLock<Shard<K, V, S>>>]
        ensures count { length result.now ≡ self.now.amount }
        ensures locks { IsMap (shape self.now) result.now }
        ensures made { map made_of result.now ≡ self.now.made }
    {
        self.row.items()
    }

    /// As `shards`, of a map that ends. It takes no memory, and waits for nobody.
    pub fn into_shards(self) -> Vec<CachePadded<RwLock<Shard<K, V, S>>>>
    where
        S: Drop,
        ensures count { length result.items ≡ self.amount }
        ensures locks { IsMap (shape self) result.items }
        ensures made { map made_of result.items ≡ self.made }
    {
        let DashMap { row, .. } = self;
        row.into_items()
    }

    // The number of the shards.
    #[inline]
    pub(crate) fn shard_count(&self) -> usize
        ensures { result ≡ self.now.amount }
    {
        self.row.len()
    }

    /// The number of the shard that a key goes to.
    #[inline]
    pub fn determine_map<Q: Query<K>>(&self, key: Q) -> usize
        ensures route { result ≡ route_of_hash self.now.amount (hash_of S.BuildHasher S.Hasher.Hasher self.now.hasher (Q.hash_input key)) }
        ensures below { result < self.now.amount }
    {
        self.determine_shard(self.hash_usize(&key))
    }

    /// The number of the shard that a hash goes to. Its top seven bits don't matter.
    #[inline]
    pub fn determine_shard(&self, hash: usize) -> usize
        ensures route { result ≡ route_of_hash self.now.amount hash }
        ensures below { result < self.now.amount }
    {
        determine_shard(hash as u64, self.row.len())
    }

    /// The map's hasher.
    #[inline]
    pub fn hasher(&self) -> &S
        ensures hasher { result.now ≡ self.now.hasher }
        ensures lawful { IsAmount self.now.amount }
    {
        &self.hasher
    }
}
