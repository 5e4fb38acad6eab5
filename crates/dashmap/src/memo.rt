//! A cache of what a rule computes, over the map that threads share.
ghost use Rattle.std.specs.Prelude.{◌≡◌, ◌^◌, ◌-◌, ◌<◌, ◌↔◌, ◌∷◌, [], true, IfErr, IfNone, IfOk, IfSome, IsErrOf, IsSome, IsTrue, Option, is_some};
ghost use Rattle.std.specs.Int.{div_ceil};
ghost use Rattle.dashmap.specs.Memo.{Answers, Asks, Keeps, MakesPlace, OneGoes};
ghost use Rattle.dashmap.specs.Words.{ClearsAlone, HashAlike, IsAmount, IsDefault, IsNew, IsOneOf, IsParallelism, IsShard, LeavesShards, Memory, Parallelism, Removes, Routes, SameShard, SawShards, ShardAmount, by, hash_of, len_in, room_in, route_of_hash, shape, shard_len, slot};

use counts::Counts;
use dash_map::map::DashMap;
use dash_map::t::Map;
use dash_ref::held::ShardMut;
use dash_shard::error::ConstructError;
use dash_shard::hash::FixedState;
use dash_shard::keyed::Keyed;
use dash_shard::shard::Shard;
use dash_steps::kept::{Kept, KeptKey};
use std::alloc::{AllocError, Global};
use std::hash::{BuildHasher, Hash};
use std::marker::{Model, PhantomData};
use std::rt::Clock;
use std::sync::Wait;
use thiserror::Error;

mod counts;

/// No memory to compute a value, or to copy the one that is kept (25). What is kept stays so.
#[derive(Clone, Copy, Debug, PartialEq, Eq, Error)]
#[error("no memory (25)")]
pub struct MemoRefused {}

/// So that `rule.compute(key)?` converts.
impl From<AllocError> for MemoRefused {
    fn from(_: AllocError) -> Self {
        MemoRefused {}
    }
}

/// So that `memo.ask(rt, &key)?` converts.
impl From<MemoRefused> for AllocError {
    fn from(_: MemoRefused) -> Self {
        AllocError
    }
}

/// What computes the value of a key. Up to alike that depends on the rule's type and the key alone: a rule may carry counters.
pub trait Rule<K: KeptKey, V: Kept> {
    // The value of a key, up to alike.
    ghost value_of: { K → V };

    /// A value of the key, where there is memory for it.
    fn compute(&self, key: &K) -> Result<V, AllocError>
        ensures { IfOk result (λ value. IsTrue (V.alike (value_of key.now) value)) };

    // Equal keys have alike values.
    ghost equal_alike: { (j k : K) → K.eq j k ≡ true → V.alike (value_of j) (value_of k) ≡ true };
}

/// What a cache keeps: a key, and a value of that key by the rule. The type says so, and so it is known of what comes out of a lock.
#[derive(Drop)]
pub struct Answer<K: KeptKey, V: Kept, R: Rule<K, V>> {
    key: K,
    value: V,
    rule: PhantomData<R>,
}

impl<K: KeptKey, V: Kept, R: Rule<K, V>> Model for Answer<K, V, R> {
    ghost use Rattle.std.specs.Prelude.{IsTrue};

    ghost Value = { K × V };

    ghost view = { λ a. (a.key, a.value) };

    ghost invariant = { λ a. IsTrue (V.alike (R.value_of a.key) a.value) };
}

impl<K: KeptKey + Drop, V: Kept + Drop, R: Rule<K, V> + Drop> Answer<K, V, R> {
    // A pair for the map: a copy of the key, and of key and value what is kept.
    fn pair_of(key: &K, value: &V) -> Result<(K, Self), AllocError>
        requires { IsTrue (V.alike (R.value_of key.now) value.now) }
        ensures key { IfOk result (λ p. IsTrue (K.alike key.now p.0)) }
        ensures same { IfOk result (λ p. IsTrue (K.alike key.now p.1.0)) }
        ensures value { IfOk result (λ p. IsTrue (V.alike value.now p.1.1)) }
    {
        let copy = key.copy()?;
        let answer = Answer {
            key: key.copy()?,
            value: value.copy()?,
            rule: PhantomData,
        };
        Ok((copy, answer))
    }

    // A copy of the value, where it is of an equal key.
    fn recall(&self, key: &K) -> Result<Option<V>, AllocError>
        ensures some { IfOk result (λ found. is_some found ≡ K.eq self.now.0 key.now) }
        ensures value { IfOk result (λ found. IfSome found (λ v. IsTrue (V.alike (R.value_of key.now) v))) }
    {
        if self.key != *key {
            return Ok(None);
        }
        Ok(Some(self.value.copy()?))
    }
}

/// A cache that threads share: what a rule computed, each value under its key.
///
/// A cache made with a bound keeps at most so many values in each shard: in a full shard another value goes before a new one is kept. Which
/// one that is depends on the new key's hash, so it is a random one as far as the user is concerned.
///
/// A contract sees the hasher and the number of the shards, and the bound. That something is kept no contract says.
#[derive(Drop)]
pub struct Memo<K: KeptKey, V: Kept, R: Rule<K, V>, S: BuildHasher = FixedState> {
    rule: R,
    map: DashMap<K, Answer<K, V, R>, S>,
    bound: usize,
    counts: Counts,
}

impl<K: KeptKey, V: Kept, R: Rule<K, V>, S: BuildHasher> Model for Memo<K, V, R, S> {
    ghost use Rattle.dashmap.specs.Memo.{MemoState};

    ghost Value = { MemoState K V S };

    ghost view = { λ m. record { map = m.map; bound = m.bound } };
}

impl<K: KeptKey, V: Kept, R: Rule<K, V>, S: BuildHasher> Keyed for Memo<K, V, R, S> {
    type Key = K;

    type State = S;

    ghost by = { by K.Hash S.BuildHasher S.Hasher.Hasher };
}

impl<K: KeptKey + Drop, V: Kept + Drop, R: Rule<K, V> + Drop> Memo<K, V, R, FixedState> {
    /// A cache with the default hasher, of the default number of shards for so many processors. Its bound is as good as none: as `with_bound` of
    /// `usize::MAX`.
    ///
    /// It is refused where the parallelism is 0 or above 2^61 (6), then where there is no memory (8).
    pub fn new(alloc: Global, rule: R, parallelism: usize) -> Result<Self, ConstructError>
        ensures amount { IfOk result (λ m. IsDefault parallelism m.map.amount) }
        ensures new { IfOk result (λ m. IsNew 0 m.map) }
        ensures bound { IfOk result (λ m. m.bound ≡ div_ceil (2 ^ 64 - 1) m.map.amount) }
        ensures bad_parallelism { IsErrOf result Parallelism ↔ (IsParallelism parallelism → ⊥) }
        ensures kinds { IfErr result (IsOneOf (Parallelism ∷ Memory ∷ [])) }
    {
        Self::with_bound(alloc, rule, usize::MAX, parallelism)
    }

    /// As `new`, with a bound: about `most` values are kept, and in each shard at most its share of them, rounded up. With a `most` of 0
    /// none is.
    pub fn with_bound(
        alloc: Global,
        rule: R,
        most: usize,
        parallelism: usize,
    ) -> Result<Self, ConstructError>
        ensures amount { IfOk result (λ m. IsDefault parallelism m.map.amount) }
        ensures new { IfOk result (λ m. IsNew 0 m.map) }
        ensures bound { IfOk result (λ m. m.bound ≡ div_ceil most m.map.amount) }
        ensures bad_parallelism { IsErrOf result Parallelism ↔ (IsParallelism parallelism → ⊥) }
        ensures kinds { IfErr result (IsOneOf (Parallelism ∷ Memory ∷ [])) }
    {
        let map = DashMap::new(alloc, parallelism)?;
        let amount = map._shard_count();
        let counts = Counts::new(alloc, amount)?;
        Ok(Memo {
            rule,
            map,
            bound: most.div_ceil(amount),
            counts,
        })
    }
}

impl<K: KeptKey + Drop, V: Kept + Drop, R: Rule<K, V> + Drop, S: BuildHasher> Memo<K, V, R, S> {
    /// A cache of so many shards. Its bound is as good as none, as that of `new`.
    ///
    /// It is refused where the amount is no power of two above 1 (5), then where there is no memory (8).
    pub fn with_hasher_and_shard_amount(
        alloc: Global,
        rule: R,
        hasher: S,
        amount: usize,
    ) -> Result<Self, ConstructError>
    where
        S: Clone + Drop,
        requires { (s t : S) → S.is_clone s t → HashAlike ⟦<Self as Keyed>⟧.by s t }
        ensures made { IfOk result (λ m. shape m.map ≡ record { hasher = hasher; amount = amount }) }
        ensures new { IfOk result (λ m. IsNew 0 m.map) }
        ensures bound { IfOk result (λ m. m.bound ≡ div_ceil (2 ^ 64 - 1) amount) }
        ensures bad_amount { IsErrOf result ShardAmount ↔ (IsAmount amount → ⊥) }
        ensures kinds { IfErr result (IsOneOf (ShardAmount ∷ Memory ∷ [])) }
    {
        Self::with_bound_and_hasher_and_shard_amount(alloc, rule, usize::MAX, hasher, amount)
    }

    /// As `with_hasher_and_shard_amount`, with a bound as `with_bound` has it.
    pub fn with_bound_and_hasher_and_shard_amount(
        alloc: Global,
        rule: R,
        most: usize,
        hasher: S,
        amount: usize,
    ) -> Result<Self, ConstructError>
    where
        S: Clone + Drop,
        requires { (s t : S) → S.is_clone s t → HashAlike ⟦<Self as Keyed>⟧.by s t }
        ensures made { IfOk result (λ m. shape m.map ≡ record { hasher = hasher; amount = amount }) }
        ensures new { IfOk result (λ m. IsNew 0 m.map) }
        ensures bound { IfOk result (λ m. m.bound ≡ div_ceil most amount) }
        ensures bad_amount { IsErrOf result ShardAmount ↔ (IsAmount amount → ⊥) }
        ensures kinds { IfErr result (IsOneOf (ShardAmount ∷ Memory ∷ [])) }
    {
        let map = DashMap::with_hasher_and_shard_amount(alloc, hasher, amount)?;
        let counts = Counts::new(alloc, amount)?;
        Ok(Memo {
            rule,
            map,
            bound: most.div_ceil(amount),
            counts,
        })
    }

    // The key's hash, and the number of the shard that it goes to.
    #[inline]
    fn route_of(&self, key: &K) -> (u64, usize)
        ensures hash { result.0 ≡ hash_of S.BuildHasher S.Hasher.Hasher self.now.map.hasher (K.hash_input key.now) }
        ensures route { result.1 ≡ route_of_hash self.now.map.amount result.0 }
        ensures below { result.1 < self.now.map.amount }
    {
        let hash = self.map.hash_usize(key);
        (hash as u64, self.map.determine_shard(hash))
    }

    // Where as many values stand in a shard as the bound, lets one go.
    fn make_place(&self, shard: &mut ShardMut<'_, K, Answer<K, V, R>, S>, hash: u64)
        ensures makes { MakesPlace K.eq self.now.bound shard.old shard.new }
        ensures stays { SameShard shard.old shard.new }
        ensures lawful { IsShard ⟦<Self as Keyed>⟧.by shard.new }
    {
        if shard.len() >= self.bound {
            let_one_go(shard, hash);
        }
    }

    // Keeps an answer in the shard of its key, as far as the bound lets it: in a full shard another one goes first.
    fn keep(
        &self,
        shard: &mut ShardMut<'_, K, Answer<K, V, R>, S>,
        hash: u64,
        key: K,
        answer: Answer<K, V, R>,
    )
        requires hash { hash ≡ ⟦<Self as Keyed>⟧.by.hash shard.old.hasher key }
        requires route { Routes ⟦<Self as Keyed>⟧.by shard.old key }
        ensures keeps { Keeps K.eq self.now.bound shard.old shard.new key answer }
        ensures stays { SameShard shard.old shard.new }
        ensures lawful { IsShard ⟦<Self as Keyed>⟧.by shard.new }
    {
        self.make_place(shard, hash);
        if shard.len() < self.bound {
            drop(shard.insert_hashed(hash, key, answer));
        }
    }

    // A value of the key, by its shard: a copy of the one that is kept, or else one that is computed, and kept where there is memory.
    fn answer(
        &self,
        shard: &mut ShardMut<'_, K, Answer<K, V, R>, S>,
        hash: u64,
        key: &K,
    ) -> Result<V, MemoRefused>
        requires hash { hash ≡ ⟦<Self as Keyed>⟧.by.hash shard.old.hasher key.now }
        requires route { Routes ⟦<Self as Keyed>⟧.by shard.old key.now }
        ensures value { IfOk result (λ value. IsTrue (V.alike (R.value_of key.now) value)) }
        ensures answers { Answers K.eq self.now.bound key.now shard.old shard.new }
        ensures stays { SameShard shard.old shard.new }
        ensures lawful { IsShard ⟦<Self as Keyed>⟧.by shard.new }
    {
        if let Some(value) = recall(shard, hash, key)? {
            return Ok(value);
        }
        let value = self.rule.compute(key)?;
        if let Ok((copy, answer)) = Answer::pair_of(key, &value) {
            self.keep(shard, hash, copy, answer);
        }
        Ok(value)
    }

    /// A value of the key: a copy of the one that is kept, or else one that is computed while the key's shard is held for writing, and of
    /// which a copy is kept. Waits for the key's shard.
    ///
    /// To find a value it holds the shard for reading, beside others who do, and takes memory for the copy alone. It is refused (25) only
    /// where there is none to compute the value, or to copy the one that is kept. Where there is none to keep it, the value that was
    /// computed is answered all the same.
    ///
    /// While a value is computed, whoever wants the shard waits: a rule that asks the same cache from `compute` deadlocks where the two
    /// keys share a shard. So callers who come together for one new key have it computed once.
    pub fn ask<W: Wait + Clock>(&self, rt: &W, key: &K) -> Result<V, MemoRefused>
        ensures value { IfOk result (λ value. IsTrue (V.alike (R.value_of key.now) value)) }
        ensures shard { Asks ⟦<Self as Keyed>⟧.by self.now key.now }
    {
        let (hash, idx) = self.route_of(key);
        let found = recall(&self.map._yield_read_shard(rt, idx), hash, key)?;
        if let Some(value) = found {
            self.counts.hit(idx);
            return Ok(value);
        }
        self.counts.miss(idx);
        let mut shard = self.map.shards_mut(rt, idx);
        self.answer(&mut shard, hash, key)
    }

    /// As `ask`, for a caller who waits for nobody: where `RwLock::try_read` doesn't get the key's shard, or finds nothing and `try_write`
    /// doesn't get it, the value is computed and not kept. This says nothing of who has the shard. It holds the shard too while it
    /// computes, where it gets it.
    pub fn try_ask(&self, key: &K) -> Result<V, MemoRefused>
        ensures { IfOk result (λ value. IsTrue (V.alike (R.value_of key.now) value)) }
    {
        let (hash, idx) = self.route_of(key);
        if let Some(shard) = self.map._try_yield_read_shard(idx) {
            if let Some(value) = recall(&shard, hash, key)? {
                self.counts.hit(idx);
                return Ok(value);
            }
        }
        self.counts.miss(idx);
        match self.map._try_yield_write_shard(idx) {
            Some(mut shard) => self.answer(&mut shard, hash, key),
            None => Ok(self.rule.compute(key)?),
        }
    }

    /// Lets the value go that is kept for the key. Waits for the key's shard. It takes no memory, and can't be refused.
    pub fn forget<W: Wait + Clock>(&self, rt: &W, key: &K)
        ensures { (found : Option (K × (K × V))) × Removes ⟦<Self as Keyed>⟧.by self.now.map (λ k. K.eq k key.now) found }
    {
        drop(self.map.remove(rt, key));
    }

    /// Lets all values go; the room stays. It waits until nobody has a shard, for one shard after the other, in rising order. It takes no
    /// memory, and can't be refused.
    pub fn clear<W: Wait + Clock>(&self, rt: &W)
        ensures { LeavesShards {V = K × V} ⟦<Self as Keyed>⟧.by self.now.map ClearsAlone }
    {
        self.map.clear(rt);
    }

    /// How many values are kept, saturating at 2^64 - 1. Waits until no writer has a shard, for one shard after the other: others may
    /// change those that it asked before. It takes no memory.
    pub fn len<W: Wait + Clock>(&self, rt: &W) -> usize
        ensures { SawShards {V = K × V} ⟦<Self as Keyed>⟧.by self.now.map (λ a. result ≡ len_in a) }
    {
        self.map.len(rt)
    }

    /// How many values there may be before some shard takes memory, if their keys spread as the shards' room does, saturating at
    /// 2^64 - 1. It waits as `len` does.
    pub fn capacity<W: Wait + Clock>(&self, rt: &W) -> usize
        ensures { SawShards {V = K × V} ⟦<Self as Keyed>⟧.by self.now.map (λ a. result ≡ room_in a) }
    {
        self.map.capacity(rt)
    }

    /// How many values a shard keeps at most. It waits for nobody.
    pub fn bound(&self) -> usize
        ensures { result ≡ self.now.bound }
    {
        self.bound
    }

    /// How often `ask` and `try_ask` found the value kept when they looked first, saturating at 2^64 - 1. It waits for nobody. What others
    /// ask meanwhile may be counted or not.
    pub fn hits(&self) -> u64 {
        self.counts.hits()
    }

    /// How often they didn't, as `hits`.
    pub fn misses(&self) -> u64 {
        self.counts.misses()
    }
}

// A copy of the value that a held shard has for an equal key.
#[inline]
fn recall<K: KeptKey + Drop, V: Kept + Drop, R: Rule<K, V> + Drop, S: BuildHasher>(
    shard: &Shard<K, Answer<K, V, R>, S>,
    hash: u64,
    key: &K,
) -> Result<Option<V>, AllocError>
    requires { hash ≡ ⟦<Memo<K, V, R, S> as Keyed>⟧.by.hash shard.now.hasher key.now }
    ensures value { IfOk result (λ found. IfSome found (λ v. IsTrue (V.alike (R.value_of key.now) v))) }
    ensures lawful { IsShard ⟦<Memo<K, V, R, S> as Keyed>⟧.by shard.now }
{
    match shard.position_of_hashed(hash, key) {
        Some(position) => shard.at(position).1.recall(key),
        None => Ok(None),
    }
}

// The lowest taken slot from one on, round.
#[inline]
fn next_round<K: Eq + Hash, V, S: BuildHasher>(shard: &Shard<K, V, S>, from: usize) -> Option<usize>
    ensures taken { IfSome result (λ i. IsSome (slot shard.now.slots i)) }
    ensures none { IfNone result (shard_len shard.now ≡ 0) }
    ensures lawful { IsShard ⟦<DashMap<K, V, S> as Keyed>⟧.by shard.now }
{
    match shard.next_taken(from) {
        Some(position) => Some(position),
        None => shard.next_taken(0),
    }
}

// Lets one pair go, where there is one: that of the first taken slot from the one on that the hash points at, round.
fn let_one_go<K: Eq + Hash + Drop, V: Drop, S: BuildHasher>(
    shard: &mut ShardMut<'_, K, V, S>,
    hash: u64,
)
    ensures goes { OneGoes K.eq shard.old shard.new }
    ensures stays { SameShard shard.old shard.new }
    ensures lawful { IsShard ⟦<DashMap<K, V, S> as Keyed>⟧.by shard.new }
{
    let slots = shard.groups().saturating_mul(16) as u64;
    let pointed = hash.checked_rem(slots).unwrap_or(0);
    if let Some(position) = next_round(shard, pointed as usize) {
        drop(shard.remove_at(position));
    }
}
