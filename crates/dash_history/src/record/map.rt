//! A recorded map that threads share, and its two moves: shards out of their locks, and behind them again.
ghost use Rattle.std.specs.Prelude.{◌∷◌, [], ◌≡◌, ◌<◌, ◌↔◌, Some, IsErrOf, IfOk, IfErr, IfSome, length, option_map, slice_get};
ghost use Rattle.crossbeam_utils.specs.Padded.{padded_value};
ghost use Rattle.std.specs.Borrow.{sem};
ghost use Rattle.dash_history.specs.Words.{Callers, CopiesRecPairs, EachAt, EachRecShard, EndedWith, FoundBehind, HashAlike, IsAmount, IsCallers, IsFresh, IsOneOf, IsRecFound, IsRecShardOf, IsRecTagged, IsRecorded, LeftBehind, RelocksRecShards, SawRecShard, ShardAmount, StaysAt, by, fresh_logs, known, last_at, locked, made_for, rec_map, shape, shard_on};
ghost use Rattle.dash_shard.specs.declared.error.ConstructError.TheVariants.{Memory};
ghost use Rattle.dash_history.specs.inner.Locks.{IsRecAt, LeavesLock, made_of};
ghost use Rattle.dash_steps.specs.inner.Hashed.{IsHashBy};

use super::held::RecShardMut;
use crate::alone::RecAlone;
use crate::record::tag::RecTag;
use crate::record::{CallerLog, RecShard, Record};
use core::mem::replace_with;
use crossbeam_utils::CachePadded;
use dash_shard::error::ConstructError;
use dash_shard::hash::FixedState;
use dash_shard::lock::RwLock;
use dash_shard::row::Row;
use dash_steps::action::KeptAction;
use dash_steps::kept::{Kept, KeptKey};
use dash_steps::known::Recorded;
use dash_steps::step::ShardStep;
use std::alloc::{AllocError, Global};
use std::hash::BuildHasher;
use std::marker::Model;
use std::rt::Clock;
use std::snapshot::Snapshot;
use std::sync::Wait;

/// A shard behind its lock, on cache lines of its own.
pub(crate) type Locked<K, V, S, A> = CachePadded<RwLock<RecShard<K, V, S, A>>>;

/// A recorded map that threads share: its shards behind locks, each with its history.
///
/// A contract sees its hasher, the number of its callers and that of its shards, and what its locks were made for. Only who holds a
/// lock knows what is behind it.
#[derive(Drop)]
pub struct RecordedMap<K: KeptKey, V: Kept, S: BuildHasher = FixedState, A: KeptAction<K, V> = ()> {
    hasher: S,
    callers: u32,
    row: Row<Locked<K, V, S, A>, RecShard<K, V, S, A>>,
}

impl<K: KeptKey, V: Kept, S: BuildHasher, A: KeptAction<K, V>> Model for RecordedMap<K, V, S, A> {
    ghost use Rattle.std.specs.Prelude.{◌≡◌, ◌≤◌, [], length, map, vec_len, vec_capacity};
    ghost use Rattle.dash_history.specs.Map.{RecMapState, rec_map};
    ghost use Rattle.dash_history.specs.inner.Locks.{IsRecMap, made_of};

    ghost Value = { RecMapState K V A S };

    ghost view = { λ m. record { hasher = m.hasher; callers = m.callers; amount = length m.row; made = map made_of m.row } };

    ghost invariant = { λ m. IsRecMap (rec_map m.hasher m.callers (length m.row)) m.row };
}

impl<K: KeptKey, V: Kept, S: BuildHasher, A: KeptAction<K, V>> Recorded
    for RecordedMap<K, V, S, A> {
    type Key = K;

    type Value = V;

    type Action = A;

    type State = S;

    ghost known = { known K.KeptKey V.alike A.KeptAction S.BuildHasher S.Hasher.Hasher };
}

impl<K: KeptKey + Drop, V: Kept + Drop, S: BuildHasher, A: KeptAction<K, V> + Drop> RecordedMap<
    K,
    V,
    S,
    A,
> {
    ghost use Rattle.dash_history.specs.contracts.record.map.RecordedMap.{the_row};

    /// A map of `amount` shards with no pairs, beside the logs of its callers, which are numbered from 0.
    ///
    /// It is refused where the amount is no power of two above 1 (5), then where there are not 1 to 65,536 callers (17), then
    /// where there is no memory (8). It clones the hasher for each shard.
    pub fn new(
        alloc: Global,
        hasher: S,
        amount: usize,
        callers: u32,
    ) -> Result<(RecordedMap<K, V, S, A>, Vec<CallerLog<K, V, A>>), ConstructError>
    where
        S: Clone,
        requires { (s t : S) → S.is_clone s t → HashAlike ⟦<Self as Recorded>⟧.known.keys s t }
        ensures built { IfOk result (λ m. shape m.0 ≡ rec_map hasher callers amount) }
        ensures count { IfOk result (λ m. length m.0.made ≡ amount) }
        ensures made { IfOk result (λ m. EachAt m.0.made (λ _ s. IsFresh s)) }
        ensures logs { IfOk result (λ m. m.1.items ≡ fresh_logs callers) }

        // In the order of the refusals' numbers.
        ensures bad_amount { IsErrOf result ShardAmount ↔ (IsAmount amount → ⊥) }
        ensures bad_callers { IsErrOf result Callers ↔ IsAmount amount × (IsCallers callers → ⊥) }
        ensures kinds { IfErr result (IsOneOf (ShardAmount ∷ Callers ∷ Memory ∷ [])) }
    {
        let (alone, logs) = RecAlone::new(alloc, hasher, amount, callers)?;
        Ok((alone.end(), logs))
    }

    /// How many callers the map has.
    #[inline]
    pub fn callers(&self) -> u32
        ensures callers { result ≡ self.now.callers }
        ensures lawful { IsCallers self.now.callers }
    {
        self.callers
    }

    /// How many shards the map has.
    #[inline]
    pub fn shard_count(&self) -> usize
        ensures count { result ≡ self.now.amount }
        ensures lawful { IsAmount self.now.amount }
    {
        self.row.len()
    }

    // The allocator of the map.
    pub(crate) fn allocator(&self) -> Global {
        self.row.allocator()
    }

    /// The hash of a step's key, or 0 where it has none, and the number of the shard that the step goes to.
    #[inline]
    pub(crate) fn route(&self, step: &ShardStep<K, V, A>) -> (u64, usize)
        ensures hash { IsHashBy A.acts ⟦<Self as Recorded>⟧.known.keys self.now.hasher step.now result.0 }
        ensures shard { result.1 ≡ shard_on ⟦<Self as Recorded>⟧.known self.now step.now }
    {
        step.route(&self.hasher, self.row.len())
    }

    /// Waits until nobody has the shard, and holds it for writing.
    #[inline]
    pub fn held<R: Wait + Clock>(&self, rt: &R, shard: usize) -> RecShardMut<'_, K, V, S, A>
        requires { shard < self.now.amount }
        ensures tagged { IsRecShardOf ⟦<Self as Recorded>⟧.known.keys self.now shard result }
        ensures legal { IsRecorded ⟦<Self as Recorded>⟧.known result }
        ensures found { FoundBehind result }
    {
        let held = RecShardMut::of(self.row[shard].write(rt));
        // It says that the history is lawful.
        let _ = held.number();
        held
    }

    // As `held`, where nobody has the shard.
    pub(crate) fn try_held(&self, shard: usize) -> Option<RecShardMut<'_, K, V, S, A>>
        requires { shard < self.now.amount }
        ensures tagged { IfSome result (IsRecShardOf ⟦<Self as Recorded>⟧.known.keys self.now shard) }
        ensures legal { IfSome result (IsRecorded ⟦<Self as Recorded>⟧.known) }
        ensures found { IfSome result FoundBehind }
    {
        match self.row[shard].try_write() {
            Some(guard) => {
                let held = RecShardMut::of(guard);
                let _ = held.number();
                Some(held)
            }
            None => None,
        }
    }

    /// The map without its locks. It takes no memory, and waits for nobody, even where a hold was leaked.
    pub fn alone(self) -> RecAlone<K, V, S, A>
        ensures found { IsRecFound ⟦<Self as Recorded>⟧.known self result }
        ensures ended { EachRecShard EndedWith (made_for self) result }
    {
        let RecordedMap {
            hasher,
            callers,
            row,
        } = self;
        let row = row.turn(
            |_: usize, lock: Locked<K, V, S, A>| -> RecShard<K, V, S, A>
                ensures leaves { LeavesLock (known K.KeptKey V.alike A.KeptAction S.BuildHasher S.Hasher.Hasher) (padded_value lock).tag result }
                ensures found { FoundBehind result }
                ensures ended { EndedWith (made_of lock) result }
            {
                let shard = lock.into_inner().into_inner();
                let _ = shard.last_stamp();
                shard
            },
        );
        RecAlone {
            hasher,
            callers,
            row,
        }
    }

    /// The record at a place: at the index `place` of the history of a shard, if it has so many.
    ///
    /// As nobody else has the map, it waits for nobody, even where a hold was leaked. No shard leaves its lock.
    pub fn entry_at(&mut self, shard: usize, place: usize) -> Option<&Record<K, V, A>>
        requires { shard < self.old.amount }
        ensures* stays { sem 𝓛 (StaysAt (the_row K.row V.row S.row A.row S.Hasher.row (record {}) (record { alike = K.alike }) (record {}) (record { eq = K.eq }) (record { hash_input = K.hash_input }) (record { alike = V.alike }) S.BuildHasher S.Hasher.Hasher (record {}) (record { acts = A.acts }) (record { alike = A.alike })) self.entry) }
        ensures entry { SawRecShard ⟦<Self as Recorded>⟧.known self.old shard
            (λ s. option_map (λ r. r.now) result ≡ slice_get s.history place) }
    {
        self.row[shard].get().history().get(place)
    }

    /// The stamp of the last step of a shard, 0 for none.
    ///
    /// It waits for nobody, as `entry_at`. The shards leave their locks for it and go back.
    pub fn last_of(&mut self, shard: usize) -> u64
        requires { shard < self.old.amount }
        ensures last { RelocksRecShards ⟦<Self as Recorded>⟧.known self.old self.new (λ a. result ≡ last_at a shard) }
        ensures same { shape self.new ≡ shape self.old }
    {
        replace_with(self, shard, Self::last_alone)
    }

    /// Copies of the pairs of all shards, each once (4). It waits for nobody, as `last_of`.
    pub fn pairs(&mut self) -> Result<Vec<(K, V)>, AllocError>
        ensures pairs { RelocksRecShards ⟦<Self as Recorded>⟧.known self.old self.new
            (λ a. IfOk result (λ pairs. CopiesRecPairs ⟦<Self as Recorded>⟧.known a pairs.items)) }
        ensures same { shape self.new ≡ shape self.old }
    {
        replace_with(self, (), Self::pairs_alone)
    }

    // The stamp, and the map after it.
    fn last_alone(self, shard: usize) -> (Self, u64)
        requires { shard < self.amount }
        ensures last { RelocksRecShards ⟦<Self as Recorded>⟧.known self result.0 (λ a. result.1 ≡ last_at a shard) }
        ensures same { shape result.0 ≡ shape self }
    {
        let alone = self.alone();
        let last = alone.last_of(shard);
        (alone.end(), last)
    }

    // The copies, and the map after them.
    fn pairs_alone(self, _nothing: ()) -> (Self, Result<Vec<(K, V)>, AllocError>)
        ensures pairs { RelocksRecShards ⟦<Self as Recorded>⟧.known self result.0
            (λ a. IfOk result.1 (λ pairs. CopiesRecPairs ⟦<Self as Recorded>⟧.known a pairs.items)) }
        ensures same { shape result.0 ≡ shape self }
    {
        let alone = self.alone();
        let pairs = alone.pairs();
        (alone.end(), pairs)
    }
}

impl<K: KeptKey + Drop, V: Kept + Drop, S: BuildHasher, A: KeptAction<K, V> + Drop> RecAlone<
    K,
    V,
    S,
    A,
> {
    /// The map behind its locks again. It takes no memory.
    pub fn end(self) -> RecordedMap<K, V, S, A>
        ensures map { result ≡ locked self (length self.row) }
        ensures left { EachAt self.row (λ _ s. LeftBehind s) }
    {
        let RecAlone {
            hasher,
            callers,
            row,
        } = self;
        let amount = row.len();
        let row = row.turn(
            |number: usize, shard: RecShard<K, V, S, A>| -> Locked<K, V, S, A>
                requires { IsRecTagged (by K.Hash S.BuildHasher S.Hasher.Hasher) hasher amount callers number shard }
                ensures at { IsRecAt (rec_map hasher callers amount) number result }
                ensures made { made_of result ≡ shard }
                ensures left { LeftBehind shard }
            {
                let tag = RecTag {
                    number,
                    amount,
                    callers,
                    hasher: Snapshot::of(&hasher),
                };
                CachePadded::new(RwLock::new(shard, &tag))
            },
        );
        RecordedMap {
            hasher,
            callers,
            row,
        }
    }
}
