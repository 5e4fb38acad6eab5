//! A map of one owner, without locks.
ghost use Rattle.std.specs.Prelude.{◌≡◌, ◌∷◌, [], ◌+◌, ◌<◌, ◌≤◌, ◌↔◌, IsErrOf, IsTrue, IfOk, IfErr, length, OnErr, is_some, IfSome, map, ◌==◌};
ghost use Rattle.crossbeam_utils.specs.Padded.{padded_value};
ghost use Rattle.dash_map.specs.Words.{Answered, AreBehind, AreEnded, CapacityOverflow, EachAt, EndedWith, FitsTag, FoundBehind, HasNoRoom, HashAlike, Insert, IsAlone, IsAmount, IsAt, IsFresh, IsHashOf, IsOneOf, IsTagged, LeftBehind, MayAsk, Memory, Old, Overflows, RemoveIf, RemovesAlone, RemovesAloneBy, ReservesAlone, ShardAmount, TakesAlone, Viewed, at_named, by, contents, keys_in, len_in, locked, made_of, room_in, share};
ghost use Rattle.std.specs.Option.{option_map};
ghost use Rattle.std.specs.Map.Iter.{deref_pair};

use crate::map::{DashMap, Locked};
use crate::read_only::{Keys, ViewIter};
use crate::shards::Shards;
use crossbeam_utils::CachePadded;
use dash_shard::error::{ConstructError, TryReserveError};
use dash_shard::hash::{FixedState, is_shard_amount};
use dash_shard::keyed::Keyed;
use dash_shard::lock::RwLock;
use dash_shard::query::Query;
use dash_shard::row::Row;
use dash_shard::shard::tag::ShardTag;
use dash_shard::shard::{InsertRefused, Shard};
use std::alloc::Global;
use std::hash::{BuildHasher, Hash};
use std::marker::Model;
use std::snapshot::Snapshot;

mod all_pairs;
mod changes;

/// A map of one owner: its shards without locks. The original lends the map by `&mut` for this.
///
/// A contract sees its hasher and the row of its shards.
#[derive(Drop)]
pub struct Alone<K: Eq + Hash, V, S: BuildHasher = FixedState> {
    pub(crate) hasher: S,
    pub(crate) row: Row<Shard<K, V, S>, Locked<K, V, S>>,
}

impl<K: Eq + Hash, V, S: BuildHasher> Model for Alone<K, V, S> {
    ghost use Rattle.dash_map.specs.Alone.{AloneState, IsAlone};
    ghost use Rattle.dash_shard.specs.Hashing.{key_hash};

    ghost Value = { AloneState K V S };

    ghost view = { λ a. record { hasher = a.hasher; row = a.row } };

    ghost invariant = { λ a. IsAlone (key_hash K.eq K.hash_input S.BuildHasher S.Hasher.Hasher) (record { hasher = a.hasher; row = a.row }) };
}

impl<K: Eq + Hash, V, S: BuildHasher> Keyed for Alone<K, V, S> {
    type Key = K;

    type State = S;

    ghost by = { by K.Hash S.BuildHasher S.Hasher.Hasher };
}

// The row of a map with no pairs, each shard with room for `capacity`.
fn fresh_row<K: Eq + Hash + Drop, V: Drop, S: BuildHasher + Clone + Drop>(
    alloc: Global,
    hasher: &S,
    amount: usize,
    capacity: usize,
) -> Result<Vec<Shard<K, V, S>>, ConstructError>
    requires amount { IsAmount amount }
    requires alike { (s t : S) → S.is_clone s t → HashAlike ⟦<Alone<K, V, S> as Keyed>⟧.by s t }
    ensures len { IfOk result (λ row. length row.items ≡ amount) }
    ensures tagged { IfOk result (λ row. EachAt row.items (IsTagged ⟦<Alone<K, V, S> as Keyed>⟧.by hasher.now amount)) }
    ensures fresh { IfOk result (λ row. EachAt row.items (λ _. IsFresh capacity)) }
    ensures memory { IfErr result (λ e. e ≡ Memory) }
{
    let Ok(mut row) = Vec::with_capacity(alloc, amount) else {
        return Err(ConstructError::Memory);
    };
    for number in 0..amount {
        let Ok(hasher) = hasher.clone() else {
            return Err(ConstructError::Memory);
        };
        row.push_reserved(Shard::new(alloc, hasher, number, amount, capacity)?);
    }
    Ok(row)
}

impl<K: Eq + Hash + Drop, V: Drop, S: BuildHasher> Alone<K, V, S> {
    // A map with no pairs, and room in each shard for its share of the capacity.
    pub(crate) fn new(
        alloc: Global,
        capacity: usize,
        hasher: S,
        amount: usize,
    ) -> Result<Alone<K, V, S>, ConstructError>
    where
        S: Clone + Drop,
        requires { (s t : S) → S.is_clone s t → HashAlike ⟦<Self as Keyed>⟧.by s t }
        ensures hasher { IfOk result (λ a. a.hasher ≡ hasher) }
        ensures amount { IfOk result (λ a. length a.row ≡ amount) }
        ensures fresh { IfOk result (λ a. EachAt a.row (λ _. IsFresh (share capacity amount))) }
        ensures bad_amount { IsErrOf result ShardAmount ↔ (IsAmount amount → ⊥) }
        ensures overflow { IsErrOf result CapacityOverflow ↔ (IsAmount amount × Overflows capacity amount) }
        ensures kinds { IfErr result (IsOneOf (ShardAmount ∷ CapacityOverflow ∷ Memory ∷ [])) }
    {
        if !is_shard_amount(amount) {
            return Err(ConstructError::ShardAmount);
        }
        let Some(rounded) = capacity.checked_add(amount - 1) else {
            return Err(ConstructError::CapacityOverflow);
        };
        let row = fresh_row(alloc, &hasher, amount, rounded / amount)?;
        let Ok(row) = Row::of(alloc, row) else {
            return Err(ConstructError::Memory);
        };
        Ok(Alone { hasher, row })
    }

    /// How many shards the map has.
    #[inline]
    pub fn shard_count(&self) -> usize
        ensures count { result ≡ length self.now.row }
        ensures lawful { IsAlone ⟦<Self as Keyed>⟧.by self.now }
    {
        self.row.len()
    }

    /// The pairs, by rising shard and in each by rising slot. The original's `iter` takes a hold of shard after shard for this.
    pub fn iter(&self) -> ViewIter<'_, K, V, S>
        ensures pairs { result ≡ contents self.now }
        ensures lawful { IsAlone ⟦<Self as Keyed>⟧.by self.now }
    {
        self.lent().iter()
    }

    /// The keys, in the order of `iter`.
    pub fn keys(&self) -> Keys<'_, K, V, S>
        ensures keys { result ≡ map (λ p. p.0) (contents self.now) }
        ensures lawful { IsAlone ⟦<Self as Keyed>⟧.by self.now }
    {
        Keys::new(self.iter())
    }

    // The shards, to be read.
    #[inline]
    fn lent(&self) -> Shards<'_, K, V, S>
        ensures same { result ≡ self.now }
        ensures lawful { IsAlone ⟦<Self as Keyed>⟧.by self.now }
    {
        Shards::new(&self.hasher, self.row.items())
    }

    // The key's hash, and the number of the shard that it goes to.
    #[inline]
    fn route_of<Q: Query<K>>(&self, key: Q) -> (u64, usize)
        ensures hashed { IsHashOf ⟦<Self as Keyed>⟧.by self.now.hasher (Q.names key) result.0 }
        ensures routed { (k : K) → IsTrue (Q.names key k) → result.1 ≡ (keys_in ⟦<Self as Keyed>⟧.by self.now).route k }
        ensures below { result.1 < length self.now.row }
    {
        self.lent().route_of(key)
    }

    /// Puts the pair, or where an equal key is there the value under the stored key, and returns the old value.
    ///
    /// Takes memory for a new key where its shard is full, and is refused (1) only then. It waits for nobody.
    #[inline]
    pub fn insert(&mut self, key: K, value: V) -> Result<Option<V>, InsertRefused<K, V>>
        ensures taken { IfOk result (λ old. TakesAlone ⟦<Self as Keyed>⟧.by self.old self.new (Insert key value) (Old old)) }
        ensures refused { IfErr result (λ e. (e.key ≡ key) × (e.value ≡ value) × (self.new ≡ self.old)) }
        ensures no_room { OnErr result (HasNoRoom ⟦<Self as Keyed>⟧.by key self.old) }
    {
        let (hash, idx) = self.route_of(&key);
        self.row[idx].insert_hashed(hash, key, value)
    }

    /// Takes the pair whose key equals `key` out, and returns it. It takes no memory, and can't be refused.
    #[inline]
    pub fn remove<Q: Query<K>>(&mut self, key: Q) -> Option<(K, V)>
        ensures { RemovesAlone ⟦<Self as Keyed>⟧.by (Q.names key) self.old self.new result }
    {
        let (hash, idx) = self.route_of(key);
        self.row[idx].remove_hashed(hash, key)
    }

    /// Takes the pair whose key equals `key` out if `f` returns true on it, and returns it. It takes no memory, and can't be refused.
    #[inline]
    pub fn remove_if<Q: Query<K>, F: FnOnce(&K, &V) -> bool>(
        &mut self,
        key: Q,
        f: F,
    ) -> Option<(K, V)>
        requires { IfSome (at_named (Q.names key) (contents self.old)) (MayAsk F.FnOnce f) }
        ensures { RemovesAloneBy ⟦<Self as Keyed>⟧.by (Q.names key) self.old self.new RemoveIf result (Answered F.FnOnce f) }
    {
        let (hash, idx) = self.route_of(key);
        self.row[idx].remove_if_hashed(hash, key, f)
    }

    /// The pair whose key equals `key`.
    #[inline]
    pub fn get<Q: Query<K>>(&self, key: Q) -> Option<(&K, &V)>
        ensures pair { option_map deref_pair result ≡ at_named (Q.names key) (contents self.now) }
        ensures lawful { IsAlone ⟦<Self as Keyed>⟧.by self.now }
    {
        self.lent().get(key)
    }

    /// Whether there is a pair whose key equals `key`.
    #[inline]
    pub fn contains_key<Q: Query<K>>(&self, key: Q) -> bool
        ensures found { result ≡ is_some (at_named (Q.names key) (contents self.now)) }
        ensures lawful { IsAlone ⟦<Self as Keyed>⟧.by self.now }
    {
        self.get(key).is_some()
    }

    /// What `f` returns on the pair whose key equals `key`.
    #[inline]
    pub fn view<Q: Query<K>, R, F: FnOnce(&K, &V) -> R>(&self, key: Q, f: F) -> Option<R>
        requires { IfSome (at_named (Q.names key) (contents self.now)) (MayAsk F.FnOnce f) }
        ensures viewed { Viewed F.FnOnce f (at_named (Q.names key) (contents self.now)) result }
        ensures lawful { IsAlone ⟦<Self as Keyed>⟧.by self.now }
    {
        let (key, value) = self.get(key)?;
        Some(f(key, value))
    }

    /// How many pairs there are, saturating at 2^64 - 1. It asks each shard once. The original's `len` locks shard after shard for this.
    pub fn len(&self) -> usize
        ensures len { result ≡ len_in self.now }
        ensures lawful { IsAlone ⟦<Self as Keyed>⟧.by self.now }
    {
        self.lent().len()
    }

    /// Whether there are no pairs.
    pub fn is_empty(&self) -> bool
        ensures empty { result ≡ (length (contents self.now) == 0) }
        ensures lawful { IsAlone ⟦<Self as Keyed>⟧.by self.now }
    {
        self.len() == 0
    }

    /// How many pairs there may be before some shard takes memory, if they spread as the shards' room does, saturating at 2^64 - 1. It
    /// asks each shard once.
    pub fn capacity(&self) -> usize
        ensures capacity { result ≡ room_in self.now }
        ensures holds { len_in self.now ≤ result }
        ensures lawful { IsAlone ⟦<Self as Keyed>⟧.by self.now }
    {
        self.lent().capacity()
    }

    /// Makes room in each shard for so many pairs more, where there is less, and the pairs stay.
    ///
    /// It asks the shards in their order, and is refused (11) at the first that finds no memory: those before it keep their room.
    pub fn try_reserve(&mut self, additional: usize) -> Result<(), TryReserveError>
        ensures reserves { ReservesAlone K.eq additional self.old self.new result }
        ensures lawful { IsAlone ⟦<Self as Keyed>⟧.by self.new }
    {
        for idx in 0..self.row.len() {
            self.row[idx].try_reserve(additional)?;
        }
        Ok(())
    }

    /// The map behind its locks again. It takes no memory.
    pub fn end(self) -> DashMap<K, V, S>
        ensures map { result ≡ locked self }
        ensures left { AreBehind ⟦<Self as Keyed>⟧.by LeftBehind result self }
    {
        let Alone { hasher, row } = self;
        let amount = row.len();
        let row = row.turn(
            |number: usize, shard: Shard<K, V, S>| -> Locked<K, V, S>
                requires { IsTagged (by K.Hash S.BuildHasher S.Hasher.Hasher) hasher amount number shard }
                ensures at { IsAt (record { hasher = hasher; amount = amount }) number result }
                ensures made { made_of result ≡ shard }
                ensures left { LeftBehind shard }
            {
                let tag = ShardTag {
                    number,
                    amount,
                    hasher: Snapshot::of(&hasher),
                };
                CachePadded::new(RwLock::new(shard, &tag))
            },
        );
        DashMap { hasher, row }
    }
}

impl<K: Eq + Hash, V, S: BuildHasher> DashMap<K, V, S> {
    /// The map without its locks. It takes no memory, and waits for nobody, even where a hold was leaked.
    pub fn alone(self) -> Alone<K, V, S>
        ensures { AreEnded ⟦<Self as Keyed>⟧.by self result }
    {
        let DashMap { hasher, row } = self;
        let row = row.turn(
            |_: usize, lock: Locked<K, V, S>| -> Shard<K, V, S>
                ensures fits { FitsTag (by K.Hash S.BuildHasher S.Hasher.Hasher) (padded_value lock).tag result }
                ensures found { FoundBehind result }
                ensures ended { EndedWith (made_of lock) result }
            { lock.into_inner().into_inner() },
        );
        Alone { hasher, row }
    }
}
