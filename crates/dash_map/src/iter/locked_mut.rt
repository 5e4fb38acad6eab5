//! The walk over a map that threads share, which holds one shard after the other and writes.
ghost use Rattle.std.specs.Prelude.{◌≡◌, ◌+◌, ◌<◌, ◌↔◌, [], false, IsTrue, IsSome, Some, IfSome};
ghost use Rattle.std.specs.Bool.{OnTrue, OnFalse};
ghost use Rattle.std.specs.Iterator.{size};
ghost use Rattle.std.specs.Borrow.{Lends, sem};
ghost use Rattle.std.specs.Map.Iter.{deref_pair_mut};
ghost use Rattle.dash_map.specs.Words.{FoundBehind, IsDone, IsShardOf, IterState, LeftBehind, LendsItem, StepsLending, StepsTo, StepsToEnd, at_start, by, here, lent_pair, lent_value, pair_at, rewritten, steps_left, valued_at};
ghost use Rattle.core.specs.contracts.option.Option.{the_row as option_row};
ghost use Rattle.dash_map.specs.inner.Walking.{IsWalk};
ghost use Rattle.dash_map.specs.inner.WalkingMut.{GoesHere};

use crate::map::DashMap;
use dash_ref::held::holds::{Holds, Writing};
use dash_ref::held::{HeldShard, ShardMut};
use dash_ref::mapref::multiple::RefMutMulti;
use dash_shard::keyed::{Keyed, Lender};
use dash_shard::lock::RwLock;
use dash_shard::shard::Shard;
use std::hash::{BuildHasher, Hash};
use std::marker::Model;
use std::mem;
use std::rt::Clock;
use std::sync::Wait;

/// A hold that a walk takes of one shard of a map after the other.
pub trait Enters: Holds {
    ghost use Rattle.dash_map.specs.Map.{MapState};

    /// How the walk has the map.
    type Map: Drop;

    /// What a contract sees of it.
    ghost base: { Self.Map → MapState Self.Key Self.Value Self.State };

    /// How many shards there are.
    fn shard_count(map: &Self::Map) -> usize
        ensures { result ≡ (base map.now).amount };

    /// Waits until nobody has the shard, and holds it.
    fn enter<R: Wait + Clock>(
        map: &Self::Map,
        rt: &R,
        shard: usize,
    ) -> HeldShard<Self::Key, Self::Value, Self::State, Self>
        requires { shard < (base map.now).amount }
        ensures tagged { IsShardOf (by Self.Key.Hash Self.State.BuildHasher Self.State.Hasher.Hasher) (base map.now) shard result }
        ensures found { FoundBehind result };
}

impl<'a, K: Eq + Hash, V, S: BuildHasher> Enters for Writing<'a, K, V, S> {
    type Map = &'a DashMap<K, V, S>;

    ghost base = { λ map. map.now };

    #[inline]
    fn shard_count(map: &&'a DashMap<K, V, S>) -> usize {
        map.shard_count()
    }

    #[inline]
    fn enter<R: Wait + Clock>(
        map: &&'a DashMap<K, V, S>,
        rt: &R,
        shard: usize,
    ) -> ShardMut<'a, K, V, S> {
        let map: &'a DashMap<K, V, S> = *map;
        map.shards_mut(rt, shard)
    }
}

/// A walk over the pairs of a map, by rising shard and in each by rising slot, their values to be written: the original's `IterMut`. It
/// holds one shard for writing.
///
/// A step that comes to the end of its shard waits until nobody has the next one, holds that, and gives up the old one. So between two
/// steps others may change every shard but the one that is held. A walk at its end holds the last shard until it is dropped. No step
/// takes memory, and none can be refused.
///
/// A contract sees the map, how many shards were entered, the one that is held, and the position in it where the walk goes on.
pub struct HeldIter<
    'r,
    K: Eq + Hash,
    V,
    S: BuildHasher,
    R,
    H: Holds<Key = K, Value = V, State = S> + Enters,
> {
    rt: &'r R,
    map: H::Map,
    shard_i: usize,
    // None before the first shard.
    shard: Option<HeldShard<K, V, S, H>>,
    position: usize,
}

/// The original's `IterMut`.
pub type IterMut<'a, 'r, K, V, S, R> = HeldIter<'r, K, V, S, R, Writing<'a, K, V, S>>;

impl<'r, K: Eq + Hash, V, S: BuildHasher, R, H: Holds<Key = K, Value = V, State = S> + Enters> Model
    for HeldIter<'r, K, V, S, R, H> {
    ghost use Rattle.dash_shard.specs.Hashing.{key_hash};
    ghost use Rattle.dash_map.specs.Walking.{IterState};
    ghost use Rattle.dash_map.specs.inner.Walking.{IsWalk};

    ghost Value = { IterState K V S };

    ghost view = { λ w. record { base = H.base w.map; entered = w.shard_i; held = w.shard; position = w.position } };

    ghost invariant = { λ w. IsWalk (key_hash K.eq K.hash_input S.BuildHasher S.Hasher.Hasher) (record { base = H.base w.map; entered = w.shard_i; held = w.shard; position = w.position }) };
}

impl<K: Eq + Hash, V, S: BuildHasher, R, H: Holds<Key = K, Value = V, State = S> + Enters> Keyed
    for HeldIter<'_, K, V, S, R, H> {
    type Key = K;

    type State = S;

    ghost by = { by K.Hash S.BuildHasher S.Hasher.Hasher };
}

impl<K: Eq + Hash, V, S: BuildHasher, R, H: Holds<Key = K, Value = V, State = S> + Enters> Lender
    for HeldIter<'_, K, V, S, R, H> {
    ghost use mir.Syntax.{named};
    ghost use Rattle.dash_map.specs.contracts.iter.locked_mut.HeldIter.{the_row};

    ghost row = { the_row (record { mir = named 1; lft = [] }) K.row V.row S.row R.row H.row S.Hasher.row H.Lock.row H.Map.row (record { eq = K.eq }) (record { hash_input = K.hash_input }) S.BuildHasher S.Hasher.Hasher H.Holds (record { base = H.base }) };
}

impl<K: Eq + Hash, V, S: BuildHasher, R, H: Holds<Key = K, Value = V, State = S> + Enters> Drop
    for HeldIter<'_, K, V, S, R, H> {
    #[inline]
    fn drop(self)
        ensures left { IfSome self.entry.held LeftBehind }
    {
        let Self {
            rt: _,
            map: _,
            shard_i: _,
            shard,
            position: _,
        } = self;
        if let Some(shard) = shard {
            drop(shard);
        }
    }
}

// The pair of a taken slot of the shard that is held, its value to be written.
#[inline]
fn pair_in<K: Eq + Hash, V, S: BuildHasher, H: Holds<Key = K, Value = V, State = S>>(
    shard: &mut Option<HeldShard<K, V, S, H>>,
    i: usize,
) -> (&K, &mut V)
    requires { IsSome (pair_at shard.old i) }
    ensures* writes_back { sem 𝓛 (Lends (option_row ⟦<HeldShard<K, V, S, H> as Lender>⟧.row) V.row shard.entry result.1 (valued_at shard.old i)) }
    ensures pair { pair_at shard.old i ≡ Some (deref_pair_mut result) }
{
    match shard {
        Some(shard) => shard.at_mut(i),
        None => unreachable!(),
    }
}

impl<K: Eq + Hash, V, S: BuildHasher> DashMap<K, V, S> {
    /// A walk over the pairs, by rising shard, their values to be written. This call waits for nobody; the walk's steps do. None takes
    /// memory.
    #[inline]
    pub fn iter_mut<'a, 'r, R>(&'a self, rt: &'r R) -> IterMut<'a, 'r, K, V, S, R>
        ensures { result ≡ at_start self.now }
    {
        HeldIter {
            rt,
            map: self,
            shard_i: 0,
            shard: None,
            position: 0,
        }
    }
}

impl<K: Eq + Hash, V, S: BuildHasher, R, H: Holds<Key = K, Value = V, State = S> + Enters> HeldIter<
    '_,
    K,
    V,
    S,
    R,
    H,
> {
    // Goes to the next pair of the shard that is held, if there is one.
    #[inline]
    fn goes_here(&mut self) -> bool
        ensures goes { GoesHere ⟦<Self as Keyed>⟧.by self.old result self.new }
        ensures same { self.new.base ≡ self.old.base }
        ensures left { IsDone self.old → result ≡ false }
        ensures nearer { OnTrue result (size (steps_left self.new) < size (steps_left self.old)) }
    {
        let Some(shard) = &self.shard else {
            return false;
        };
        match shard.next_taken(self.position) {
            Some(slot) => {
                self.position = slot + 1;
                true
            }
            None => false,
        }
    }

    // Whether there is no shard behind the one that is held.
    #[inline]
    fn is_last(&self) -> bool
        ensures last { IsTrue result ↔ (self.now.entered ≡ self.now.base.amount) }
        ensures walk { IsWalk ⟦<Self as Keyed>⟧.by self.now }
    {
        self.shard_i == H::shard_count(&self.map)
    }

    // The pair on which the walk stands, its value to be written.
    #[inline]
    fn pair_mut(&mut self) -> (&K, &mut V)
        requires { IsSome (here self.old) }
        ensures* writes_back { sem 𝓛 (Lends ⟦<Self as Lender>⟧.row V.row self.entry result.1 (rewritten self.old)) }
        ensures pair { here self.old ≡ Some (deref_pair_mut result) }
    {
        let slot = self.position - 1;
        pair_in(&mut self.shard, slot)
    }

    /// The pair on which the walk stands, its value to be written.
    #[inline]
    pub fn item_mut(&mut self) -> RefMutMulti<'_, K, V>
        requires { IsSome (here self.old) }
        ensures* writes_back { sem 𝓛 (Lends ⟦<Self as Lender>⟧.row V.row self.entry (lent_value result) (rewritten self.old)) }
        ensures pair { here self.old ≡ Some (lent_pair result) }
    {
        let (key, value) = self.pair_mut();
        RefMutMulti::new(key, value)
    }
}

impl<
    K: Eq + Hash,
    V,
    S: BuildHasher,
    R: Wait + Clock,
    H: Holds<Key = K, Value = V, State = S> + Enters,
> HeldIter<'_, K, V, S, R, H> {
    // Holds the next shard, and gives up the one before.
    fn enter(&mut self)
        requires { self.old.entered < self.old.base.amount }
        ensures same { self.new.base ≡ self.old.base }
        ensures entered { self.new.entered ≡ self.old.entered + 1 }
        ensures first { self.new.position ≡ 0 }
        ensures held { IsSome self.new.held }
        ensures found { IfSome self.new.held FoundBehind }
        ensures left { IfSome self.old.held LeftBehind }
    {
        let shard = H::enter(&self.map, self.rt, self.shard_i);
        let before = mem::replace(&mut self.shard, Some(shard));
        self.shard_i += 1;
        self.position = 0;
        if let Some(before) = before {
            drop(before);
        }
    }

    /// Goes to the next pair, and says whether there is one. At the end it stays where it is.
    ///
    /// It waits until nobody has the next shard, where no pair is left in the one that is held.
    #[inline]
    pub fn advance(&mut self) -> bool
        ensures steps { OnTrue result ((item : _) × StepsTo ⟦<Self as Keyed>⟧.by self.old item self.new) }
        ensures end { OnFalse result (StepsToEnd ⟦<Self as Keyed>⟧.by self.old self.new) }
    {
        while !self.goes_here() {
            if self.is_last() {
                return false;
            }
            self.enter();
        }
        true
    }

    /// Goes to the next pair as `advance` does, and lends its value.
    ///
    /// For the stored key beside the value there are `advance` and `item_mut`.
    #[inline]
    pub fn next_mut(&mut self) -> Option<&mut V>
        ensures* writes_back { sem 𝓛 (LendsItem ⟦<Self as Lender>⟧.row V.row self.entry result (StepsLending ⟦<Self as Keyed>⟧.by self.old)) }
    {
        match self.advance() {
            true => Some(self.pair_mut().1),
            false => None,
        }
    }
}
