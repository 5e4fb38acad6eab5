//! The walk over a map of one owner that writes.
ghost use Rattle.std.specs.Prelude.{◌≡◌, ◌<◌, ◌-◌, ◌^◌, [], ◌++◌, Option, Some, IsSome, IfSome, IfNone, slice_get};
ghost use Rattle.std.specs.Bool.{OnTrue, OnFalse};
ghost use Rattle.std.specs.Option.{option_map, option_copied_mut};
ghost use Rattle.std.specs.Map.Iter.{deref_pair, deref_pair_mut};
ghost use Rattle.std.specs.Borrow.{Lends, sem};
ghost use Rattle.dash_map.specs.Words.{IsAlone, by, contents, lent_pair, lent_value};

use crate::alone::Alone;
use dash_ref::mapref::multiple::RefMutMulti;
use dash_shard::hash::FixedState;
use dash_shard::keyed::{Keyed, Lender};
use std::hash::{BuildHasher, Hash};

/// The pairs of a map of one owner, by rising shard and in each by rising slot, their values to be written. The original's `iter_mut`
/// takes a hold of shard after shard for this.
///
/// A step looks at the next slots. It hashes and searches nothing, takes no memory, and waits for nobody. A contract sees the map, the
/// pairs that were passed, as they were left, and those to come.
#[derive(Drop)]
pub struct AloneIterMut<'a, K: Eq + Hash, V, S: BuildHasher = FixedState> {
    map: &'a mut Alone<K, V, S>,
    shard_i: usize,
    // Where the walk goes on in that shard: behind the pair on which it stands.
    position: usize,
}

impl<K: Eq + Hash, V, S: BuildHasher> Keyed for AloneIterMut<'_, K, V, S> {
    type Key = K;

    type State = S;

    ghost by = { by K.Hash S.BuildHasher S.Hasher.Hasher };
}

impl<K: Eq + Hash, V, S: BuildHasher> Lender for AloneIterMut<'_, K, V, S> {
    ghost use mir.Syntax.{named};
    ghost use Rattle.dash_map.specs.contracts.iter.alone_mut.AloneIterMut.{the_row};

    ghost row = { the_row (record { mir = named 1; lft = [] }) K.row V.row S.row S.Hasher.row (record {}) (record { eq = K.eq }) (record { hash_input = K.hash_input }) S.BuildHasher S.Hasher.Hasher };
}

impl<K: Eq + Hash, V, S: BuildHasher> Alone<K, V, S> {
    ghost use Rattle.dash_map.specs.AloneWalk.{passed, to_come, walked, loan_of, pairs_from, LeavesEach};
    ghost use Rattle.dash_map.specs.inner.AloneWalk.{IsNextSlot, map_with, pair_in};

    /// The pairs, by rising shard and in each by rising slot, their values to be written. It takes no memory, and waits for nobody.
    #[inline]
    pub fn iter_mut(&mut self) -> AloneIterMut<'_, K, V, S>
        ensures loan { loan_of result ≡ self.entry.ghost_name }
        ensures map { walked result ≡ self.old }
        ensures passed { passed result ≡ [] }
        ensures to_come { to_come result ≡ contents self.old }
        ensures each { LeavesEach result }
    {
        AloneIterMut {
            map: self,
            shard_i: 0,
            position: 0,
        }
    }

    // The shard of the next pair, from a slot of a shard on, and its slot there.
    #[inline]
    fn next_slot(&self, shard_i: usize, position: usize) -> Option<(usize, usize)>
        ensures next { IfSome result (λ r. IsNextSlot self.now.row shard_i position r.0 r.1) }
        ensures below { IfSome result (λ r. r.1 < 2 ^ 64 - 1) }
        ensures end { IfNone result (pairs_from self.now.row shard_i position ≡ []) }
    {
        let (mut number, mut from) = (shard_i, position);
        while number < self.row.len() {
            if let Some(slot) = self.row[number].next_taken(from) {
                return Some((number, slot));
            }
            number += 1;
            from = 0;
        }
        None
    }

    // The pair in a taken slot of a shard, its value to be written.
    #[inline]
    fn pair_mut(&mut self, shard_i: usize, slot: usize) -> (&K, &mut V)
        requires { IsSome (pair_in self.old.row shard_i slot) }
        ensures* writes_back { sem 𝓛 (Lends ⟦<Self as Lender>⟧.row V.row self.entry result.1 (map_with self.old shard_i slot)) }
        ensures pair { pair_in self.old.row shard_i slot ≡ Some (deref_pair_mut result) }
    {
        self.row[shard_i].at_mut(slot)
    }
}

impl<K: Eq + Hash, V, S: BuildHasher> AloneIterMut<'_, K, V, S> {
    ghost use Rattle.dash_map.specs.AloneWalk.{passed, to_come, walked, here, rewritten, Passes, PassesLending, Rewrites};
    ghost use Rattle.dash_map.specs.WalkingMut.{LendsItem};

    /// Goes to the next pair, and says whether there is one. At the end it stays where it is.
    #[inline]
    pub fn advance(&mut self) -> bool
        ensures same { walked self.new ≡ walked self.old }
        ensures passes { OnTrue result ((item : _) × Passes self.old self.new item item.1) }
        ensures end { OnFalse result (to_come self.old ≡ []) }
        ensures rests { OnFalse result (self.new ≡ self.old) }
        ensures whole { contents (walked self.old) ≡ passed self.old ++ to_come self.old }
    {
        match self.map.next_slot(self.shard_i, self.position) {
            Some((shard_i, slot)) => {
                self.shard_i = shard_i;
                self.position = slot + 1;
                true
            }
            None => false,
        }
    }

    /// The pair on which the walk stands, its value to be written.
    #[inline]
    pub fn item_mut(&mut self) -> RefMutMulti<'_, K, V>
        requires { IsSome (here self.old) }
        ensures* writes_back { sem 𝓛 (Lends ⟦<Self as Lender>⟧.row V.row self.entry (lent_value result) (rewritten self.old)) }
        ensures pair { here self.old ≡ Some (lent_pair result) }
        ensures rewrites { (v : V) → Rewrites self.old (rewritten self.old v) (lent_pair result) v }
    {
        let (key, value) = self.pair_mut();
        RefMutMulti::new(key, value)
    }

    // The pair on which the walk stands, its value to be written.
    #[inline]
    fn pair_mut(&mut self) -> (&K, &mut V)
        requires { IsSome (here self.old) }
        ensures* writes_back { sem 𝓛 (Lends ⟦<Self as Lender>⟧.row V.row self.entry result.1 (rewritten self.old)) }
        ensures pair { here self.old ≡ Some (deref_pair_mut result) }
    {
        let (shard_i, slot) = (self.shard_i, self.position - 1);
        self.map.pair_mut(shard_i, slot)
    }

    /// Goes to the next pair, and lends its value. At the end it stays where it is.
    ///
    /// For the stored key beside the value there are `advance` and `item_mut`, which make the same step.
    #[inline]
    pub fn next_mut(&mut self) -> Option<&mut V>
        ensures* writes_back { sem 𝓛 (LendsItem ⟦<Self as Lender>⟧.row V.row self.entry result (PassesLending self.old)) }
        ensures value { option_copied_mut result ≡ option_map (λ p. p.1) (slice_get (to_come self.old) 0) }
        ensures whole { contents (walked self.old) ≡ passed self.old ++ to_come self.old }
    {
        let (shard_i, slot) = self.map.next_slot(self.shard_i, self.position)?;
        self.shard_i = shard_i;
        self.position = slot + 1;
        Some(self.map.pair_mut(shard_i, slot).1)
    }
}
