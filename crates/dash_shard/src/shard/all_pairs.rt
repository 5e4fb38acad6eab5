//! The calls on all pairs of a shard.
ghost use Rattle.std.specs.Prelude.{◌≡◌, ◌≤◌};
ghost use Rattle.std.specs.Map.Calls.{CalledAtPair, TakesPair, CallableOnEachPair};
ghost use Rattle.dash_shard.specs.Words.{AlterAll, CalledOnPair, Clears, IsShard, Retain, Shrinks, SweepsBy, TakesOnPair, pairs, shard_len};
ghost use Rattle.dash_shard.specs.inner.Table.{IsTable, pairs_in};
ghost use Rattle.dash_shard.specs.inner.Walks.{if_kept, altered, SweepsShard};

use super::Shard;
use super::table::Table;
use super::table::walk::{IntoIter, Iter};
use crate::keyed::Keyed;
use std::hash::{BuildHasher, Hash};

impl<K: Eq + Hash, V, S: BuildHasher> Shard<K, V, S> {
    /// Keeps the pairs on which `f` returns true, each with the value that `f` leaves, and lets the others go.
    ///
    /// `f` is called once at each pair, in rising order of slots. The pairs that stay keep their slots, and the room stays. It takes
    /// no memory, and can't be refused.
    pub fn retain<F: FnMut(&K, &mut V) -> bool>(&mut self, mut f: F)
    where
        K: Drop,
        V: Drop,
        requires { CallableOnEachPair (CalledAtPair F.FnMut) (TakesPair F.FnMut) f (pairs self.old) }
        ensures retains { SweepsBy (CalledAtPair F.FnMut) K.eq f self.old self.new (Retain self.old.number) }
        ensures len { shard_len self.new ≤ shard_len self.old }
        ensures lawful { IsShard ⟦<Self as Keyed>⟧.by self.new }
    {
        self.retain_by(&mut f);
    }

    /// As `retain`, with an `f` that is lent: the caller may go on with it. For the crates here alone.
    pub fn retain_by<F: FnMut(&K, &mut V) -> bool>(&mut self, f: &mut F)
    where
        K: Drop,
        V: Drop,
        requires { CallableOnEachPair (CalledAtPair F.FnMut) (TakesPair F.FnMut) f.old (pairs self.old) }
        ensures sweeps { SweepsShard (CalledAtPair F.FnMut) if_kept f.old f.new self.old self.new }
        ensures was { IsShard ⟦<Self as Keyed>⟧.by self.old }
        ensures lawful { IsShard ⟦<Self as Keyed>⟧.by self.new }
    {
        self.table.retain(f, &self.hasher);
    }

    /// Puts what `f` makes of each value in its place.
    ///
    /// `f` is called once at each pair, in rising order of slots. The pairs keep their slots. It takes no memory, and can't be refused.
    pub fn alter_all<F: FnMut(&K, V) -> V>(&mut self, mut f: F)
        requires { CallableOnEachPair (CalledOnPair F.FnMut) (TakesOnPair F.FnMut) f (pairs self.old) }
        ensures alters { SweepsBy (CalledOnPair F.FnMut) K.eq f self.old self.new (AlterAll self.old.number) }
        ensures len { shard_len self.new ≡ shard_len self.old }
        ensures lawful { IsShard ⟦<Self as Keyed>⟧.by self.new }
    {
        self.alter_all_by(&mut f);
    }

    /// As `alter_all`, with an `f` that is lent: the caller may go on with it. For the crates here alone.
    pub fn alter_all_by<F: FnMut(&K, V) -> V>(&mut self, f: &mut F)
        requires { CallableOnEachPair (CalledOnPair F.FnMut) (TakesOnPair F.FnMut) f.old (pairs self.old) }
        ensures sweeps { SweepsShard (CalledOnPair F.FnMut) altered f.old f.new self.old self.new }
        ensures was { IsShard ⟦<Self as Keyed>⟧.by self.old }
        ensures lawful { IsShard ⟦<Self as Keyed>⟧.by self.new }
    {
        self.table.alter_all(f);
    }

    /// Lets all pairs go. The room stays, for pairs that come later.
    pub fn clear(&mut self)
    where
        K: Drop,
        V: Drop,
        ensures clears { Clears self.old self.new }
        ensures lawful { IsShard ⟦<Self as Keyed>⟧.by self.new }
    {
        self.table.clear();
    }

    /// Moves the pairs to as few slots as a shard with room for them gets, which gives the rest of the memory back: none for no pairs.
    ///
    /// It takes memory for the new slots, and keeps the old ones where there is none. Slots change.
    pub fn shrink_to_fit(&mut self)
    where
        K: Drop,
        V: Drop,
        ensures shrinks { Shrinks K.eq self.old self.new }
        ensures lawful { IsShard ⟦<Self as Keyed>⟧.by self.new }
    {
        self.table.shrink(&self.hasher);
    }

    /// The pairs, in rising order of slots.
    #[inline]
    pub fn iter(&self) -> Iter<'_, K, V>
        ensures pairs { result ≡ pairs self.now }
        ensures lawful { IsShard ⟦<Self as Keyed>⟧.by self.now }
    {
        self.table.iter()
    }

    // The table and the hasher of a shard that ends.
    pub(super) fn into_parts(self) -> (Table<K, V>, S)
        ensures table { IsTable result.0 }
        ensures pairs { pairs_in result.0 ≡ self.slots }
    {
        let Shard {
            hasher,
            number: _,
            amount: _,
            table,
        } = self;
        (table, hasher)
    }

    /// The pairs, moved out in rising order of slots. The shard's hasher is dropped.
    #[inline]
    pub fn into_iter(self) -> IntoIter<K, V>
    where
        S: Drop,
        ensures pairs { result ≡ pairs self }
    {
        let (table, hasher) = self.into_parts();
        drop(hasher);
        table.into_iter()
    }
}
