//! The calls that change all pairs of a shard that is held.
ghost use Rattle.std.specs.Prelude.{◌≡◌, ◌≤◌};
ghost use Rattle.dash_ref.specs.Words.{AlterAll, CalledOnPair, Clears, IsShard, Retain, Shrinks, SweepsBy, TakesOnPair, by, pairs, shard_len};
ghost use Rattle.std.specs.Map.Calls.{CalledAtPair, TakesPair, CallableOnEachPair};
ghost use Rattle.dash_shard.specs.inner.Walks.{if_kept, altered, SweepsShard};

use super::ShardMut;
use dash_shard::keyed::Keyed;
use dash_shard::shard::Shard;
use std::hash::{BuildHasher, Hash};

impl<K: Eq + Hash, V, S: BuildHasher> ShardMut<'_, K, V, S> {
    /// Keeps the pairs on which `f` returns true, each with the value that `f` leaves, and lets the others go.
    ///
    /// `f` is called once at each pair, in rising order of slots. The pairs that stay keep their slots, and the room stays. It takes
    /// no memory, and can't be refused.
    pub fn retain<F: FnMut(&K, &mut V) -> bool>(&mut self, f: F)
    where
        K: Drop,
        V: Drop,
        requires { CallableOnEachPair (CalledAtPair F.FnMut) (TakesPair F.FnMut) f (pairs self.old) }
        ensures retains { SweepsBy (CalledAtPair F.FnMut) K.eq f self.old self.new (Retain self.old.number) }
        ensures len { shard_len self.new ≤ shard_len self.old }
        ensures lawful { IsShard ⟦<Self as Keyed>⟧.by self.new }
    {
        self.hold.change(
            |shard: &mut Shard<K, V, S>|
                requires { CallableOnEachPair (CalledAtPair F.FnMut) (TakesPair F.FnMut) f (pairs shard.old) }
                ensures retains { SweepsBy (CalledAtPair F.FnMut) K.eq f shard.old shard.new (Retain shard.old.number) }
                ensures len { shard_len shard.new ≤ shard_len shard.old }
                ensures lawful { IsShard (by K.Hash S.BuildHasher S.Hasher.Hasher) shard.new }
            { shard.retain(f) },
        )
    }

    /// As `retain`, and hands `f` back, so that the caller may go on with it. For the crates here alone.
    pub fn retain_by<F: FnMut(&K, &mut V) -> bool>(&mut self, f: F) -> F
    where
        K: Drop,
        V: Drop,
        requires { CallableOnEachPair (CalledAtPair F.FnMut) (TakesPair F.FnMut) f (pairs self.old) }
        ensures sweeps { SweepsShard (CalledAtPair F.FnMut) if_kept f result self.old self.new }
        ensures lawful { IsShard ⟦<Self as Keyed>⟧.by self.new }
    {
        self.hold.change(|shard| {
            let mut f = f;
            shard.retain_by(&mut f);
            f
        })
    }

    /// Puts what `f` makes of each value in its place.
    ///
    /// `f` is called once at each pair, in rising order of slots. The pairs keep their slots. It takes no memory, and can't be refused.
    pub fn alter_all<F: FnMut(&K, V) -> V>(&mut self, f: F)
        requires { CallableOnEachPair (CalledOnPair F.FnMut) (TakesOnPair F.FnMut) f (pairs self.old) }
        ensures alters { SweepsBy (CalledOnPair F.FnMut) K.eq f self.old self.new (AlterAll self.old.number) }
        ensures len { shard_len self.new ≡ shard_len self.old }
        ensures lawful { IsShard ⟦<Self as Keyed>⟧.by self.new }
    {
        self.hold.change(
            |shard: &mut Shard<K, V, S>|
                requires { CallableOnEachPair (CalledOnPair F.FnMut) (TakesOnPair F.FnMut) f (pairs shard.old) }
                ensures alters { SweepsBy (CalledOnPair F.FnMut) K.eq f shard.old shard.new (AlterAll shard.old.number) }
                ensures len { shard_len shard.new ≡ shard_len shard.old }
                ensures lawful { IsShard (by K.Hash S.BuildHasher S.Hasher.Hasher) shard.new }
            { shard.alter_all(f) },
        )
    }

    /// As `alter_all`, and hands `f` back, so that the caller may go on with it. For the crates here alone.
    pub fn alter_all_by<F: FnMut(&K, V) -> V>(&mut self, f: F) -> F
        requires { CallableOnEachPair (CalledOnPair F.FnMut) (TakesOnPair F.FnMut) f (pairs self.old) }
        ensures sweeps { SweepsShard (CalledOnPair F.FnMut) altered f result self.old self.new }
        ensures lawful { IsShard ⟦<Self as Keyed>⟧.by self.new }
    {
        self.hold.change(|shard| {
            let mut f = f;
            shard.alter_all_by(&mut f);
            f
        })
    }

    /// Lets all pairs go. The room stays, for pairs that come later.
    pub fn clear(&mut self)
    where
        K: Drop,
        V: Drop,
        ensures clears { Clears self.old self.new }
        ensures lawful { IsShard ⟦<Self as Keyed>⟧.by self.new }
    {
        self.hold.change(|shard| shard.clear())
    }

    /// Moves the pairs to as few slots as a shard with room for them gets, which gives the rest of the memory back: none for no pairs.
    ///
    /// It takes memory for the new slots, and keeps the old ones where there is none. Slots change.
    pub fn shrink_to_fit(&mut self)
    where
        K: Drop,
        V: Drop,
        ensures shrinks { Shrinks K.eq self.old self.new }
        ensures lawful { IsShard ⟦<Self as Keyed>⟧.by self.new }
    {
        self.hold.change(|shard| shard.shrink_to_fit())
    }
}
