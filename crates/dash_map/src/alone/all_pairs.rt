//! The calls on all pairs of a map of one owner: shard after shard, in rising order.
ghost use Rattle.std.specs.Map.Calls.{CalledAtPair, TakesPair, CallableOnEachPair};
ghost use Rattle.dash_map.specs.Words.{AltersAllAlone, CalledOnPair, ClearsAlone, IsAlone, RetainsAlone, ShrinksAlone, TakesOnPair, contents};

use super::Alone;
use dash_shard::keyed::Keyed;
use std::hash::{BuildHasher, Hash};

impl<K: Eq + Hash + Drop, V: Drop, S: BuildHasher> Alone<K, V, S> {
    /// Keeps the pairs on which `f` returns true, each with the value that `f` leaves, and lets the others go.
    ///
    /// `f` is called once at each pair, shard after shard. The room stays. It takes no memory, can't be refused, and waits for nobody.
    pub fn retain<F: FnMut(&K, &mut V) -> bool>(&mut self, mut f: F)
        requires { CallableOnEachPair (CalledAtPair F.FnMut) (TakesPair F.FnMut) f (contents self.old) }
        ensures retains { RetainsAlone K.eq (CalledAtPair F.FnMut) f self.old self.new }
        ensures lawful { IsAlone ⟦<Self as Keyed>⟧.by self.new }
    {
        for idx in 0..self.row.len() {
            self.row[idx].retain_by(&mut f);
        }
    }

    /// Lets all pairs go. The room stays, for pairs that come later. It takes no memory, and waits for nobody.
    pub fn clear(&mut self)
        ensures clears { ClearsAlone self.old self.new }
        ensures lawful { IsAlone ⟦<Self as Keyed>⟧.by self.new }
    {
        for idx in 0..self.row.len() {
            self.row[idx].clear();
        }
    }

    /// Puts what `f` makes of each value where it stood.
    ///
    /// `f` is called once at each pair, shard after shard. It takes no memory, can't be refused, and waits for nobody.
    pub fn alter_all<F: FnMut(&K, V) -> V>(&mut self, mut f: F)
        requires { CallableOnEachPair (CalledOnPair F.FnMut) (TakesOnPair F.FnMut) f (contents self.old) }
        ensures alters { AltersAllAlone K.eq (CalledOnPair F.FnMut) f self.old self.new }
        ensures lawful { IsAlone ⟦<Self as Keyed>⟧.by self.new }
    {
        for idx in 0..self.row.len() {
            self.row[idx].alter_all_by(&mut f);
        }
    }

    /// Moves each shard's pairs to as few slots as hold them, which gives the rest of the memory back.
    ///
    /// A shard takes memory for its new slots, and keeps the old ones where there is none. It waits for nobody.
    pub fn shrink_to_fit(&mut self)
        ensures shrinks { ShrinksAlone K.eq self.old self.new }
        ensures lawful { IsAlone ⟦<Self as Keyed>⟧.by self.new }
    {
        for idx in 0..self.row.len() {
            self.row[idx].shrink_to_fit();
        }
    }
}
