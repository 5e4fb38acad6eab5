//! The values of a table's pairs, changed where they stand. No mark is written.
ghost use Rattle.std.specs.Prelude.{◌≡◌, Some, IsSome, IfSome};
ghost use Rattle.std.specs.Borrow.{sem, follows};
ghost use Rattle.dash_shard.specs.inner.Table.{IsTable, IsRewritten, with_value_at, pairs_in};
ghost use Rattle.dash_shard.specs.Words.{MayGive, slot};
ghost use Rattle.dash_shard.specs.inner.Gives.{GivesOn};

use super::Table;
use std::mem;

impl<K, V> Table<K, V> {
    ghost use Rattle.dash_shard.specs.contracts.shard.table.Table.{the_row};

    /// The pair of a taken slot, its value to write.
    #[inline(always)]
    pub fn pair_mut(&mut self, position: usize) -> (&K, &mut V)
        requires table { IsTable self.old }
        requires taken { IsSome (slot (pairs_in self.old) position) }
        ensures* writes_back { sem 𝓛 (follows (the_row K.row V.row) V.row self.entry.ghost_name result.1.ghost_name (with_value_at self.old position)) }
        ensures pair { slot (pairs_in self.old) position ≡ Some (result.0.now, result.1.now) }
    {
        let pair = self.slots.get_mut(position);
        (&pair.0, &mut pair.1)
    }

    /// Puts a pair in the slot of one whose key has the same hash, and returns that one.
    #[inline(always)]
    pub fn exchange(&mut self, position: usize, key: K, value: V) -> (K, V)
        requires table { IsTable self.old }
        requires taken { IsSome (slot (pairs_in self.old) position) }
        ensures old { slot (pairs_in self.old) position ≡ Some result }
        ensures new { IsRewritten position (key, value) self.old self.new }
    {
        mem::replace(self.slots.get_mut(position), (key, value))
    }

    /// The pair of a taken slot gets the value that `f` gives for its own.
    #[inline(always)]
    pub fn alter<F: FnOnce(&K, V) -> V>(&mut self, position: usize, f: F)
        requires table { IsTable self.old }
        requires taken { IsSome (slot (pairs_in self.old) position) }
        requires callable { IfSome (slot (pairs_in self.old) position) (MayGive F.FnOnce f) }
        ensures { IfSome (slot (pairs_in self.old) position) (λ p. (w : V) × IsRewritten position (p.0, w) self.old self.new × GivesOn F.FnOnce f p w) }
    {
        let (key, value) = self.slots.take(position);
        let value = f(&key, value);
        self.slots.put_back(position, (key, value));
    }
}
