//! What goes over all pairs of a table, in rising order of slots.
ghost use Rattle.std.specs.Prelude.{ℕ, ◌≡◌, ◌<◌, Option, Some, None, IsSome, IfSome, true, length, map, slice_set};
ghost use Rattle.std.specs.Map.Calls.{CalledAtPair, TakesPair, CallableOnEachPair};
ghost use Rattle.dash_shard.specs.inner.Table.{IsTable, IsHashedBy, TellsTaken, slots_in, pairs_in, hashes_in};
ghost use Rattle.dash_shard.specs.Words.{CalledOnPair, TakesOnPair, slot, taken};
ghost use Rattle.dash_shard.specs.inner.Walks.{Asks, Visits, Sweeps, if_kept, altered};

use super::Table;
use super::marks::EMPTY;
use crate::shard::table::slots::Slots;
use std::hash::{BuildHasher, Hash};

// Lets the pair of each taken slot from `from` on go.
pub(super) fn let_go<K: Drop, V: Drop>(slots: &mut Slots<(K, V)>, tags: &[u8], from: usize)
    requires { TellsTaken from tags.now slots.old.values }
    ensures pairs { slots.new.values ≡ map (λ _. None) slots.old.values }
    ensures hashes { slots.new.labels ≡ slots.old.labels }
{
    for slot in from..tags.len() {
        if tags[slot] < EMPTY {
            drop(slots.take(slot));
        }
    }
}

impl<K, V> Table<K, V> {
    // Asks `f` at the pair of a taken slot.
    fn ask_at<F: FnMut(&K, &mut V) -> bool>(&mut self, position: usize, f: &mut F) -> bool
        requires taken { IsSome (slot (pairs_in self.old) position) }
        requires table { IsTable self.old }
        requires callable { IfSome (slot (pairs_in self.old) position) (λ p. TakesPair F.FnMut f.old p.0 p.1) }
        ensures asks { Asks (CalledAtPair F.FnMut) f.old (slot (pairs_in self.old) position) result (slot (pairs_in self.new) position) f.new }
        ensures pairs { pairs_in self.new ≡ slice_set (pairs_in self.old) position (slot (pairs_in self.new) position) }
        ensures hashes { hashes_in self.new ≡ hashes_in self.old }
        ensures len { self.new.len ≡ self.old.len }
        ensures slots { slots_in self.new ≡ slots_in self.old }
        ensures table { IsTable self.new }
    {
        let pair = self.slots.get_mut(position);
        f(&pair.0, &mut pair.1)
    }

    /// Keeps the pairs on which `f` returns true, with the values that it leaves.
    pub fn retain<S: BuildHasher, F: FnMut(&K, &mut V) -> bool>(&mut self, f: &mut F, hasher: &S)
    where
        K: Eq + Hash + Drop,
        V: Drop,
        requires table { IsTable self.old }
        requires hashed { IsHashedBy K.hash_input S.BuildHasher S.Hasher.Hasher hasher.now self.old.slots }
        requires callable { CallableOnEachPair (CalledAtPair F.FnMut) (TakesPair F.FnMut) f.old (taken (pairs_in self.old)) }
        ensures swept { Sweeps (CalledAtPair F.FnMut) if_kept f.old (pairs_in self.old) (pairs_in self.new) f.new }
        ensures hashes { hashes_in self.new ≡ hashes_in self.old }
        ensures slots { slots_in self.new ≡ slots_in self.old }
        ensures table { IsTable self.new }
    {
        let mut cursor = self.cursor();
        while let Some(slot) = self.advance(&mut cursor) {
            if !self.ask_at(slot, f) {
                let hash = self.hash_at(slot, hasher);
                drop(self.take(slot, hash));
            }
        }
    }

    // Puts what `f` makes of the value at a taken slot there.
    fn alter_at<F: FnMut(&K, V) -> V>(&mut self, position: usize, f: &mut F)
        requires taken { IsSome (slot (pairs_in self.old) position) }
        requires table { IsTable self.old }
        requires callable { IfSome (slot (pairs_in self.old) position) (λ p. TakesOnPair F.FnMut f.old p.0 p.1) }
        ensures visits { Visits (CalledOnPair F.FnMut) altered f.old (slot (pairs_in self.old) position) (slot (pairs_in self.new) position) f.new }
        ensures pairs { pairs_in self.new ≡ slice_set (pairs_in self.old) position (slot (pairs_in self.new) position) }
        ensures hashes { hashes_in self.new ≡ hashes_in self.old }
        ensures len { self.new.len ≡ self.old.len }
        ensures slots { slots_in self.new ≡ slots_in self.old }
        ensures table { IsTable self.new }
    {
        let (key, value) = self.slots.take(position);
        let value = f(&key, value);
        self.slots.put_back(position, (key, value));
    }

    /// Puts what `f` makes of each value in its place.
    pub fn alter_all<F: FnMut(&K, V) -> V>(&mut self, f: &mut F)
        requires table { IsTable self.old }
        requires callable { CallableOnEachPair (CalledOnPair F.FnMut) (TakesOnPair F.FnMut) f.old (taken (pairs_in self.old)) }
        ensures swept { Sweeps (CalledOnPair F.FnMut) altered f.old (pairs_in self.old) (pairs_in self.new) f.new }
        ensures hashes { hashes_in self.new ≡ hashes_in self.old }
        ensures len { self.new.len ≡ self.old.len }
        ensures slots { slots_in self.new ≡ slots_in self.old }
        ensures table { IsTable self.new }
    {
        let mut cursor = self.cursor();
        while let Some(slot) = self.advance(&mut cursor) {
            self.alter_at(slot, f);
        }
    }

    /// Lets all pairs go.
    pub fn clear(&mut self)
    where
        K: Drop,
        V: Drop,
        requires { IsTable self.old }
        ensures pairs { pairs_in self.new ≡ map (λ _. None) (pairs_in self.old) }
        ensures hashes { hashes_in self.new ≡ hashes_in self.old }
        ensures len { self.new.len ≡ 0 }
        ensures slots { slots_in self.new ≡ slots_in self.old }
        ensures table { IsTable self.new }
    {
        let_go(&mut self.slots, &self.tags, 0);
        self.tags.fill(EMPTY);
        self.counts.fill(0);
        self.len = 0;
    }

    /// Lets all pairs go, and the slots.
    pub fn end(mut self)
    where
        K: Drop,
        V: Drop,
        requires { IsTable self }
    {
        let_go(&mut self.slots, &self.tags, 0);
        self.end_blank();
    }
}
