//! Holds of a shard as what lends from it sees them: by a trait, since a value is lent only from a field whose type names no lifetime.
ghost use Rattle.std.specs.Prelude.{◌≡◌, ℕ, IsSome, Some, refl};
ghost use Rattle.std.specs.Borrow.{Lends, sem};
ghost use Rattle.std.specs.Map.Iter.{deref_pair_mut};
ghost use Rattle.dash_ref.specs.Words.{LeftBehind, by, slot, with_value_in};
ghost use Rattle.dash_ref.specs.inner.Lending.{KeepsTag};

use dash_shard::lock::hold::Hold;
use dash_shard::lock::{RwLock, Tagged};
use dash_shard::shard::Shard;
use dash_shard::shard::tag::ShardTag;
use std::hash::{BuildHasher, Hash};

/// A hold to write of a shard's lock.
pub trait Holds {
    type Key: Eq + Hash;

    type Value;

    type State: BuildHasher;

    type Lock: Wakes;

    ghost use Rattle.dash_shard.specs.Shard.{ShardState};
    ghost use Rattle.dash_shard.specs.declared.shard.tag.ShardTag.{ShardTag};

    /// What it may do: 2 is to write.
    ghost right: { Self → ℕ };

    /// The lock's tag.
    ghost tag: { Self → ShardTag Self.State };

    /// The shard behind the lock.
    ghost value: { Self → ShardState Self.Key Self.Value Self.State };

    /// The hold where the value at a slot is another one.
    ghost with: { Self → ℕ → Self.Value → Self };

    /// The shard, which stays while the hold is borrowed.
    fn get(&self) -> &Shard<Self::Key, Self::Value, Self::State>
        requires { right self.now ≡ 2 }
        ensures { result.now ≡ value self.now };

    /// The pair of a taken slot, its value lent in place.
    fn lend(&mut self, position: usize) -> (&Self::Key, &mut Self::Value)
        requires right { right self.old ≡ 2 }
        requires taken { IsSome (slot (value self.old).slots position) }
        ensures* writes_back { sem 𝓛 (Lends Self.row Self.Value.row self.entry result.1 (with self.old position)) }
        ensures pair { slot (value self.old).slots position ≡ Some (deref_pair_mut result) }
        ensures keeps { KeepsTag (by Self.Key.Hash Self.State.BuildHasher Self.State.Hasher.Hasher) (tag self.old) (value self.old) position };

    /// Ends the hold: the lock is free. Returns its word as it was.
    fn release(self) -> u64
        requires { right self ≡ 2 }
        ensures left { LeftBehind (value self) };

    ghost with_right: { (h : Self) (i : ℕ) (w : Self.Value) → right (with h i w) ≡ right h };

    ghost with_tag: { (h : Self) (i : ℕ) (w : Self.Value) → tag (with h i w) ≡ tag h };

    ghost with_value: { (h : Self) (i : ℕ) (w : Self.Value) → value (with h i w) ≡ with_value_in (value h) i w };
}

impl<'a, K: Eq + Hash, V, S: BuildHasher> Holds for Hold<'a, Shard<K, V, S>> {
    type Key = K;

    type Value = V;

    type State = S;

    type Lock = &'a RwLock<Shard<K, V, S>>;

    ghost use Rattle.dash_shard.specs.inner.Locks.Lending.{with_held};

    ghost right = { λ h. h.right };

    ghost tag = { λ h. h.tag };

    ghost value = { λ h. h.value };

    ghost with = { λ h i w. with_held h (with_value_in h.value i w) };

    ghost with_right = { λ _ _ _. refl };

    ghost with_tag = { λ _ _ _. refl };

    ghost with_value = { λ _ _ _. refl };

    #[inline]
    fn get(&self) -> &Shard<K, V, S> {
        Hold::get(self)
    }

    #[inline]
    fn lend(&mut self, position: usize) -> (&K, &mut V) {
        Hold::lend(self, position)
    }

    #[inline]
    fn release(self) -> u64 {
        self.open()
    }
}

/// The hold of a guard that writes.
pub type Writing<'a, K, V, S> = Hold<'a, Shard<K, V, S>>;

/// A lock, as a hold of it sees it that ends.
pub trait Wakes {
    /// Wakes who sleeps, after the release of a hold to write that found this word.
    fn wake(self, found: u64);
}

impl<T: Tagged> Wakes for &RwLock<T> {
    #[inline]
    fn wake(self, found: u64) {
        RwLock::wake(self, found);
    }
}
