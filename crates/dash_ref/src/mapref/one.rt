//! A reference to one pair.
ghost use Rattle.std.specs.Prelude.{◌≡◌, ◌↔◌, IsTrue, IsSome, IfSome, IsNone, IfNone, None};
ghost use Rattle.std.specs.Option.{option_map};
ghost use Rattle.std.specs.Map.Iter.{deref_pair};
ghost use Rattle.dash_ref.specs.Words.{Get, GivenBack, IsHashOf, IsShard, Pair, RepliesOn, Stands, at, at_named, by, pair_of, pairs, slot};

use dash_shard::hash::FixedState;
use dash_shard::keyed::Keyed;
use dash_shard::lock::RwLockReadGuard;
use dash_shard::query::Query;
use dash_shard::shard::Shard;
pub use mapped::MappedRef;
pub use parts::{First, Payload, Second};
pub use projection::{Compose, Projection};
use std::fmt;
use std::hash::{BuildHasher, Hash};
use std::marker::Model;
use std::ops::Deref;
use std::snapshot::Snapshot;
pub use write::{HeldRef, MappedRefMut, RefMut};

mod mapped;
mod parts;
mod projection;
mod write;

/// A pair of a map, and a hold of its shard's lock for reading, as the original's `Ref`: the hold ends when this is dropped, and till
/// then the pair stays as it is.
///
/// The original points to key and value. This has the pair's position in the held shard, and reads the pair there without a look-up; the
/// snapshots have no bytes. No call takes memory or waits, nor does the drop. Meanwhile others may read the shard, and whoever wants to
/// write it waits: a thread that has this and waits to write a key of the same shard waits for itself. A contract sees it as the held
/// shard, the position, and the key and value there.
pub struct Ref<'a, K: Eq + Hash, V, S: BuildHasher = FixedState> {
    guard: RwLockReadGuard<'a, Shard<K, V, S>>,
    position: usize,
    key: Snapshot<K>,
    value: Snapshot<V>,
}

impl<'a, K: Eq + Hash, V, S: BuildHasher> Model for Ref<'a, K, V, S> {
    ghost use Rattle.std.specs.Prelude.{◌≡◌, Some};
    ghost use Rattle.dash_shard.specs.Shard.{slot};
    ghost use Rattle.dash_ref.specs.Ref.{RefState};
    ghost use Rattle.dash_ref.specs.inner.Codes.{ref_code};

    ghost Value = { RefState K V S };

    ghost coded = { ref_code K.code V.code S.code };

    ghost view = { λ s. record { shard = s.guard.value; position = s.position; key = s.key.value; value = s.value.value } };

    ghost invariant = { λ s. slot s.guard.value.slots s.position ≡ Some (s.key.value, s.value.value) };
}

impl<K: Eq + Hash, V, S: BuildHasher> Keyed for Ref<'_, K, V, S> {
    type Key = K;

    type State = S;

    ghost by = { by K.Hash S.BuildHasher S.Hasher.Hasher };
}

impl<K: Eq + Hash, V, S: BuildHasher> Drop for Ref<'_, K, V, S> {
    #[inline]
    fn drop(self)
        ensures back { GivenBack self.entry.shard }
    {
        let Self {
            guard,
            position: _,
            key: _,
            value: _,
        } = self;
        drop(guard);
    }
}

impl<'a, K: Eq + Hash, V, S: BuildHasher> Ref<'a, K, V, S> {
    /// The pair at a taken slot of the shard that the guard holds.
    #[inline]
    pub(crate) fn new(
        guard: RwLockReadGuard<'a, Shard<K, V, S>>,
        position: usize,
    ) -> Ref<'a, K, V, S>
        requires { IsSome (slot guard.value.slots position) }
        ensures shard { result.shard ≡ guard.entry.value }
        ensures position { result.position ≡ position }
        ensures stands { Stands result }
    {
        let (key, value) = guard.at(position);
        let key = Snapshot::of(key);
        let value = Snapshot::of(value);
        Ref {
            guard,
            position,
            key,
            value,
        }
    }

    /// The pair whose key equals `key`, in the shard that the guard holds, for a caller who has the key's hash. Where there is no such
    /// pair, the hold ends. For the crates here alone.
    #[inline]
    pub fn find<Q: Query<K>>(
        guard: RwLockReadGuard<'a, Shard<K, V, S>>,
        hash: u64,
        key: Q,
    ) -> Option<Ref<'a, K, V, S>>
        requires { IsHashOf ⟦<Self as Keyed>⟧.by guard.value.hasher (Q.names key) hash }
        ensures pair { option_map pair_of result ≡ at_named (Q.names key) (pairs guard.entry.value) }
        ensures absent { IsNone result ↔ (at_named (Q.names key) (pairs guard.entry.value) ≡ None) }
        ensures equal { IfSome result (λ found. IsTrue (Q.names key found.key)) }
        ensures shard { IfSome result (λ found. found.shard ≡ guard.entry.value) }
        ensures back { IfNone result (GivenBack guard.entry.value) }
        ensures stands { IfSome result Stands }
    {
        let position = guard.position_of_hashed(hash, key)?;
        Some(Ref::new(guard, position))
    }

    /// The key that is stored.
    #[inline]
    pub fn key(&self) -> &K
        ensures key { result.now ≡ self.now.key }
        ensures stands { Stands self.now }
        ensures lawful { IsShard ⟦<Self as Keyed>⟧.by self.now.shard }
    {
        self.pair().0
    }

    /// The value.
    #[inline]
    pub fn value(&self) -> &V
        ensures value { result.now ≡ self.now.value }
        ensures stands { Stands self.now }
        ensures lawful { IsShard ⟦<Self as Keyed>⟧.by self.now.shard }
    {
        self.pair().1
    }

    /// Key and value, of one read of the slot.
    #[inline]
    pub fn pair(&self) -> (&K, &V)
        ensures pair { deref_pair result ≡ pair_of self.now }
        ensures stands { Stands self.now }
        ensures lawful { IsShard ⟦<Self as Keyed>⟧.by self.now.shard }
    {
        self.guard.at(self.position)
    }
}

impl<K: Eq + Hash, V, S: BuildHasher> Deref for Ref<'_, K, V, S> {
    type Target = V;

    ghost deref_gives = { λ found value. value ≡ found.value };

    #[inline]
    fn deref(&self) -> &V {
        self.value()
    }
}

/// `Ref { k: 1, v: 2 }`: the names are the original's, which prints pointers there.
impl<K: Eq + Hash + fmt::Debug, V: fmt::Debug, S: BuildHasher> fmt::Debug for Ref<'_, K, V, S> {
    fn fmt<W: fmt::Write>(&self, f: &mut fmt::Formatter<W>) -> fmt::Result {
        let (key, value) = self.pair();
        f.debug_struct("Ref")
            .field("k", key)
            .field("v", value)
            .finish()
    }
}
