//! A reference to one pair that may be written.
ghost use Rattle.std.specs.Prelude.{[], ◌≡◌, ◌↔◌, IsSome, IfSome, IsNone, Some, None};
ghost use Rattle.std.specs.Option.{option_map};
ghost use Rattle.std.specs.Borrow.{Lends, sem};
ghost use Rattle.std.specs.Map.Iter.{deref_pair, deref_pair_mut};
ghost use Rattle.dash_ref.specs.Words.{GetsMut, HasNamed, IsHashOf, LeftBehind, Stands, at, at_named, by, pairs, rewritten, slot, stored};

use super::Ref;
use crate::held::holds::{Holds, Writing};
use crate::held::{HeldShard, ShardMut};
use dash_shard::hash::FixedState;
use dash_shard::keyed::{Keyed, Lender};
use dash_shard::lock::RwLock;
use dash_shard::query::Query;
use dash_shard::shard::Shard;
pub use mapped::MappedRefMut;
use std::fmt;
use std::hash::{BuildHasher, Hash};
use std::marker::Model;
use std::ops::{Deref, DerefMut};

mod mapped;

/// A pair of a map, and a hold of its shard's lock for writing, as the original's `RefMut`: the hold ends when this is dropped, and till
/// then the pair changes by this reference's own calls alone.
///
/// The original points to key and value. This has the pair's position in the held shard, and reaches the pair there without a look-up. No
/// call takes memory or waits, nor does the drop. Meanwhile whoever wants the shard waits. A contract sees it as the held shard and the
/// position.
pub struct HeldRef<K: Eq + Hash, V, S: BuildHasher, H: Holds<Key = K, Value = V, State = S>> {
    shard: HeldShard<K, V, S, H>,
    position: usize,
}

/// The original's `RefMut`.
pub type RefMut<'a, K, V, S = FixedState> = HeldRef<K, V, S, Writing<'a, K, V, S>>;

impl<K: Eq + Hash, V, S: BuildHasher, H: Holds<Key = K, Value = V, State = S>> Model
    for HeldRef<K, V, S, H> {
    ghost use Rattle.std.specs.Prelude.{IsSome};
    ghost use Rattle.dash_shard.specs.Shard.{slot};
    ghost use Rattle.dash_ref.specs.RefMut.{RefMutState};
    ghost use Rattle.dash_ref.specs.inner.RefMut.{ref_mut_code};

    ghost Value = { RefMutState K V S };

    ghost coded = { ref_mut_code K.code V.code S.code };

    ghost view = { λ r. record { shard = r.shard; position = r.position } };

    ghost invariant = { λ r. IsSome (slot r.shard.slots r.position) };
}

impl<K: Eq + Hash, V, S: BuildHasher, H: Holds<Key = K, Value = V, State = S>> Keyed
    for HeldRef<K, V, S, H> {
    type Key = K;

    type State = S;

    ghost by = { by K.Hash S.BuildHasher S.Hasher.Hasher };
}

impl<K: Eq + Hash, V, S: BuildHasher, H: Holds<Key = K, Value = V, State = S>> Lender
    for HeldRef<K, V, S, H> {
    ghost use Rattle.dash_ref.specs.contracts.mapref.one.write.HeldRef.{the_row};

    ghost row = { the_row K.row V.row S.row H.row S.Hasher.row H.Lock.row (record { eq = K.eq }) (record { hash_input = K.hash_input }) S.BuildHasher S.Hasher.Hasher H.Holds };
}

impl<K: Eq + Hash, V, S: BuildHasher, H: Holds<Key = K, Value = V, State = S>> Drop
    for HeldRef<K, V, S, H> {
    #[inline]
    fn drop(self)
        ensures left { LeftBehind self.shard }
    {
        let Self { shard, position: _ } = self;
        drop(shard);
    }
}

impl<'a, K: Eq + Hash, V, S: BuildHasher> RefMut<'a, K, V, S> {
    /// The pair at a taken slot of the held shard.
    #[inline]
    pub(crate) fn new(shard: ShardMut<'a, K, V, S>, position: usize) -> RefMut<'a, K, V, S>
        requires { IsSome (slot shard.slots position) }
        ensures { result ≡ record { shard = shard.entry; position = position } }
    {
        HeldRef { shard, position }
    }

    /// The pair whose key equals `key`, in the held shard, for a caller who has the key's hash. Where there is no such pair, the hold ends.
    /// For the crates here alone.
    #[inline]
    pub fn find<Q: Query<K>>(
        shard: ShardMut<'a, K, V, S>,
        hash: u64,
        key: Q,
    ) -> Option<RefMut<'a, K, V, S>>
        requires { IsHashOf ⟦<Self as Keyed>⟧.by shard.hasher (Q.names key) hash }
        ensures gets { GetsMut (Q.names key) shard.entry result }
        ensures absent { IsNone result ↔ (at_named (Q.names key) (pairs shard.entry) ≡ None) }
        ensures equal { IfSome result (λ r. HasNamed (Q.names key) r.shard r.position) }
        ensures shard { IfSome result (λ r. r.shard ≡ shard.entry) }
    {
        let position = shard.position_of_hashed(hash, key)?;
        Some(RefMut::new(shard, position))
    }

    /// The shard as this leaves it, held on. The original has no such call.
    #[inline]
    pub fn into_shard(self) -> ShardMut<'a, K, V, S>
        ensures { result ≡ self.entry.shard }
    {
        self.into_place().0
    }

    /// The same, with the pair's position.
    #[inline]
    pub(crate) fn into_place(self) -> (ShardMut<'a, K, V, S>, usize)
        ensures shard { result.0 ≡ self.entry.shard }
        ensures position { result.1 ≡ self.entry.position }
    {
        let Self { shard, position } = self;
        (shard, position)
    }

    /// The pair as this leaves it, to be read, as the original's `downgrade`, by one atomic step: no other writer comes between. Readers
    /// that wait for the shard are woken.
    #[inline]
    pub fn downgrade(self) -> Ref<'a, K, V, S>
        ensures shard { result.shard ≡ self.entry.shard }
        ensures position { result.position ≡ self.entry.position }
        ensures stands { Stands result }
        ensures left { LeftBehind self.entry.shard }
    {
        let Self { shard, position } = self;
        Ref::new(shard.downgrade(), position)
    }
}

impl<K: Eq + Hash, V, S: BuildHasher, H: Holds<Key = K, Value = V, State = S>> HeldRef<K, V, S, H> {
    /// The key that is stored.
    #[inline]
    pub fn key(&self) -> &K
        ensures { option_map (λ p. p.0) (stored self.now) ≡ Some result.now }
    {
        self.pair().0
    }

    /// The value.
    #[inline]
    pub fn value(&self) -> &V
        ensures { option_map (λ p. p.1) (stored self.now) ≡ Some result.now }
    {
        self.pair().1
    }

    /// The value, to be written.
    #[inline]
    pub fn value_mut(&mut self) -> &mut V
        ensures* writes_back { sem 𝓛 (Lends ⟦<Self as Lender>⟧.row V.row self.entry result (rewritten self.old)) }
        ensures value { option_map (λ p. p.1) (stored self.old) ≡ Some result.now }
    {
        self.pair_mut().1
    }

    /// Key and value, of one read of the slot.
    #[inline]
    pub fn pair(&self) -> (&K, &V)
        ensures { stored self.now ≡ Some (deref_pair result) }
    {
        self.shard.at(self.position)
    }

    /// Key and value, the value to be written.
    #[inline]
    pub fn pair_mut(&mut self) -> (&K, &mut V)
        ensures* writes_back { sem 𝓛 (Lends ⟦<Self as Lender>⟧.row V.row self.entry result.1 (rewritten self.old)) }
        ensures pair { stored self.old ≡ Some (deref_pair_mut result) }
    {
        self.shard.at_mut(self.position)
    }
}

impl<K: Eq + Hash, V, S: BuildHasher, H: Holds<Key = K, Value = V, State = S>> Deref
    for HeldRef<K, V, S, H> {
    type Target = V;

    ghost deref_gives = { λ r value. option_map (λ p. p.1) (stored r) ≡ Some value };

    #[inline]
    fn deref(&self) -> &V {
        self.value()
    }
}

impl<K: Eq + Hash, V, S: BuildHasher, H: Holds<Key = K, Value = V, State = S>> DerefMut
    for HeldRef<K, V, S, H> {
    ghost use Rattle.std.specs.Prelude.{◌≡◌, Some};
    ghost use Rattle.std.specs.Option.{option_map};
    ghost use Rattle.dash_ref.specs.RefMut.{stored};

    ghost deref_mut_gives = { λ r value. option_map (λ p. p.1) (stored r) ≡ Some value };

    #[inline]
    fn deref_mut(&mut self) -> &mut V
        ensures* writes_back { sem 𝓛 (Lends ⟦<Self as Lender>⟧.row V.row self.entry result (rewritten self.old)) }
        ensures value { option_map (λ p. p.1) (stored self.old) ≡ Some result.now }
    {
        self.value_mut()
    }
}

/// `RefMut { k: 1, v: 2 }`.
impl<
    K: Eq + Hash + fmt::Debug,
    V: fmt::Debug,
    S: BuildHasher,
    H: Holds<Key = K, Value = V, State = S>,
> fmt::Debug for HeldRef<K, V, S, H> {
    fn fmt<W: fmt::Write>(&self, f: &mut fmt::Formatter<W>) -> fmt::Result {
        let (key, value) = self.pair();
        f.debug_struct("RefMut")
            .field("k", key)
            .field("v", value)
            .finish()
    }
}
