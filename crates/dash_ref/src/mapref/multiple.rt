//! References to the pairs that a walk gives.
ghost use Rattle.std.specs.Prelude.{[], ◌≡◌, IsSome};
ghost use Rattle.std.specs.Borrow.{Lends, sem};
ghost use Rattle.std.specs.Map.Iter.{deref_pair, deref_pair_mut};
ghost use Rattle.dash_ref.specs.Words.{IsShard, Stands, by, lent_pair, lent_value, pair_of, slot, with_lent_value};

use dash_shard::hash::FixedState;
use dash_shard::keyed::{Keyed, Lender};
use dash_shard::lock::RwLockReadGuard;
use dash_shard::shard::Shard;
use std::fmt;
use std::hash::{BuildHasher, Hash};
use std::marker::{Model, PhantomData};
use std::ops::{Deref, DerefMut};
use std::rc::Rc;
use std::snapshot::Snapshot;

/// A pair of a map, and a share in its walk's hold of the shard for reading, as the original's `RefMulti`: the hold ends when the walk has
/// gone on, or was dropped, and each reference to a pair of the shard was dropped. Till then the pair stays as it is.
///
/// The share is an `Rc`, where the original has an `Arc`, since a walk stays in its thread. As with `Ref`, this has the pair's position in
/// the held shard, and reads the pair there without a look-up; the snapshots have no bytes. No call takes memory or waits, nor does the
/// drop. A contract sees it as the held shard, the position, and the key and value there.
pub struct RefMulti<'a, K: Eq + Hash, V, S: BuildHasher = FixedState> {
    guard: Rc<RwLockReadGuard<'a, Shard<K, V, S>>>,
    position: usize,
    key: Snapshot<K>,
    value: Snapshot<V>,
    // It says that the shard outlives `'a`, which no type inside an `Rc` does: a list of these is dropped by it.
    marker: PhantomData<&'a Shard<K, V, S>>,
}

impl<'a, K: Eq + Hash, V, S: BuildHasher> Model for RefMulti<'a, K, V, S> {
    ghost use Rattle.std.specs.Prelude.{◌≡◌, Some};
    ghost use Rattle.dash_shard.specs.Shard.{slot};
    ghost use Rattle.dash_ref.specs.Ref.{RefState};
    ghost use Rattle.dash_ref.specs.inner.Codes.{ref_code};

    ghost Value = { RefState K V S };

    ghost coded = { ref_code K.code V.code S.code };

    ghost view = { λ s. record { shard = s.guard.value.value; position = s.position; key = s.key.value; value = s.value.value } };

    ghost invariant = { λ s. slot s.guard.value.value.slots s.position ≡ Some (s.key.value, s.value.value) };
}

impl<K: Eq + Hash, V, S: BuildHasher> Keyed for RefMulti<'_, K, V, S> {
    type Key = K;

    type State = S;

    ghost by = { by K.Hash S.BuildHasher S.Hasher.Hasher };
}

impl<K: Eq + Hash, V, S: BuildHasher> Drop for RefMulti<'_, K, V, S> {
    #[inline]
    fn drop(self) {
        let Self {
            guard,
            position: _,
            key: _,
            value: _,
            marker: _,
        } = self;
        drop(guard);
    }
}

impl<'a, K: Eq + Hash, V, S: BuildHasher> RefMulti<'a, K, V, S> {
    /// The pair at a taken slot of the shard that the guard holds. For the crates here alone.
    #[inline]
    pub fn new(
        guard: Rc<RwLockReadGuard<'a, Shard<K, V, S>>>,
        position: usize,
    ) -> RefMulti<'a, K, V, S>
        requires { IsSome (slot guard.value.value.slots position) }
        ensures shard { result.shard ≡ guard.entry.value.value }
        ensures position { result.position ≡ position }
        ensures stands { Stands result }
    {
        let (key, value) = guard.as_ref().at(position);
        let key = Snapshot::of(key);
        let value = Snapshot::of(value);
        RefMulti {
            guard,
            position,
            key,
            value,
            marker: PhantomData,
        }
    }

    /// The key that is stored.
    #[inline]
    pub fn key(&self) -> &K
        ensures key { result.now ≡ self.now.key }
        ensures stands { Stands self.now }
        ensures lawful { IsShard ⟦<Self as Keyed>⟧.by self.now.shard }
    {
        self.pair().0
    }

    /// The value.
    #[inline]
    pub fn value(&self) -> &V
        ensures value { result.now ≡ self.now.value }
        ensures stands { Stands self.now }
        ensures lawful { IsShard ⟦<Self as Keyed>⟧.by self.now.shard }
    {
        self.pair().1
    }

    /// Key and value, of one read of the slot.
    #[inline]
    pub fn pair(&self) -> (&K, &V)
        ensures pair { deref_pair result ≡ pair_of self.now }
        ensures stands { Stands self.now }
        ensures lawful { IsShard ⟦<Self as Keyed>⟧.by self.now.shard }
    {
        self.guard.as_ref().at(self.position)
    }
}

impl<K: Eq + Hash, V, S: BuildHasher> Deref for RefMulti<'_, K, V, S> {
    type Target = V;

    ghost deref_gives = { λ found value. value ≡ found.value };

    #[inline]
    fn deref(&self) -> &V {
        self.value()
    }
}

/// `RefMulti { k: 1, v: 2 }`, which the original hasn't.
impl<K: Eq + Hash + fmt::Debug, V: fmt::Debug, S: BuildHasher> fmt::Debug
    for RefMulti<'_, K, V, S> {
    fn fmt<W: fmt::Write>(&self, f: &mut fmt::Formatter<W>) -> fmt::Result {
        let (key, value) = self.pair();
        f.debug_struct("RefMulti")
            .field("k", key)
            .field("v", value)
            .finish()
    }
}

/// A pair that a walk lends, its value to be written, as the original's `RefMutMulti`. The walk has the hold of the pair's shard, if there
/// is one, and can't go on while this is there.
///
/// No call takes memory or waits. A contract sees it as the pair, `lent_pair`, and the loan of the value, `lent_value`.
#[derive(Drop)]
pub struct RefMutMulti<'a, K, V> {
    key: &'a K,
    value: &'a mut V,
}

impl<K, V> Lender for RefMutMulti<'_, K, V> {
    ghost use mir.Syntax.{named};
    ghost use Rattle.dash_ref.specs.contracts.mapref.multiple.RefMutMulti.{the_row};

    ghost row = { the_row (record { mir = named 1; lft = [] }) K.row V.row };
}

impl<'a, K, V> RefMutMulti<'a, K, V> {
    /// The pair of a key and a value that are lent. For the crates here alone.
    #[inline]
    pub fn new(key: &'a K, value: &'a mut V) -> RefMutMulti<'a, K, V>
        ensures pair { lent_pair result ≡ (key.now, value.old) }
        ensures loan { (lent_value result).ghost_name ≡ value.entry.ghost_name }
    {
        RefMutMulti { key, value }
    }

    /// The key that is stored.
    #[inline]
    pub fn key(&self) -> &K
        ensures { result.now ≡ (lent_pair self.now).0 }
    {
        self.key
    }

    /// The value.
    #[inline]
    pub fn value(&self) -> &V
        ensures { result.now ≡ (lent_pair self.now).1 }
    {
        self.value
    }

    /// The value, to be written.
    #[inline]
    pub fn value_mut(&mut self) -> &mut V
        ensures* writes_back { sem 𝓛 (Lends ⟦<Self as Lender>⟧.row V.row self.entry result (with_lent_value self.old)) }
        ensures value { result.now ≡ (lent_pair self.old).1 }
    {
        &mut *self.value
    }

    /// Key and value.
    #[inline]
    pub fn pair(&self) -> (&K, &V)
        ensures { deref_pair result ≡ lent_pair self.now }
    {
        (self.key, self.value)
    }

    /// Key and value, the value to be written.
    #[inline]
    pub fn pair_mut(&mut self) -> (&K, &mut V)
        ensures* writes_back { sem 𝓛 (Lends ⟦<Self as Lender>⟧.row V.row self.entry result.1 (with_lent_value self.old)) }
        ensures pair { deref_pair_mut result ≡ lent_pair self.old }
    {
        (self.key, &mut *self.value)
    }
}

impl<K, V> Deref for RefMutMulti<'_, K, V> {
    type Target = V;

    ghost deref_gives = { λ r value. value ≡ (lent_pair r).1 };

    #[inline]
    fn deref(&self) -> &V {
        self.value()
    }
}

impl<K, V> DerefMut for RefMutMulti<'_, K, V> {
    ghost use Rattle.std.specs.Prelude.{◌≡◌};
    ghost use Rattle.dash_ref.specs.Multi.{lent_pair};

    ghost deref_mut_gives = { λ r value. value ≡ (lent_pair r).1 };

    #[inline]
    fn deref_mut(&mut self) -> &mut V
        ensures* writes_back { sem 𝓛 (Lends ⟦<Self as Lender>⟧.row V.row self.entry result (with_lent_value self.old)) }
        ensures value { result.now ≡ (lent_pair self.old).1 }
    {
        self.value_mut()
    }
}

/// `RefMutMulti { k: 1, v: 2 }`, which the original hasn't.
impl<K: fmt::Debug, V: fmt::Debug> fmt::Debug for RefMutMulti<'_, K, V> {
    fn fmt<W: fmt::Write>(&self, f: &mut fmt::Formatter<W>) -> fmt::Result {
        f.debug_struct("RefMutMulti")
            .field("k", self.key)
            .field("v", self.value())
            .finish()
    }
}
