//! A map that threads share, with the right to wait: the operators of the original stand on it.
ghost use Rattle.std.specs.Prelude.{◌≡◌, ⊤, is_some};
ghost use Rattle.dash_map.specs.Words.{Inserts, IsGot, IsGotMut, LeavesShard, Removes, SawAt, at_start, by};

use crate::iter::Iter;
use crate::map::DashMap;
use dash_ref::mapref::multiple::RefMulti;
use dash_ref::mapref::one::{Ref, RefMut};
use dash_shard::keyed::Keyed;
use dash_shard::query::Query;
use dash_shard::shard::InsertRefused;
use std::alloc::AllocError;
use std::fmt;
use std::hash::{BuildHasher, Hash};
use std::ops::{BitAnd, BitOr, Shl, Shr, Sub};
use std::rt::Clock;
use std::sync::Wait;

/// A shared map, and the right to wait for its locks.
///
/// The original has its operators on `&DashMap`; here their signatures have no place for the right to wait.
#[derive(Drop)]
pub struct Waiting<'a, K: Eq + Hash, V, S: BuildHasher, R: Wait + Clock> {
    pub map: &'a DashMap<K, V, S>,
    pub rt: &'a R,
}

impl<K: Eq + Hash, V, S: BuildHasher, R: Wait + Clock> Copy for Waiting<'_, K, V, S, R> {}

impl<K: Eq + Hash, V, S: BuildHasher, R: Wait + Clock> Clone for Waiting<'_, K, V, S, R> {
    ghost is_clone = { λ w copy. copy ≡ w };

    ghost is_infallible = { λ _. ⊤ };

    #[inline]
    fn clone(&self) -> Result<Self, AllocError> {
        Ok(*self)
    }
}

impl<K: Eq + Hash, V, S: BuildHasher> DashMap<K, V, S> {
    /// The map with the right to wait, for the operators.
    #[inline]
    pub fn waiting<'a, R: Wait + Clock>(&'a self, rt: &'a R) -> Waiting<'a, K, V, S, R>
        ensures { result.map.now ≡ self.now }
    {
        Waiting { map: self, rt }
    }
}

/// `map << (key, value)`: as `DashMap::insert`.
impl<K: Eq + Hash + Drop, V: Drop, S: BuildHasher, R: Wait + Clock> Shl<(K, V)>
    for Waiting<'_, K, V, S, R> {
    type Output = Result<Option<V>, InsertRefused<K, V>>;

    ghost shl_gives = { λ w pair result. LeavesShard (by K.Hash S.BuildHasher S.Hasher.Hasher) w.map.now pair.0 (λ s t. Inserts K.eq s t pair.0 pair.1 result) };

    #[inline]
    fn shl(self, pair: (K, V)) -> Result<Option<V>, InsertRefused<K, V>> {
        self.map.insert(self.rt, pair.0, pair.1)
    }
}

/// `map >> &key`: as `DashMap::get`. Where there is no such pair the original panics.
impl<'a, K: Eq + Hash, V, S: BuildHasher, R: Wait + Clock, Q: Query<K>> Shr<Q>
    for Waiting<'a, K, V, S, R> {
    type Output = Option<Ref<'a, K, V, S>>;

    ghost shr_gives = { λ w key result. IsGot (by K.Hash S.BuildHasher S.Hasher.Hasher) w.map.now (Q.names key) result };

    #[inline]
    fn shr(self, key: Q) -> Option<Ref<'a, K, V, S>> {
        self.map.get(self.rt, key)
    }
}

/// `map | &key`: as `DashMap::get_mut`. Where there is no such pair the original panics.
impl<'a, K: Eq + Hash, V, S: BuildHasher, R: Wait + Clock, Q: Query<K>> BitOr<Q>
    for Waiting<'a, K, V, S, R> {
    type Output = Option<RefMut<'a, K, V, S>>;

    ghost bitor_gives = { λ w key result. IsGotMut (by K.Hash S.BuildHasher S.Hasher.Hasher) w.map.now (Q.names key) result };

    #[inline]
    fn bitor(self, key: Q) -> Option<RefMut<'a, K, V, S>> {
        self.map.get_mut(self.rt, key)
    }
}

/// `map - &key`: as `DashMap::remove`.
impl<K: Eq + Hash, V, S: BuildHasher, R: Wait + Clock, Q: Query<K>> Sub<Q>
    for Waiting<'_, K, V, S, R> {
    type Output = Option<(K, V)>;

    ghost sub_gives = { λ w key result. Removes (by K.Hash S.BuildHasher S.Hasher.Hasher) w.map.now (Q.names key) result };

    #[inline]
    fn sub(self, key: Q) -> Option<(K, V)> {
        self.map.remove(self.rt, key)
    }
}

/// `map & &key`: as `DashMap::contains_key`.
impl<K: Eq + Hash, V, S: BuildHasher, R: Wait + Clock, Q: Query<K>> BitAnd<Q>
    for Waiting<'_, K, V, S, R> {
    type Output = bool;

    ghost bitand_gives = { λ w key result. SawAt {V = V} (by K.Hash S.BuildHasher S.Hasher.Hasher) w.map.now (Q.names key) (λ p. result ≡ is_some p) };

    #[inline]
    fn bitand(self, key: Q) -> bool {
        self.map.contains_key(self.rt, key)
    }
}

/// `for pair in map`: as `DashMap::iter`.
impl<'a, K: Eq + Hash, V, S: BuildHasher, R: Wait + Clock> IntoIterator
    for Waiting<'a, K, V, S, R> {
    type Item = Result<RefMulti<'a, K, V, S>, AllocError>;

    type IntoIter = Iter<'a, K, V, S, R>;

    ghost into_iter_gives = { λ w walk. walk ≡ at_start w.map.now };

    #[inline]
    fn into_iter(self) -> Iter<'a, K, V, S, R> {
        self.map.iter(self.rt)
    }
}

/// The pairs in the order of a walk, as `{0: 5, 1: 6}`. It holds one shard after the other, and is an error where the walk finds no
/// memory.
impl<K: Eq + Hash + fmt::Debug, V: fmt::Debug, S: BuildHasher, R: Wait + Clock> fmt::Debug
    for Waiting<'_, K, V, S, R> {
    fn fmt<W: fmt::Write>(&self, f: &mut fmt::Formatter<W>) -> fmt::Result {
        let mut out = f.debug_map();
        for pair in *self {
            let Ok(pair) = pair else {
                return Err(fmt::Error);
            };
            out.entry(pair.key(), pair.value());
        }
        out.finish()
    }
}
