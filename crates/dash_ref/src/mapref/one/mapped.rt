//! A reference to a part of a value.
ghost use Rattle.std.specs.Prelude.{◌≡◌, ◌↔◌, IsSome, Some, IfOk, IfErr, IsOk, option_and_then};
ghost use Rattle.dash_ref.specs.Words.{GivenBack};

use super::Ref;
use super::projection::{Compose, Projection};
use std::convert::AsRef;
use std::fmt;
use std::hash::{BuildHasher, Hash};
use std::ops::Deref;

/// A part of the value of a pair, and a hold of the pair's shard for reading, as the original's `MappedRef`.
///
/// It is the reference that was mapped, which ends with it, and the projection, which takes the place of the original's type of the part.
pub struct MappedRef<'a, K: Eq + Hash, V, S: BuildHasher, P: Projection<V>> {
    pub guard: Ref<'a, K, V, S>,
    pub by: P,
    ghost holds: { IsSome (P.part by guard.value) },
}

impl<K: Eq + Hash, V, S: BuildHasher, P: Projection<V> + Drop> Drop for MappedRef<'_, K, V, S, P> {
    #[inline]
    fn drop(self)
        ensures back { GivenBack self.entry.guard.shard }
    {
        let Self { guard, by: _ } = self;
        drop(guard);
    }
}

impl<'a, K: Eq + Hash, V, S: BuildHasher> Ref<'a, K, V, S> {
    /// A reference to a part that the value has.
    #[inline]
    pub fn map<P: Projection<V>>(self, by: P) -> MappedRef<'a, K, V, S, P>
        requires { IsSome (P.part by self.value) }
        ensures guard { result.guard ≡ self.entry }
        ensures by { result.by ≡ by }
    {
        MappedRef { guard: self, by }
    }

    /// A reference to a part of the value, or this one again, where the value hasn't got it.
    #[inline]
    pub fn try_map<P: Projection<V> + Drop>(self, by: P) -> Result<MappedRef<'a, K, V, S, P>, Self>
        ensures mapped { IfOk result (λ mapped. (mapped.guard ≡ self.entry) × (mapped.by ≡ by)) }
        ensures back { IfErr result (λ guard. guard ≡ self.entry) }
        ensures exact { IsOk result ↔ IsSome (P.part by self.entry.value) }
    {
        if by.holds(self.value()) {
            Ok(MappedRef { guard: self, by })
        } else {
            Err(self)
        }
    }
}

impl<'a, K: Eq + Hash, V, S: BuildHasher, P: Projection<V>> MappedRef<'a, K, V, S, P> {
    /// The key that is stored.
    #[inline]
    pub fn key(&self) -> &K
        ensures { result.now ≡ self.now.guard.key }
    {
        self.guard.key()
    }

    /// The part.
    #[inline]
    pub fn value(&self) -> &P::Target
        ensures { Some result.now ≡ P.part self.now.by self.now.guard.value }
    {
        self.by.get(self.guard.value())
    }

    /// Key and part.
    #[inline]
    pub fn pair(&self) -> (&K, &P::Target)
        ensures key { result.0.now ≡ self.now.guard.key }
        ensures value { Some result.1.now ≡ P.part self.now.by self.now.guard.value }
    {
        (self.key(), self.value())
    }

    /// A reference to a part that the part has.
    #[inline]
    pub fn map<Q: Projection<P::Target>>(self, by: Q) -> MappedRef<'a, K, V, S, Compose<P, Q>>
        requires { IsSome (option_and_then (Q.part by) (P.part self.by self.guard.value)) }
        ensures guard { result.guard ≡ self.entry.guard }
        ensures by { result.by ≡ record { outer = self.entry.by; inner = by } }
    {
        let MappedRef { guard, by: outer } = self;
        guard.map(Compose { outer, inner: by })
    }

    /// A reference to a part of the part, or this one again, where the part hasn't got it.
    #[inline]
    pub fn try_map<Q: Projection<P::Target> + Drop>(
        self,
        by: Q,
    ) -> Result<MappedRef<'a, K, V, S, Compose<P, Q>>, Self>
        ensures mapped { IfOk result (λ mapped. (mapped.guard ≡ self.entry.guard) × (mapped.by ≡ record { outer = self.entry.by; inner = by })) }
        ensures back { IfErr result (λ mapped. (mapped.guard ≡ self.entry.guard) × (mapped.by ≡ self.entry.by)) }
        ensures exact { IsOk result ↔ IsSome (option_and_then (Q.part by) (P.part self.entry.by self.entry.guard.value)) }
    {
        if by.holds(self.value()) {
            let MappedRef { guard, by: outer } = self;
            Ok(guard.map(Compose { outer, inner: by }))
        } else {
            Err(self)
        }
    }
}

impl<K: Eq + Hash, V, S: BuildHasher, P: Projection<V>> Deref for MappedRef<'_, K, V, S, P> {
    type Target = P::Target;

    ghost deref_gives = { λ mapped part. Some part ≡ P.part mapped.by mapped.guard.value };

    #[inline]
    fn deref(&self) -> &P::Target {
        self.value()
    }
}

/// `MappedRef { k: 1, v: 2 }`.
impl<K: Eq + Hash + fmt::Debug, V, S: BuildHasher, P: Projection<V>> fmt::Debug
    for MappedRef<'_, K, V, S, P>
where
    P::Target: fmt::Debug,
{
    fn fmt<W: fmt::Write>(&self, f: &mut fmt::Formatter<W>) -> fmt::Result {
        f.debug_struct("MappedRef")
            .field("k", self.key())
            .field("v", self.value())
            .finish()
    }
}

/// As the part's.
impl<K: Eq + Hash, V, S: BuildHasher, P: Projection<V>> fmt::Display for MappedRef<'_, K, V, S, P>
where
    P::Target: fmt::Display,
{
    ghost use Rattle.std.specs.Prelude.{option_and_then};

    ghost output = { λ mapped. option_and_then P.Target.output (P.part mapped.by mapped.guard.value) };

    ghost styled_output = { λ mapped style. option_and_then (λ part. P.Target.styled_output part style) (P.part mapped.by mapped.guard.value) };

    fn fmt<W: fmt::Write>(&self, f: &mut fmt::Formatter<W>) -> fmt::Result {
        self.value().fmt(f)
    }
}

impl<T, K: Eq + Hash, V, S: BuildHasher, P: Projection<V>> AsRef<T> for MappedRef<'_, K, V, S, P>
where
    P::Target: AsRef<T>,
{
    #[inline]
    fn as_ref(&self) -> &T {
        self.value().as_ref()
    }
}
