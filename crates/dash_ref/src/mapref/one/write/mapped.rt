//! A reference to a part of a value that may be written.
ghost use Rattle.std.specs.Prelude.{[], ◌≡◌, ◌↔◌, IsSome, Some, IfOk, IfErr, IsOk, option_and_then};
ghost use Rattle.std.specs.Option.{option_map};
ghost use Rattle.std.specs.Borrow.{Lends, sem};
ghost use Rattle.dash_ref.specs.Words.{LeftBehind, part_in, stored, with_part};

use super::{HeldRef, RefMut};
use crate::held::ShardMut;
use crate::held::holds::{Holds, Writing};
use crate::mapref::one::projection::{Compose, Projection};
use dash_shard::keyed::Lender;
use dash_shard::lock::RwLock;
use dash_shard::shard::Shard;
use std::fmt;
use std::hash::{BuildHasher, Hash};
use std::marker::Model;
use std::ops::{Deref, DerefMut};

/// A part of the value of a pair, and a hold of the pair's shard for writing, as the original's `MappedRefMut`.
///
/// It is the reference that was mapped, which ends with it, and the projection, which takes the place of the original's type of the part.
pub struct HeldMappedRef<
    K: Eq + Hash,
    V,
    S: BuildHasher,
    P: Projection<V>,
    H: Holds<Key = K, Value = V, State = S>,
> {
    guard: HeldRef<K, V, S, H>,
    by: P,
}

/// The original's `MappedRefMut`.
pub type MappedRefMut<'a, K, V, S, P> = HeldMappedRef<K, V, S, P, Writing<'a, K, V, S>>;

impl<
    K: Eq + Hash,
    V,
    S: BuildHasher,
    P: Projection<V>,
    H: Holds<Key = K, Value = V, State = S>,
> Model for HeldMappedRef<K, V, S, P, H> {
    ghost use Rattle.std.specs.Prelude.{IsSome};
    ghost use Rattle.dash_ref.specs.RefMut.{MappedRefMutState, part_in};
    ghost use Rattle.dash_ref.specs.inner.RefMut.{mapped_mut_code};

    ghost Value = { MappedRefMutState K V S P };

    ghost coded = { mapped_mut_code K.code V.code S.code P.code };

    ghost view = { λ m. record { guard = m.guard; by = m.by } };

    ghost invariant = { λ m. IsSome (part_in (P.part m.by) m.guard) };
}

impl<
    K: Eq + Hash,
    V,
    S: BuildHasher,
    P: Projection<V>,
    H: Holds<Key = K, Value = V, State = S>,
> Lender for HeldMappedRef<K, V, S, P, H> {
    ghost use Rattle.dash_ref.specs.contracts.mapref.one.write.mapped.HeldMappedRef.{the_row};

    ghost row = { the_row K.row V.row S.row P.row H.row S.Hasher.row P.Target.row H.Lock.row (record { eq = K.eq }) (record { hash_input = K.hash_input }) S.BuildHasher S.Hasher.Hasher P.Projection H.Holds };
}

impl<
    K: Eq + Hash,
    V,
    S: BuildHasher,
    P: Projection<V> + Drop,
    H: Holds<Key = K, Value = V, State = S>,
> Drop for HeldMappedRef<K, V, S, P, H> {
    #[inline]
    fn drop(self)
        ensures left { LeftBehind self.guard.shard }
    {
        let Self { guard, by: _ } = self;
        drop(guard);
    }
}

impl<'a, K: Eq + Hash, V, S: BuildHasher> RefMut<'a, K, V, S> {
    /// A reference to a part that the value has.
    #[inline]
    pub fn map<P: Projection<V>>(self, by: P) -> MappedRefMut<'a, K, V, S, P>
        requires { IsSome (part_in (P.part by) self) }
        ensures { result ≡ record { guard = self.entry; by = by } }
    {
        HeldMappedRef { guard: self, by }
    }

    /// A reference to a part of the value, or this one again, where the value hasn't got it.
    #[inline]
    pub fn try_map<P: Projection<V> + Drop>(
        self,
        by: P,
    ) -> Result<MappedRefMut<'a, K, V, S, P>, Self>
        ensures mapped { IfOk result (λ mapped. mapped ≡ record { guard = self.entry; by = by }) }
        ensures back { IfErr result (λ guard. guard ≡ self.entry) }
        ensures exact { IsOk result ↔ IsSome (part_in (P.part by) self.entry) }
    {
        if by.holds(self.pair().1) {
            Ok(self.map(by))
        } else {
            Err(self)
        }
    }
}

impl<'a, K: Eq + Hash, V, S: BuildHasher, P: Projection<V>> MappedRefMut<'a, K, V, S, P> {
    /// The shard as this leaves it, held on. The original has no such call.
    #[inline]
    pub fn into_shard(self) -> ShardMut<'a, K, V, S>
    where
        P: Drop,
        ensures { result ≡ self.entry.guard.shard }
    {
        let Self { guard, by: _ } = self;
        guard.into_shard()
    }

    /// A reference to a part that the part has.
    #[inline]
    pub fn map<Q: Projection<P::Target>>(self, by: Q) -> MappedRefMut<'a, K, V, S, Compose<P, Q>>
        requires { IsSome (option_and_then (Q.part by) (part_in (P.part self.by) self.guard)) }
        ensures { result ≡ record { guard = self.entry.guard; by = record { outer = self.entry.by; inner = by } } }
    {
        let Self { guard, by: outer } = self;
        HeldMappedRef {
            guard,
            by: Compose { outer, inner: by },
        }
    }

    /// A reference to a part of the part, or this one again, where the part hasn't got it.
    #[inline]
    pub fn try_map<Q: Projection<P::Target> + Drop>(
        self,
        by: Q,
    ) -> Result<MappedRefMut<'a, K, V, S, Compose<P, Q>>, Self>
        ensures mapped { IfOk result (λ mapped. mapped ≡ record { guard = self.entry.guard; by = record { outer = self.entry.by; inner = by } }) }
        ensures back { IfErr result (λ mapped. mapped ≡ self.entry) }
        ensures exact { IsOk result ↔ IsSome (option_and_then (Q.part by) (part_in (P.part self.entry.by) self.entry.guard)) }
    {
        if by.holds(self.value()) {
            Ok(self.map(by))
        } else {
            Err(self)
        }
    }
}

impl<
    K: Eq + Hash,
    V,
    S: BuildHasher,
    P: Projection<V>,
    H: Holds<Key = K, Value = V, State = S>,
> HeldMappedRef<K, V, S, P, H> {
    /// The key that is stored.
    #[inline]
    pub fn key(&self) -> &K
        ensures { option_map (λ p. p.0) (stored self.now.guard) ≡ Some result.now }
    {
        self.guard.key()
    }

    /// The part.
    #[inline]
    pub fn value(&self) -> &P::Target
        ensures { part_in (P.part self.now.by) self.now.guard ≡ Some result.now }
    {
        self.by.get(self.guard.value())
    }

    /// The part, to be written. A write changes the value as the projection says, and no other pair.
    #[inline]
    pub fn value_mut(&mut self) -> &mut P::Target
        ensures* writes_back { sem 𝓛 (Lends ⟦<Self as Lender>⟧.row P.Target.row self.entry result
            (λ t. record self.old { guard = with_part (P.with self.old.by) self.old.guard t })) }
        ensures value { part_in (P.part self.old.by) self.old.guard ≡ Some result.now }
    {
        self.pair_mut().1
    }

    /// Key and part.
    #[inline]
    pub fn pair(&self) -> (&K, &P::Target)
        ensures key { option_map (λ p. p.0) (stored self.now.guard) ≡ Some result.0.now }
        ensures value { part_in (P.part self.now.by) self.now.guard ≡ Some result.1.now }
    {
        (self.key(), self.value())
    }

    /// Key and part, the part to be written as by `value_mut`.
    #[inline]
    pub fn pair_mut(&mut self) -> (&K, &mut P::Target)
        ensures* writes_back { sem 𝓛 (Lends ⟦<Self as Lender>⟧.row P.Target.row self.entry result.1
            (λ t. record self.old { guard = with_part (P.with self.old.by) self.old.guard t })) }
        ensures key { option_map (λ p. p.0) (stored self.old.guard) ≡ Some result.0.now }
        ensures value { part_in (P.part self.old.by) self.old.guard ≡ Some result.1.now }
    {
        let (key, value) = self.guard.pair_mut();
        (key, P::get_mut(value, &self.by))
    }
}

impl<
    K: Eq + Hash,
    V,
    S: BuildHasher,
    P: Projection<V>,
    H: Holds<Key = K, Value = V, State = S>,
> Deref for HeldMappedRef<K, V, S, P, H> {
    type Target = P::Target;

    ghost deref_gives = { λ m part. part_in (P.part m.by) m.guard ≡ Some part };

    #[inline]
    fn deref(&self) -> &P::Target {
        self.value()
    }
}

impl<
    K: Eq + Hash,
    V,
    S: BuildHasher,
    P: Projection<V>,
    H: Holds<Key = K, Value = V, State = S>,
> DerefMut for HeldMappedRef<K, V, S, P, H> {
    ghost use Rattle.std.specs.Prelude.{◌≡◌, Some};
    ghost use Rattle.dash_ref.specs.RefMut.{part_in};

    ghost deref_mut_gives = { λ m part. part_in (P.part m.by) m.guard ≡ Some part };

    #[inline]
    fn deref_mut(&mut self) -> &mut P::Target
        ensures* writes_back { sem 𝓛 (Lends ⟦<Self as Lender>⟧.row P.Target.row self.entry result
            (λ t. record self.old { guard = with_part (P.with self.old.by) self.old.guard t })) }
        ensures value { part_in (P.part self.old.by) self.old.guard ≡ Some result.now }
    {
        self.value_mut()
    }
}

/// `MappedRefMut { k: 1, v: 2 }`.
impl<
    K: Eq + Hash + fmt::Debug,
    V,
    S: BuildHasher,
    P: Projection<V>,
    H: Holds<Key = K, Value = V, State = S>,
> fmt::Debug for HeldMappedRef<K, V, S, P, H>
where
    P::Target: fmt::Debug,
{
    fn fmt<W: fmt::Write>(&self, f: &mut fmt::Formatter<W>) -> fmt::Result {
        f.debug_struct("MappedRefMut")
            .field("k", self.key())
            .field("v", self.value())
            .finish()
    }
}
