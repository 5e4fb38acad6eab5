//! A part of a value, which a reference can be mapped to.
ghost use Rattle.std.specs.Prelude.{◌≡◌, ◌↔◌, IsTrue, IsSome, Option, Some, option_and_then};
ghost use Rattle.std.specs.Option.{option_map_or};
ghost use Rattle.std.specs.Borrow.{Lends, sem};
ghost use Rattle.dash_ref.specs.Words.{IsPart};
ghost use Rattle.dash_ref.specs.inner.Parts.{inner_is_part};

/// A part of a value of `V`, where the original's `map` takes a closure: a mapped reference keeps it, and applies it at each access.
///
/// Its meaning is the part of a value, if the value has it, and the value once the part is written.
pub trait Projection<V> {
    /// The part.
    type Target;

    // The part of a value, if it has it.
    ghost part: { Self → V → Option Self.Target };

    // The value with a new part.
    ghost with: { Self → V → Self.Target → V };

    // The laws of a part.
    ghost lawful: { (p : Self) → IsPart (part p) (with p) };

    /// Whether the value has the part.
    fn holds(&self, value: &V) -> bool
        ensures { IsTrue result ↔ IsSome (part self.now value.now) };

    /// The part of a value that has it.
    fn get<'v>(&'v self, value: &'v V) -> &'v Self::Target
        requires { IsSome (part self.now value.now) }
        ensures { Some result.now ≡ part self.now value.now };

    /// The part of a value that has it, to be written.
    fn get_mut<'v>(value: &'v mut V, projection: &'v Self) -> &'v mut Self::Target
        requires { IsSome (part projection.now value.old) }
        ensures* writes_back { sem 𝓛 (Lends V.row Self.Target.row value.entry result (with projection.now value.old)) }
        ensures shows { Some result.now ≡ part projection.now value.old };
}

/// A part of a part, as a mapped reference that is mapped again has it.
#[derive(Clone, Copy, Debug, Drop)]
pub struct Compose<P, Q> {
    pub outer: P,
    pub inner: Q,
}

impl<V, P: Projection<V>, Q: Projection<P::Target>> Projection<V> for Compose<P, Q> {
    type Target = Q::Target;

    ghost part = { λ c v. option_and_then (Q.part c.inner) (P.part c.outer v) };

    ghost with = { λ c v t. option_map_or (λ m. P.with c.outer v (Q.with c.inner m t)) (P.part c.outer v) v };

    ghost lawful = { λ c. inner_is_part (P.part c.outer) (P.with c.outer) (Q.part c.inner) (Q.with c.inner) (P.lawful c.outer) (Q.lawful c.inner) };

    #[inline]
    fn holds(&self, value: &V) -> bool {
        self.outer.holds(value) && self.inner.holds(self.outer.get(value))
    }

    #[inline]
    fn get<'v>(&'v self, value: &'v V) -> &'v Q::Target {
        self.inner.get(self.outer.get(value))
    }

    #[inline]
    fn get_mut<'v>(value: &'v mut V, projection: &'v Self) -> &'v mut Q::Target {
        let part = P::get_mut(value, &projection.outer);
        Q::get_mut(part, &projection.inner)
    }
}
