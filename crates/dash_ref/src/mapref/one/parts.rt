//! Parts that many values have: what an option has, and the two parts of a pair.
ghost use Rattle.std.specs.Prelude.{Some};
ghost use Rattle.std.specs.Borrow.{Lends, sem};

use crate::mapref::one::projection::Projection;

/// What an option has.
#[derive(Clone, Copy, Debug, Drop)]
pub struct Payload;

impl<T> Projection<Option<T>> for Payload {
    ghost use Rattle.std.specs.Option.{option_map};
    ghost use Rattle.dash_ref.specs.inner.Parts.{payload_is_part};

    type Target = T;

    ghost part = { λ _ v. v };

    ghost with = { λ _ v t. option_map (λ _. t) v };

    ghost lawful = { λ _. payload_is_part };

    #[inline]
    fn holds(&self, value: &Option<T>) -> bool {
        value.is_some()
    }

    #[inline]
    fn get<'v>(&'v self, value: &'v Option<T>) -> &'v T {
        match value {
            Some(payload) => payload,
            None => unreachable!(),
        }
    }

    #[inline]
    fn get_mut<'v>(value: &'v mut Option<T>, _projection: &'v Self) -> &'v mut T {
        match value {
            Some(payload) => payload,
            None => unreachable!(),
        }
    }
}

/// The first part of a pair.
#[derive(Clone, Copy, Debug, Drop)]
pub struct First;

impl<A, B> Projection<(A, B)> for First {
    ghost use Rattle.std.specs.Prelude.{Some, refl};
    ghost use Rattle.dash_ref.specs.inner.Parts.{field_is_part};

    type Target = A;

    ghost part = { λ _ v. Some v.0 };

    ghost with = { λ _ v t. (t, v.1) };

    ghost lawful = { λ _. field_is_part (λ _ _. refl) (λ _. refl) (λ _ _ _. refl) };

    #[inline]
    fn holds(&self, _value: &(A, B)) -> bool {
        true
    }

    #[inline]
    fn get<'v>(&'v self, value: &'v (A, B)) -> &'v A {
        &value.0
    }

    #[inline]
    fn get_mut<'v>(value: &'v mut (A, B), _projection: &'v Self) -> &'v mut A {
        &mut value.0
    }
}

/// The second part of a pair.
#[derive(Clone, Copy, Debug, Drop)]
pub struct Second;

impl<A, B> Projection<(A, B)> for Second {
    ghost use Rattle.std.specs.Prelude.{Some, refl};
    ghost use Rattle.dash_ref.specs.inner.Parts.{field_is_part};

    type Target = B;

    ghost part = { λ _ v. Some v.1 };

    ghost with = { λ _ v t. (v.0, t) };

    ghost lawful = { λ _. field_is_part (λ _ _. refl) (λ _. refl) (λ _ _ _. refl) };

    #[inline]
    fn holds(&self, _value: &(A, B)) -> bool {
        true
    }

    #[inline]
    fn get<'v>(&'v self, value: &'v (A, B)) -> &'v B {
        &value.1
    }

    #[inline]
    fn get_mut<'v>(value: &'v mut (A, B), _projection: &'v Self) -> &'v mut B {
        &mut value.1
    }
}
