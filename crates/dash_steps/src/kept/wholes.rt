//! Exact copies of pairs, options and lists, whose parts are copied one by one.
ghost use Rattle.std.specs.Prelude.{◌≡◌};
ghost use Rattle.std.specs.Option.{option_eq};
ghost use Rattle.std.specs.Cmp.Lexicographic.{lists_equiv, options_equiv, pointwise};
ghost use Rattle.dash_steps.specs.Words.{alike_pair};
ghost use Rattle.dash_steps.specs.inner.AlikeLaws.{list_equal, option_equal, pair_equal, pair_equiv};

use crate::kept::{Kept, KeptKey};
use std::alloc::AllocError;

impl<A: Kept + Drop, B: Kept> Kept for (A, B) {
    ghost alike = { alike_pair A.alike B.alike };

    fn copy(&self) -> Result<(A, B), AllocError> {
        let first = self.0.copy()?;
        Ok((first, self.1.copy()?))
    }

    fn same(&self, other: &(A, B)) -> bool {
        self.0.same(&other.0) && self.1.same(&other.1)
    }

    ghost alike_laws = { pair_equiv A.alike_laws B.alike_laws };
}

impl<A: KeptKey + Drop, B: KeptKey> KeptKey for (A, B) {
    ghost alike_equal = { pair_equal A.alike_equal B.alike_equal };
}

impl<T: Kept> Kept for Option<T> {
    ghost alike = { option_eq T.alike };

    fn copy(&self) -> Result<Option<T>, AllocError> {
        match self {
            Some(value) => Ok(Some(value.copy()?)),
            None => Ok(None),
        }
    }

    fn same(&self, other: &Option<T>) -> bool {
        match (self, other) {
            (Some(value), Some(other)) => value.same(other),
            (None, None) => true,
            _ => false,
        }
    }

    ghost alike_laws = { options_equiv T.alike_laws };
}

impl<T: KeptKey> KeptKey for Option<T> {
    ghost alike_equal = { option_equal T.alike_equal };
}

/// A copy is made with the list's own allocator, and has no room to spare.
impl<T: Kept + Drop> Kept for Vec<T> {
    ghost use Rattle.std.specs.Cmp.{on_equiv};

    ghost alike = { λ v w. pointwise T.alike v.items w.items };

    fn copy(&self) -> Result<Vec<T>, AllocError> {
        let mut copies = Vec::with_capacity(*self.allocator(), self.len())?;
        for i in 0..self.len() {
            copies.push(self[i].copy()?)?;
        }
        Ok(copies)
    }

    fn same(&self, other: &Vec<T>) -> bool {
        if self.len() != other.len() {
            return false;
        }
        for i in 0..self.len() {
            if !self[i].same(&other[i]) {
                return false;
            }
        }
        true
    }

    ghost alike_laws = { on_equiv (λ v. v.items) (lists_equiv T.alike_laws) };
}

impl<T: KeptKey + Drop> KeptKey for Vec<T> {
    ghost alike_equal = { λ v w. list_equal T.alike_equal v.items w.items };
}
