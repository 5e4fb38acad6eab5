//! Exact copies of tests, characters, texts and the empty value.
ghost use Rattle.std.specs.Prelude.{nat_eq, true};
ghost use Rattle.std.specs.Bool.{beq};
ghost use Rattle.std.specs.Cmp.{bool_eq_equiv, nat_eq_equiv};
ghost use Rattle.std.specs.Cmp.Derive.{point_equiv};
ghost use Rattle.std.specs.String.{string_eq, string_eq_equiv};

use crate::kept::{Kept, KeptKey};
use std::alloc::AllocError;

impl Kept for bool {
    ghost alike = { beq };

    #[inline]
    fn copy(&self) -> Result<bool, AllocError> {
        Ok(*self)
    }

    #[inline]
    fn same(&self, other: &bool) -> bool {
        *self == *other
    }

    ghost alike_laws = { bool_eq_equiv };
}

impl KeptKey for bool {
    ghost alike_equal = { λ j k same. same };
}

impl Kept for char {
    ghost alike = { nat_eq };

    #[inline]
    fn copy(&self) -> Result<char, AllocError> {
        Ok(*self)
    }

    #[inline]
    fn same(&self, other: &char) -> bool {
        *self == *other
    }

    ghost alike_laws = { nat_eq_equiv };
}

impl KeptKey for char {
    ghost alike_equal = { λ j k same. same };
}

impl Kept for () {
    ghost alike = { λ _ _. true };

    #[inline]
    fn copy(&self) -> Result<(), AllocError> {
        Ok(())
    }

    #[inline]
    fn same(&self, _other: &()) -> bool {
        true
    }

    ghost alike_laws = { point_equiv };
}

impl KeptKey for () {
    ghost alike_equal = { λ j k same. same };
}

/// A copy is made with the text's own allocator.
impl Kept for String {
    ghost alike = { string_eq };

    #[inline]
    fn copy(&self) -> Result<String, AllocError> {
        self.clone()
    }

    #[inline]
    fn same(&self, other: &String) -> bool {
        *self == *other
    }

    ghost alike_laws = { string_eq_equiv };
}

impl KeptKey for String {
    ghost alike_equal = { λ j k same. same };
}
