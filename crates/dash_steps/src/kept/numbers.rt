//! Exact copies of whole numbers. Alike are those that are equal.
ghost use Rattle.std.specs.Prelude.{nat_eq};
ghost use Rattle.std.specs.Ordering.{int_eq};
ghost use Rattle.std.specs.Cmp.{nat_eq_equiv, int_eq_equiv};

use crate::kept::{Kept, KeptKey};
use std::alloc::AllocError;

impl Kept for u8 {
    ghost alike = { nat_eq };

    #[inline]
    fn copy(&self) -> Result<u8, AllocError> {
        Ok(*self)
    }

    #[inline]
    fn same(&self, other: &u8) -> bool {
        *self == *other
    }

    ghost alike_laws = { nat_eq_equiv };
}

impl KeptKey for u8 {
    ghost alike_equal = { λ j k same. same };
}

impl Kept for u16 {
    ghost alike = { nat_eq };

    #[inline]
    fn copy(&self) -> Result<u16, AllocError> {
        Ok(*self)
    }

    #[inline]
    fn same(&self, other: &u16) -> bool {
        *self == *other
    }

    ghost alike_laws = { nat_eq_equiv };
}

impl KeptKey for u16 {
    ghost alike_equal = { λ j k same. same };
}

impl Kept for u32 {
    ghost alike = { nat_eq };

    #[inline]
    fn copy(&self) -> Result<u32, AllocError> {
        Ok(*self)
    }

    #[inline]
    fn same(&self, other: &u32) -> bool {
        *self == *other
    }

    ghost alike_laws = { nat_eq_equiv };
}

impl KeptKey for u32 {
    ghost alike_equal = { λ j k same. same };
}

impl Kept for u64 {
    ghost alike = { nat_eq };

    #[inline]
    fn copy(&self) -> Result<u64, AllocError> {
        Ok(*self)
    }

    #[inline]
    fn same(&self, other: &u64) -> bool {
        *self == *other
    }

    ghost alike_laws = { nat_eq_equiv };
}

impl KeptKey for u64 {
    ghost alike_equal = { λ j k same. same };
}

impl Kept for u128 {
    ghost alike = { nat_eq };

    #[inline]
    fn copy(&self) -> Result<u128, AllocError> {
        Ok(*self)
    }

    #[inline]
    fn same(&self, other: &u128) -> bool {
        *self == *other
    }

    ghost alike_laws = { nat_eq_equiv };
}

impl KeptKey for u128 {
    ghost alike_equal = { λ j k same. same };
}

impl Kept for usize {
    ghost alike = { nat_eq };

    #[inline]
    fn copy(&self) -> Result<usize, AllocError> {
        Ok(*self)
    }

    #[inline]
    fn same(&self, other: &usize) -> bool {
        *self == *other
    }

    ghost alike_laws = { nat_eq_equiv };
}

impl KeptKey for usize {
    ghost alike_equal = { λ j k same. same };
}

impl Kept for i8 {
    ghost alike = { int_eq };

    #[inline]
    fn copy(&self) -> Result<i8, AllocError> {
        Ok(*self)
    }

    #[inline]
    fn same(&self, other: &i8) -> bool {
        *self == *other
    }

    ghost alike_laws = { int_eq_equiv };
}

impl KeptKey for i8 {
    ghost alike_equal = { λ j k same. same };
}

impl Kept for i16 {
    ghost alike = { int_eq };

    #[inline]
    fn copy(&self) -> Result<i16, AllocError> {
        Ok(*self)
    }

    #[inline]
    fn same(&self, other: &i16) -> bool {
        *self == *other
    }

    ghost alike_laws = { int_eq_equiv };
}

impl KeptKey for i16 {
    ghost alike_equal = { λ j k same. same };
}

impl Kept for i32 {
    ghost alike = { int_eq };

    #[inline]
    fn copy(&self) -> Result<i32, AllocError> {
        Ok(*self)
    }

    #[inline]
    fn same(&self, other: &i32) -> bool {
        *self == *other
    }

    ghost alike_laws = { int_eq_equiv };
}

impl KeptKey for i32 {
    ghost alike_equal = { λ j k same. same };
}

impl Kept for i64 {
    ghost alike = { int_eq };

    #[inline]
    fn copy(&self) -> Result<i64, AllocError> {
        Ok(*self)
    }

    #[inline]
    fn same(&self, other: &i64) -> bool {
        *self == *other
    }

    ghost alike_laws = { int_eq_equiv };
}

impl KeptKey for i64 {
    ghost alike_equal = { λ j k same. same };
}

impl Kept for i128 {
    ghost alike = { int_eq };

    #[inline]
    fn copy(&self) -> Result<i128, AllocError> {
        Ok(*self)
    }

    #[inline]
    fn same(&self, other: &i128) -> bool {
        *self == *other
    }

    ghost alike_laws = { int_eq_equiv };
}

impl KeptKey for i128 {
    ghost alike_equal = { λ j k same. same };
}

impl Kept for isize {
    ghost alike = { int_eq };

    #[inline]
    fn copy(&self) -> Result<isize, AllocError> {
        Ok(*self)
    }

    #[inline]
    fn same(&self, other: &isize) -> bool {
        *self == *other
    }

    ghost alike_laws = { int_eq_equiv };
}

impl KeptKey for isize {
    ghost alike_equal = { λ j k same. same };
}
