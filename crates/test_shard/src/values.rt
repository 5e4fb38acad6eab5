//! Keys and values for tests.
use dash_steps::kept::Kept;
use std::alloc::AllocError;

/// A name with a note, which says nothing to `==` and to hashers.
#[derive_where(PartialEq, Eq, Hash, Debug)]
#[derive(Drop)]
pub struct Noted {
    pub name: u64,
    #[derive_where(skip(EqHashOrd))]
    pub note: u64,
}

/// A value whose copies find no memory.
#[derive(Debug, Drop)]
pub struct Uncopied(pub u64);

impl Kept for Uncopied {
    ghost use Rattle.std.specs.Prelude.{true, refl};

    ghost alike = { λ _ _. true };

    fn copy(&self) -> Result<Uncopied, AllocError> {
        Err(AllocError)
    }

    fn same(&self, _: &Uncopied) -> bool {
        true
    }

    ghost alike_laws = { record { refl = λ x. refl; symm = λ x y. refl; congr = λ x y z same. refl } };
}
