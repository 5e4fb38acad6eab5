//! Changes of a value that a script writes.
ghost use Rattle.std.specs.Prelude.{◌≡◌, Bool, true, IfOk, IsTrue};
ghost use Rattle.dash_script.specs.Words.{acts};
ghost use Rattle.dash_script.specs.inner.AlikeChange.{alike_change};

use dash_steps::action::{Action, KeptAction};
use dash_steps::kept::Kept;
use std::alloc::AllocError;

/// What a step of a script does with a value.
#[derive(Clone, Copy, Debug, PartialEq, Eq, Drop)]
pub enum Change {
    /// Adds the number, wrapped at 2^64. It returns true.
    Add(u64),
    /// Leaves the value. It returns true where the value is below the number.
    Below(u64),
    /// Adds the first number, wrapped. It returns true where the new value is below the second.
    AddBelow(u64, u64),
}

impl Kept for Change {
    ghost use Rattle.dash_script.specs.inner.Changes.{change_equiv};

    ghost alike = { alike_change };

    fn copy(&self) -> Result<Change, AllocError> {
        Ok(*self)
    }

    fn same(&self, other: &Change) -> bool {
        match (self, other) {
            (Change::Add(n), Change::Add(m)) => n == m,
            (Change::Below(n), Change::Below(m)) => n == m,
            (Change::AddBelow(n, m), Change::AddBelow(i, j)) => n == i && m == j,
            _ => false,
        }
    }

    ghost alike_laws = { change_equiv };
}

impl Action<u64, u64> for Change {
    ghost use Rattle.dash_script.specs.inner.Changes.{acts_along};

    ghost acts = { acts };

    fn act(&self, _key: &u64, value: &mut u64) -> bool {
        match self {
            Change::Add(n) => {
                *value = value.wrapping_add(*n);
                true
            }
            Change::Below(n) => *value < *n,
            Change::AddBelow(n, m) => {
                *value = value.wrapping_add(*n);
                *value < *m
            }
        }
    }

    ghost acts_alike = { acts_along };
}

impl KeptAction<u64, u64> for Change {
    ghost use Rattle.dash_script.specs.inner.Changes.{alike_along};

    ghost alike_acts = { alike_along };
}
