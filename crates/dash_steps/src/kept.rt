//! Exact copies of keys and values, and when two values are alike.
ghost use Rattle.std.specs.Prelude.{◌≡◌, Bool, true, IfOk, IsTrue};
ghost use Rattle.std.specs.Cmp.{IsEquivalence};

mod numbers;
mod texts;
mod wholes;

use std::alloc::AllocError;
use std::hash::Hash;

/// A value with exact copies. It stands where the original asks for `Clone`, since a copy can find no memory.
///
/// Each type says when two of its values are alike: for the types here where they are the same numbers, bytes and items, the room
/// that a list or a text keeps aside.
pub trait Kept: Sized {
    // Whether two values are alike.
    ghost alike: { Self → Self → Bool };

    /// A copy, alike its source.
    fn copy(&self) -> Result<Self, AllocError>
        ensures { IfOk result (λ copy. IsTrue (alike self.now copy)) };

    /// Whether the two are alike.
    fn same(&self, other: &Self) -> bool
        ensures { result ≡ alike self.now other.now };

    ghost alike_laws: { IsEquivalence alike };
}

/// A key with exact copies: alike keys are equal, and so have one hash.
pub trait KeptKey: Kept + Eq + Hash {
    ghost alike_equal: { (j k : Self) → Self.alike j k ≡ true → Self.eq j k ≡ true };
}
