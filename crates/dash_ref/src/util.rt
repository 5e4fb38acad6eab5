//! A plain wrapper of a value.
ghost use Rattle.std.specs.Prelude.{◌≡◌};
ghost use Rattle.std.specs.Borrow.{Lends, sem};

use dash_shard::keyed::Lender;
use std::marker::Model;

/// A value, as the original's cell of this name, in which its shards keep values. Here the shards keep pairs, and this is the value alone.
#[derive(Drop)]
pub struct SharedValue<T> {
    value: T,
}

impl<T> Model for SharedValue<T> {
    ghost Value = { T };

    ghost view = { λ s. s.value };
}

impl<T> Lender for SharedValue<T> {
    ghost use Rattle.dash_ref.specs.contracts.util.SharedValue.{the_row};

    ghost row = { the_row T.row };
}

impl<T> SharedValue<T> {
    /// Wraps the value.
    #[inline]
    pub const fn new(value: T) -> SharedValue<T>
        ensures { result ≡ value }
    {
        SharedValue { value }
    }

    /// The value.
    #[inline]
    pub fn get(&self) -> &T
        ensures { result.now ≡ self.now }
    {
        &self.value
    }

    /// The value, to be written.
    #[inline]
    pub fn get_mut(&mut self) -> &mut T
        ensures* writes_back { sem 𝓛 (Lends ⟦<Self as Lender>⟧.row T.row self.entry result (λ value. value)) }
        ensures value { result.now ≡ self.old }
    {
        &mut self.value
    }

    /// The value, out of its wrapper.
    #[inline]
    pub fn into_inner(self) -> T
        ensures { result ≡ self }
    {
        self.value
    }
}
