//! What a lock asks of its value.
ghost use Rattle.std.specs.Prelude.{◌≡◌, ℕ, Option, Some};
ghost use Rattle.std.specs.Borrow.{Lends, sem};
ghost use Rattle.std.specs.Map.Iter.{deref_pair_mut};

/// A type whose lock has a tag, fixed when the lock is made. Each value that the lock ever has fits it.
pub trait Tagged {
    type Tag;

    /// Whether a value fits a tag.
    ghost fits: { Self.Tag → Self → Type 0 };
}

/// A value that lends pairs of a key and a part while it stays behind its lock. Whatever is written in the part, the value fits as before.
pub trait Lendable: Tagged {
    type Key;

    type Part;

    /// Whether there is a pair at a position.
    ghost has: { Self → ℕ → Type 0 };

    /// The pair there.
    ghost pair: { Self → ℕ → Option (Self.Key × Self.Part) };

    /// The value with another part there.
    ghost with: { Self → ℕ → Self.Part → Self };

    /// Lends the pair, its part to be written.
    fn pair_mut(&mut self, position: usize) -> (&Self::Key, &mut Self::Part)
        requires { has self.old position }
        ensures* writes_back { sem 𝓛 (Lends Self.row Self.Part.row self.entry result.1 (with self.old position)) }
        ensures pair { pair self.old position ≡ Some (deref_pair_mut result) }
        ensures keeps { (tag : Self.Tag) (w : Self.Part) → Self.fits tag self.old → Self.fits tag (with self.old position w) }
        ensures stays { (w : Self.Part) (j : ℕ) → has self.old j → has (with self.old position w) j };
}
