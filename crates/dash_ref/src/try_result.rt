//! What a call that waits for nobody returns.
ghost use Rattle.std.specs.Prelude.{◌≡◌, ◌↔◌, IsTrue, Some};
ghost use Rattle.dash_ref.specs.Words.{Absent, Locked, Present};

/// The answer of a look-up that waits for nobody, as the original's.
#[derive(Clone, Copy, Debug, PartialEq, Eq, Drop)]
pub enum TryResult<R> {
    /// What was looked for.
    Present(R),
    /// There is no such thing.
    Absent,
    /// Somebody has the shard, so nothing was looked for.
    Locked,
}

impl<R> TryResult<R> {
    /// Whether it is there.
    #[inline]
    pub fn is_present(&self) -> bool
        ensures { IsTrue result ↔ ((found : R) × (self.now ≡ Present found)) }
    {
        matches!(self, TryResult::Present(_))
    }

    /// Whether it isn't there.
    #[inline]
    pub fn is_absent(&self) -> bool
        ensures { IsTrue result ↔ (self.now ≡ Absent) }
    {
        matches!(self, TryResult::Absent)
    }

    /// Whether nothing was looked for.
    #[inline]
    pub fn is_locked(&self) -> bool
        ensures { IsTrue result ↔ (self.now ≡ Locked) }
    {
        matches!(self, TryResult::Locked)
    }

    /// What is there. The original panics where there is nothing: here that is a condition.
    #[inline]
    pub fn unwrap(self) -> R
        requires { (found : R) × (self ≡ Present found) }
        ensures { Present result ≡ self }
    {
        match self {
            TryResult::Present(found) => found,
            TryResult::Absent => unreachable!(),
            TryResult::Locked => unreachable!(),
        }
    }

    /// What is there, if it is.
    #[inline]
    pub fn try_unwrap(self) -> Option<R>
        ensures { (found : R) → (result ≡ Some found) ↔ (self ≡ Present found) }
    {
        match self {
            TryResult::Present(found) => Some(found),
            _ => None,
        }
    }
}
