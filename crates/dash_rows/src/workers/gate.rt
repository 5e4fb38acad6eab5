//! What a worker passes before its first step in a part.

/// Is passed by a worker before its first step in a part, where it has one. It may hold the worker back.
pub trait Gate: Sync {
    fn pass(&self, part: usize);
}

/// Lets every worker through.
pub struct Open;

impl Gate for Open {
    #[inline]
    fn pass(&self, _part: usize) {}
}
