//! The walks over a map.
pub use alone_mut::AloneIterMut;
pub use locked::Iter;
pub use locked_mut::IterMut;
pub use owning::OwningIter;

mod alone_mut;
mod locked;
mod locked_mut;
mod owning;
