//! The parallel forms, as the original has them behind its feature `rayon`: calls that share their work among several workers. They are
//! methods of the map, of its view and of the set.
pub mod set;

/// Walks over the pairs of a map.
pub mod map {
    pub use dash_map::parallel::map::{Iter, IterMut, OwningIter};
}

/// A walk over the pairs of a view.
pub mod read_only {
    pub use dash_map::parallel::read_only::Iter;
}
