//! References to the pairs of a map.
pub mod entry;
pub mod multiple;
pub mod one;
