//! The keys of the map and the set.

/// A name with a note, which says nothing to `==` and to hashers: it tells the stored key from an equal one.
#[derive_where(PartialEq, Eq, Hash)]
#[derive(Clone, Copy)]
pub struct Noted {
    pub name: u64,
    #[derive_where(skip(EqHashOrd))]
    pub note: u64,
}
