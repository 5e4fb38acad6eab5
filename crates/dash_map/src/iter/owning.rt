//! The walk over a map that ended.
ghost use Rattle.std.specs.Prelude.{◌≡◌};
ghost use Rattle.dash_map.specs.Words.{EndedShards, by, contents};

use crate::alone::Alone;
use crate::map::DashMap;
pub use dash_rows::owning::OwningIter;
use std::hash::{BuildHasher, Hash};

impl<K: Eq + Hash + Drop, V: Drop, S: BuildHasher + Drop> IntoIterator for Alone<K, V, S> {
    type Item = (K, V);

    type IntoIter = OwningIter<K, V, S>;

    ghost into_iter_gives = { λ a pairs. pairs ≡ contents a };

    /// The pairs, moved out. It takes no memory.
    fn into_iter(self) -> OwningIter<K, V, S> {
        let Alone { row, .. } = self;
        OwningIter::new(row.into_items())
    }
}

impl<K: Eq + Hash + Drop, V: Drop, S: BuildHasher + Drop> IntoIterator for DashMap<K, V, S> {
    type Item = (K, V);

    type IntoIter = OwningIter<K, V, S>;

    ghost into_iter_gives = { λ m pairs. EndedShards (by K.Hash S.BuildHasher S.Hasher.Hasher) m (λ a. pairs ≡ contents a) };

    /// The pairs, moved out. It takes no memory, and waits for nobody.
    fn into_iter(self) -> OwningIter<K, V, S> {
        self.alone().into_iter()
    }
}
