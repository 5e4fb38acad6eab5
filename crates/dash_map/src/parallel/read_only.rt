//! Parallel work on the pairs of a view.
ghost use Rattle.std.specs.Prelude.{◌≡◌};
ghost use Rattle.dash_map.specs.Words.{IsAlone, contents};

use crate::parallel::map::OwningIter;
use crate::read_only::ReadOnlyView;
pub use dash_rows::parallel::Iter;
use dash_shard::keyed::Keyed;
use std::hash::{BuildHasher, Hash};

impl<K: Eq + Hash, V, S: BuildHasher + Drop> ReadOnlyView<K, V, S> {
    /// The pairs, moved out. It takes no memory.
    pub fn into_par_iter(self) -> OwningIter<K, V, S>
        ensures pairs { result ≡ contents self }
        ensures lawful { IsAlone ⟦<Self as Keyed>⟧.by self }
    {
        let ReadOnlyView { shards, .. } = self;
        OwningIter::new(shards)
    }
}

impl<K: Eq + Hash, V, S: BuildHasher> ReadOnlyView<K, V, S> {
    /// The pairs, to be worked on by several threads. It takes no memory.
    pub fn par_iter(&self) -> Iter<'_, K, V, S>
        ensures pairs { result ≡ contents self.now }
        ensures lawful { IsAlone ⟦<Self as Keyed>⟧.by self.now }
    {
        Iter::new(&self.shards)
    }
}
