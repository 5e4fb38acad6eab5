//! The walk over shards that ended.
ghost use Rattle.std.specs.Prelude.{◌≡◌, flat_map, length};
ghost use Rattle.std.specs.Iterator.{at_most};
ghost use Rattle.std.specs.Map.Iter.{TakesFirst};
ghost use Rattle.dash_rows.specs.Words.{pairs};

use dash_shard::hash::FixedState;
use dash_shard::shard::{IntoIter, Shard};
use std::hash::{BuildHasher, Hash};
use std::iter::FusedIterator;
use std::marker::Model;
use std::vec;

/// The pairs of a map that ended, by rising shard and in each by rising slot. A contract sees it as the list of those that are left.
///
/// It waits for nobody. A step looks at the next slots. It hashes and searches nothing.
#[derive(Drop)]
pub struct OwningIter<K: Eq + Hash, V, S: BuildHasher = FixedState> {
    // What is left of the shard that the walk is in, and the shards behind it.
    here: Option<IntoIter<K, V>>,
    shards: vec::IntoIter<Shard<K, V, S>>,
}

impl<K: Eq + Hash, V, S: BuildHasher> Model for OwningIter<K, V, S> {
    ghost use Rattle.std.specs.Prelude.{List, [], flat_map, ◌++◌};
    ghost use Rattle.std.specs.Option.{unwrap_or};
    ghost use Rattle.std.specs.Vec.Iter.{into_iter_items};
    ghost use Rattle.dash_shard.specs.Shard.{pairs};

    ghost Value = { List (K × V) };

    ghost view = { λ it. unwrap_or it.here [] ++ flat_map pairs (into_iter_items it.shards) };
}

impl<K: Eq + Hash, V, S: BuildHasher> OwningIter<K, V, S> {
    /// The walk over the pairs of these shards.
    #[inline]
    pub fn new(shards: Vec<Shard<K, V, S>>) -> Self
        ensures { result ≡ flat_map pairs shards.items }
    {
        OwningIter {
            here: None,
            shards: shards.into_iter(),
        }
    }
}

impl<K: Eq + Hash + Drop, V: Drop, S: BuildHasher + Drop> Iterator for OwningIter<K, V, S> {
    type Item = (K, V);

    ghost next_gives = { TakesFirst (λ p. p) };

    ghost remaining = { λ s. at_most (length s) };

    #[inline]
    fn next(&mut self) -> Option<(K, V)> {
        loop {
            if let Some(here) = &mut self.here
                && let Some(pair) = here.next()
            {
                return Some(pair);
            }
            let shard = self.shards.next()?;
            self.here = Some(shard.into_iter());
        }
    }
}

impl<K: Eq + Hash + Drop, V: Drop, S: BuildHasher + Drop> FusedIterator for OwningIter<K, V, S> {}
