//! Lists of pairs that are put into a map, or make one.
ghost use Rattle.std.specs.Prelude.{◌≡◌, ◌↔◌, None, IfErr, IfOk, IsErrOf, length};
ghost use Rattle.std.specs.Iterator.{IsFiniteIterable};
ghost use Rattle.dash_map.specs.Words.{Construct, EachOnce, Extends, ExtendsBehind, Gave, HashAlike, IsAlone, IsDefault, IsParallelism, IsRefusedAmong, IsRefusedOf, KeepsRoom, MadeOf, MadeShards, NotMade, Parallelism, contents, shape};
ghost use Rattle.dash_map.specs.declared.extend.FromRefused.TheVariants.{Pair};

use crate::alone::Alone;
use crate::map::{DashMap, default_shard_amount};
use core::mem::replace_with;
use dash_shard::error::ConstructError;
use dash_shard::keyed::Keyed;
use dash_shard::shard::InsertRefused;
use std::alloc::{AllocError, Global};
use std::fmt::Debug;
use std::hash::{BuildHasher, Hash};
use thiserror::Error;

/// No memory for this pair of a list (12). The pairs before it were inserted, and those behind it were let go.
#[derive(Debug, Drop, Error)]
#[error_bound(K: Debug, V: Debug)]
#[error("no memory for a new key of the list")]
pub struct ExtendRefused<K, V> {
    pub key: K,
    pub value: V,
}

impl<K, V> From<InsertRefused<K, V>> for ExtendRefused<K, V> {
    ghost from_gives = { λ from refused. (refused.key ≡ from.key) × (refused.value ≡ from.value) };

    fn from(refused: InsertRefused<K, V>) -> Self {
        let InsertRefused { key, value } = refused;
        ExtendRefused { key, value }
    }
}

/// So that `map.extend(pairs)?` converts. The pair is dropped.
impl<K: Drop, V: Drop> From<ExtendRefused<K, V>> for AllocError {
    fn from(_: ExtendRefused<K, V>) -> Self {
        AllocError
    }
}

/// Why no map was made of a list of pairs.
#[derive(Debug, Drop, Error)]
#[error_bound(K: Debug, V: Debug)]
pub enum FromRefused<K, V> {
    /// The map can't be made, whatever its pairs (5 to 8).
    #[error(transparent)]
    Construct(ConstructError),
    /// There is no memory for a pair (12).
    #[error(transparent)]
    Pair(ExtendRefused<K, V>),
}

impl<K, V> From<ConstructError> for FromRefused<K, V> {
    ghost from_gives = { λ e refused. refused ≡ Construct e };

    fn from(e: ConstructError) -> Self {
        FromRefused::Construct(e)
    }
}

impl<K, V> From<ExtendRefused<K, V>> for FromRefused<K, V> {
    ghost from_gives = { λ e refused. refused ≡ Pair e };

    fn from(e: ExtendRefused<K, V>) -> Self {
        FromRefused::Pair(e)
    }
}

impl<K: Eq + Hash + Drop, V: Drop, S: BuildHasher> Alone<K, V, S> {
    /// Inserts the pairs in the order in which they come: of equal keys the first stays, and the last value.
    ///
    /// Each takes memory as `insert` does. Where there is none for a new key, that pair is refused (12): the pairs before it stay, and
    /// the rest of the iterator is dropped. It waits for nobody.
    pub fn extend<U: IntoIterator<Item = (K, V)>>(
        &mut self,
        iter: U,
    ) -> Result<(), ExtendRefused<K, V>>
        requires { IsFiniteIterable U.into_iter_gives U.IntoIter.can_next U.IntoIter.remaining iter }
        ensures extends { Extends ⟦<Self as Keyed>⟧.by U.into_iter_gives U.IntoIter.next_gives iter self.old self.new result }
        ensures lawful { IsAlone ⟦<Self as Keyed>⟧.by self.new }
    {
        // Only a look at the map tells the prover its invariant, which a list without pairs needs too.
        let _ = &self.hasher;
        for (key, value) in iter {
            self.insert(key, value)?;
        }
        Ok(())
    }

    // Makes room in each shard for its share of so many pairs more, where there is memory. The number may be too high, so want of memory
    // is told by the pair that finds none.
    pub(crate) fn reserve_share(&mut self, additional: usize)
        ensures same { EachOnce K.eq (contents self.old) (contents self.new) }
        ensures len { length (contents self.new) ≡ length (contents self.old) }
        ensures stays { KeepsRoom self.old self.new }
        ensures lawful { IsAlone ⟦<Self as Keyed>⟧.by self.new }
    {
        let share = additional.div_ceil(self.row.len());
        let _ = self.try_reserve(share);
    }
}

impl<K: Eq + Hash + Drop, V: Drop, S: BuildHasher + Clone + Default + Drop> Alone<K, V, S> {
    /// A map of one owner into which the pairs were inserted in the order in which they come, of the default number of shards for so many
    /// processors: of equal keys the first stays, and the last value.
    ///
    /// Its room is taken by the iterator's size hint, and grows as `insert` does. It is refused where the parallelism is 0 or above 2^61
    /// (6), then where there is no memory for a map (8), then where there is none for a pair (12); then nothing is made.
    pub fn from_iter<U: IntoIterator<Item = (K, V)>>(
        alloc: Global,
        iter: U,
        parallelism: usize,
    ) -> Result<Self, FromRefused<K, V>>
        requires alike { (s t : S) → S.is_clone s t → HashAlike ⟦<Self as Keyed>⟧.by s t }
        requires finite { IsFiniteIterable U.into_iter_gives U.IntoIter.can_next U.IntoIter.remaining iter }
        ensures made { IfOk result (λ a. Gave U.into_iter_gives U.IntoIter.next_gives iter None (λ ps. MadeOf ⟦<Self as Keyed>⟧.by ps a)) }
        ensures hasher { IfOk result (λ a. S.is_default a.hasher) }
        ensures amount { IfOk result (λ a. IsDefault parallelism (length a.row)) }
        ensures lawful { IfOk result (IsAlone ⟦<Self as Keyed>⟧.by) }
        ensures bad_parallelism { IsErrOf result (Construct Parallelism) ↔ (IsParallelism parallelism → ⊥) }
        ensures refused { IfErr result (NotMade (IsRefusedOf ⟦<Self as Keyed>⟧.by U.into_iter_gives U.IntoIter.next_gives iter)) }
    {
        let iter = iter.into_iter();
        let amount = default_shard_amount(parallelism)?;
        let mut alone = Alone::new(alloc, 0, S::default(), amount)?;
        alone.reserve_share(iter.size_hint().0);
        alone.extend(iter)?;
        Ok(alone)
    }

    /// As `from_iter`, of the pairs of a list.
    pub fn from_pairs(
        alloc: Global,
        list: Vec<(K, V)>,
        parallelism: usize,
    ) -> Result<Self, FromRefused<K, V>>
        requires alike { (s t : S) → S.is_clone s t → HashAlike ⟦<Self as Keyed>⟧.by s t }
        ensures made { IfOk result (MadeOf ⟦<Self as Keyed>⟧.by list.items) }
        ensures hasher { IfOk result (λ a. S.is_default a.hasher) }
        ensures amount { IfOk result (λ a. IsDefault parallelism (length a.row)) }
        ensures lawful { IfOk result (IsAlone ⟦<Self as Keyed>⟧.by) }
        ensures bad_parallelism { IsErrOf result (Construct Parallelism) ↔ (IsParallelism parallelism → ⊥) }
        ensures refused { IfErr result (NotMade (IsRefusedAmong ⟦<Self as Keyed>⟧.by list.items)) }
    {
        Self::from_iter(alloc, list, parallelism)
    }
}

impl<K: Eq + Hash + Drop, V: Drop, S: BuildHasher> DashMap<K, V, S> {
    /// As `Alone::extend`, on this map, which nobody else has. It waits for nobody, even where a hold was leaked.
    ///
    /// The shards leave their locks for it and go back, which takes no memory.
    pub fn extend<U: IntoIterator<Item = (K, V)>>(
        &mut self,
        iter: U,
    ) -> Result<(), ExtendRefused<K, V>>
        requires { IsFiniteIterable U.into_iter_gives U.IntoIter.can_next U.IntoIter.remaining iter }
        ensures extends { ExtendsBehind ⟦<Self as Keyed>⟧.by U.into_iter_gives U.IntoIter.next_gives iter self.old self.new result }
        ensures same { shape self.new ≡ shape self.old }
    {
        replace_with(self, iter, Self::extend_alone::<U>)
    }

    // Inserts the pairs, and the map after it.
    fn extend_alone<U: IntoIterator<Item = (K, V)>>(
        self,
        iter: U,
    ) -> (Self, Result<(), ExtendRefused<K, V>>)
        requires { IsFiniteIterable U.into_iter_gives U.IntoIter.can_next U.IntoIter.remaining iter }
        ensures extends { ExtendsBehind ⟦<Self as Keyed>⟧.by U.into_iter_gives U.IntoIter.next_gives iter self result.0 result.1 }
        ensures same { shape result.0 ≡ shape self }
    {
        let mut alone = self.alone();
        let extended = alone.extend(iter);
        (alone.end(), extended)
    }
}

impl<K: Eq + Hash + Drop, V: Drop, S: BuildHasher + Clone + Default + Drop> DashMap<K, V, S> {
    /// As `Alone::from_iter`, behind locks. It waits for nobody.
    pub fn from_iter<U: IntoIterator<Item = (K, V)>>(
        alloc: Global,
        iter: U,
        parallelism: usize,
    ) -> Result<Self, FromRefused<K, V>>
        requires alike { (s t : S) → S.is_clone s t → HashAlike ⟦<Self as Keyed>⟧.by s t }
        requires finite { IsFiniteIterable U.into_iter_gives U.IntoIter.can_next U.IntoIter.remaining iter }
        ensures made { IfOk result (λ m. Gave U.into_iter_gives U.IntoIter.next_gives iter None
            (λ ps. MadeShards ⟦<Self as Keyed>⟧.by m (MadeOf ⟦<Self as Keyed>⟧.by ps))) }
        ensures hasher { IfOk result (λ m. S.is_default m.hasher) }
        ensures amount { IfOk result (λ m. IsDefault parallelism m.amount) }
        ensures bad_parallelism { IsErrOf result (Construct Parallelism) ↔ (IsParallelism parallelism → ⊥) }
        ensures refused { IfErr result (NotMade (IsRefusedOf ⟦<Self as Keyed>⟧.by U.into_iter_gives U.IntoIter.next_gives iter)) }
    {
        Ok(Alone::from_iter(alloc, iter, parallelism)?.end())
    }

    /// As `Alone::from_pairs`, behind locks. It waits for nobody.
    pub fn from_pairs(
        alloc: Global,
        list: Vec<(K, V)>,
        parallelism: usize,
    ) -> Result<Self, FromRefused<K, V>>
        requires alike { (s t : S) → S.is_clone s t → HashAlike ⟦<Self as Keyed>⟧.by s t }
        ensures made { IfOk result (λ m. MadeShards ⟦<Self as Keyed>⟧.by m (MadeOf ⟦<Self as Keyed>⟧.by list.items)) }
        ensures hasher { IfOk result (λ m. S.is_default m.hasher) }
        ensures amount { IfOk result (λ m. IsDefault parallelism m.amount) }
        ensures bad_parallelism { IsErrOf result (Construct Parallelism) ↔ (IsParallelism parallelism → ⊥) }
        ensures refused { IfErr result (NotMade (IsRefusedAmong ⟦<Self as Keyed>⟧.by list.items)) }
    {
        Ok(Alone::from_pairs(alloc, list, parallelism)?.end())
    }
}
