//! Lists of keys that are put into a set, or make one.
ghost use Rattle.std.specs.Prelude.{◌≡◌, ◌↔◌, None, IfErr, IfOk, IsErrOf, length};
ghost use Rattle.std.specs.Iterator.{IsFiniteIterable};
ghost use Rattle.dashmap.specs.Words.{Construct, Extends, ExtendsBehind, Gave, HashAlike, IsAlone, IsDefault, IsParallelism, IsRefusedOf, MadeOf, MadeShards, NotMade, Parallelism, of_members, shape};

use super::{AloneSet, DashSet};
use dash_map::alone::Alone;
use dash_map::extend::{ExtendRefused, FromRefused};
use dash_map::map::DashMap;
use dash_shard::keyed::Keyed;
use std::alloc::Global;
use std::hash::{BuildHasher, Hash};

// Keys, each with unit.
#[derive(Drop)]
struct Members<I> {
    keys: I,
}

impl<I: Iterator + Drop> Iterator for Members<I> {
    type Item = (I::Item, ());

    ghost can_next = { λ s. I.can_next s.keys };

    ghost next_gives = { λ s r t. of_members I.next_gives s.keys r t.keys };

    ghost remaining = { λ s. I.remaining s.keys };

    #[inline]
    fn size_hint(&self) -> (usize, Option<usize>) {
        self.keys.size_hint()
    }

    #[inline]
    fn next(&mut self) -> Option<(I::Item, ())> {
        let key = self.keys.next()?;
        Some((key, ()))
    }
}

impl<K: Eq + Hash + Drop, S: BuildHasher> AloneSet<K, S> {
    /// Puts the keys in the order in which they come: of equal keys the first stays.
    ///
    /// Each takes memory as `insert` does. Where there is none for a new key, that key is refused (12): those before it stay, and the
    /// rest of the iterator is dropped. It waits for nobody.
    pub fn extend<U: IntoIterator<Item = K>>(&mut self, iter: U) -> Result<(), ExtendRefused<K, ()>>
        requires { IsFiniteIterable U.into_iter_gives U.IntoIter.can_next U.IntoIter.remaining iter }
        ensures extends { Extends ⟦<Self as Keyed>⟧.by U.into_iter_gives (of_members U.IntoIter.next_gives) iter self.old self.new result }
        ensures lawful { IsAlone ⟦<Self as Keyed>⟧.by self.new }
    {
        let keys = iter.into_iter();
        self.inner.extend(Members { keys })
    }
}

impl<K: Eq + Hash + Drop, S: BuildHasher + Clone + Default + Drop> AloneSet<K, S> {
    /// A set of one owner into which the keys were put in the order in which they come, of the default number of shards for so many
    /// processors: of equal keys the first stays.
    ///
    /// Its room is taken by the iterator's size hint, and grows as `insert` does. It is refused where the parallelism is 0 or above 2^61
    /// (6), then where there is no memory for a set (8), then where there is none for a key (12); then nothing is made.
    pub fn from_iter<U: IntoIterator<Item = K>>(
        alloc: Global,
        iter: U,
        parallelism: usize,
    ) -> Result<Self, FromRefused<K, ()>>
        requires alike { (s t : S) → S.is_clone s t → HashAlike ⟦<Self as Keyed>⟧.by s t }
        requires finite { IsFiniteIterable U.into_iter_gives U.IntoIter.can_next U.IntoIter.remaining iter }
        ensures made { IfOk result (λ s. Gave U.into_iter_gives (of_members U.IntoIter.next_gives) iter None (λ ps. MadeOf ⟦<Self as Keyed>⟧.by ps s)) }
        ensures hasher { IfOk result (λ s. S.is_default s.hasher) }
        ensures amount { IfOk result (λ s. IsDefault parallelism (length s.row)) }
        ensures lawful { IfOk result (IsAlone ⟦<Self as Keyed>⟧.by) }
        ensures bad_parallelism { IsErrOf result (Construct Parallelism) ↔ (IsParallelism parallelism → ⊥) }
        ensures refused { IfErr result (NotMade (IsRefusedOf ⟦<Self as Keyed>⟧.by U.into_iter_gives (of_members U.IntoIter.next_gives) iter)) }
    {
        let keys = iter.into_iter();
        let inner = Alone::from_iter(alloc, Members { keys }, parallelism)?;
        Ok(AloneSet { inner })
    }
}

impl<K: Eq + Hash + Drop, S: BuildHasher> DashSet<K, S> {
    /// As `AloneSet::extend`, on this set, which nobody else has. It waits for nobody, even where a hold was leaked.
    ///
    /// The shards leave their locks for it and go back, which takes no memory.
    pub fn extend<U: IntoIterator<Item = K>>(&mut self, iter: U) -> Result<(), ExtendRefused<K, ()>>
        requires { IsFiniteIterable U.into_iter_gives U.IntoIter.can_next U.IntoIter.remaining iter }
        ensures extends { ExtendsBehind ⟦<Self as Keyed>⟧.by U.into_iter_gives (of_members U.IntoIter.next_gives) iter self.old self.new result }
        ensures same { shape self.new ≡ shape self.old }
    {
        let keys = iter.into_iter();
        self.inner.extend(Members { keys })
    }
}

impl<K: Eq + Hash + Drop, S: BuildHasher + Clone + Default + Drop> DashSet<K, S> {
    /// As `AloneSet::from_iter`, behind locks. It waits for nobody.
    pub fn from_iter<U: IntoIterator<Item = K>>(
        alloc: Global,
        iter: U,
        parallelism: usize,
    ) -> Result<Self, FromRefused<K, ()>>
        requires alike { (s t : S) → S.is_clone s t → HashAlike ⟦<Self as Keyed>⟧.by s t }
        requires finite { IsFiniteIterable U.into_iter_gives U.IntoIter.can_next U.IntoIter.remaining iter }
        ensures made { IfOk result (λ s. Gave U.into_iter_gives (of_members U.IntoIter.next_gives) iter None
            (λ ps. MadeShards ⟦<Self as Keyed>⟧.by s (MadeOf ⟦<Self as Keyed>⟧.by ps))) }
        ensures hasher { IfOk result (λ s. S.is_default s.hasher) }
        ensures amount { IfOk result (λ s. IsDefault parallelism s.amount) }
        ensures bad_parallelism { IsErrOf result (Construct Parallelism) ↔ (IsParallelism parallelism → ⊥) }
        ensures refused { IfErr result (NotMade (IsRefusedOf ⟦<Self as Keyed>⟧.by U.into_iter_gives (of_members U.IntoIter.next_gives) iter)) }
    {
        Ok(AloneSet::from_iter(alloc, iter, parallelism)?.end())
    }
}
