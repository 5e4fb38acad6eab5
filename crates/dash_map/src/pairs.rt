//! Lists of copies of a map's pairs, and what a closure makes of them.
ghost use Rattle.std.specs.Prelude.{IfOk, map};
ghost use Rattle.std.specs.List.{FoldsTo};
ghost use Rattle.dash_map.specs.Words.{CopiesEach, Folds, IsAlone, MayFold, MayVisit, SawShards, Visits, contents, of_key, of_pair};

use crate::alone::Alone;
use crate::map::DashMap;
use dash_shard::keyed::Keyed;
use dash_shard::shard::Iter;
use dash_steps::kept::Kept;
use dash_steps::sweep::add_copies;
use std::alloc::AllocError;
use std::hash::{BuildHasher, Hash};
use std::rt::Clock;
use std::sync::Wait;

// What `f` makes of `first` and these pairs, called at each in turn with what it made before, and the closure as that leaves it.
#[inline]
pub(crate) fn fold_pairs<K, V, T, F: FnMut(T, &K, &V) -> T>(
    pairs: Iter<'_, K, V>,
    first: T,
    mut f: F,
) -> (T, F)
    requires { MayFold of_pair F.FnMut f first }
    ensures { FoldsTo (Folds of_pair F.FnMut) (f, first) pairs.entry (result.1, result.0) }
{
    let mut folded = first;
    for (key, value) in pairs {
        folded = f(folded, key, value);
    }
    (folded, f)
}

// The same of their keys.
#[inline]
pub(crate) fn fold_keys_of<K, V, T, F: FnMut(T, &K) -> T>(
    pairs: Iter<'_, K, V>,
    first: T,
    mut f: F,
) -> (T, F)
    requires { MayFold of_key F.FnMut f first }
    ensures { FoldsTo (Folds of_key F.FnMut) (f, first) (map (λ p. p.0) pairs.entry) (result.1, result.0) }
{
    let mut folded = first;
    for (key, _) in pairs {
        folded = f(folded, key);
    }
    (folded, f)
}

// Calls `f` at each of these pairs in turn, and returns it as that leaves it.
#[inline]
pub(crate) fn visit_pairs<K, V, F: FnMut(&K, &V)>(pairs: Iter<'_, K, V>, mut f: F) -> F
    requires { MayVisit of_pair F.FnMut f }
    ensures { FoldsTo (Visits of_pair F.FnMut) f pairs.entry result }
{
    for (key, value) in pairs {
        f(key, value);
    }
    f
}

// The same of their keys.
#[inline]
pub(crate) fn visit_keys_of<K, V, F: FnMut(&K)>(pairs: Iter<'_, K, V>, mut f: F) -> F
    requires { MayVisit of_key F.FnMut f }
    ensures { FoldsTo (Visits of_key F.FnMut) f (map (λ p. p.0) pairs.entry) result }
{
    for (key, _) in pairs {
        f(key);
    }
    f
}

impl<K: Eq + Hash + Kept + Drop, V: Kept + Drop, S: BuildHasher> Alone<K, V, S> {
    /// A copy of each pair, by rising shard and in each by rising slot.
    ///
    /// It takes memory for the list, once, and what `Kept::copy` takes. Where there is none it is refused (4).
    pub fn pairs(&self) -> Result<Vec<(K, V)>, AllocError>
        ensures copies { IfOk result (λ list. CopiesEach K.alike V.alike (contents self.now) list.items) }
        ensures lawful { IsAlone ⟦<Self as Keyed>⟧.by self.now }
    {
        let mut copies = Vec::with_capacity(self.row.allocator(), self.len())?;
        for (key, value) in self.iter() {
            let key = key.copy()?;
            copies.push((key, value.copy()?))?;
        }
        Ok(copies)
    }
}

impl<K: Eq + Hash + Kept + Drop, V: Kept + Drop, S: BuildHasher> DashMap<K, V, S> {
    /// A copy of each pair, by rising shard and in each by rising slot. Waits until no writer has a shard, for one shard after the other:
    /// others may change those that it copied before.
    ///
    /// It takes memory as `Alone::pairs` does, where nobody puts pairs meanwhile, and is refused (4) where there is none.
    pub fn pairs<R: Wait + Clock>(&self, rt: &R) -> Result<Vec<(K, V)>, AllocError>
        ensures { IfOk result (λ list. SawShards ⟦<Self as Keyed>⟧.by self.now (λ a. CopiesEach K.alike V.alike (contents a) list.items)) }
    {
        let mut copies = Vec::with_capacity(self.row.allocator(), self.len(rt))?;
        for idx in 0..self.row.len() {
            let shard = self.read_shard(rt, idx);
            add_copies(&mut copies, shard.iter())?;
        }
        Ok(copies)
    }
}
