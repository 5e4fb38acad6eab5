//! Parallel work on the pairs of shards that nobody else has. A thread takes shard after shard.
ghost use Rattle.std.specs.Prelude.{◌≡◌, List, Vec, Ok, ⊤, All, IfOk, flat_map, map};
ghost use Rattle.std.specs.List.{AllZip};
ghost use Rattle.dash_rows.specs.Words.{MapsEach, MayMap, pairs};

use dash_shard::hash::FixedState;
use dash_shard::shard::{self, Shard};
use rayon::prelude::*;
use std::alloc::{AllocError, Global};
use std::hash::{BuildHasher, Hash};
use std::marker::Model;
use std::thread::Threads;

/// The pairs of a map that ended, by rising shard and in each by rising slot. A contract sees it as their list.
#[derive(Drop)]
pub struct OwningIter<K: Eq + Hash, V, S: BuildHasher = FixedState> {
    shards: Vec<Shard<K, V, S>>,
}

impl<K: Eq + Hash, V, S: BuildHasher> Model for OwningIter<K, V, S> {
    ghost use Rattle.std.specs.Prelude.{List, flat_map};
    ghost use Rattle.dash_shard.specs.Shard.{pairs};

    ghost Value = { List (K × V) };

    ghost view = { λ it. flat_map pairs it.shards.items };
}

impl<K: Eq + Hash, V, S: BuildHasher> OwningIter<K, V, S> {
    /// The pairs of these shards.
    #[inline]
    pub fn new(shards: Vec<Shard<K, V, S>>) -> Self
        ensures { result ≡ flat_map pairs shards.items }
    {
        OwningIter { shards }
    }
}

impl<K: Eq + Hash + Send + Drop, V: Send + Drop, S: BuildHasher + Send + Drop> OwningIter<K, V, S>
where
    S::Hasher: Send,
{
    /// The pairs in a list. Threads take the shards, and wait for nobody.
    ///
    /// It takes memory for a list of each shard's pairs, and for the whole. Where there is none it is refused (4), and all pairs are
    /// dropped.
    pub fn collect<R: Threads + Sync>(self, rt: &R) -> Result<Vec<(K, V)>, AllocError>
        ensures { IfOk result (λ list. list.items ≡ self) }
    {
        let alloc = *self.shards.allocator();
        gathered(
            rt,
            alloc,
            self.shards.into_par_iter(),
            |shard: Shard<K, V, S>| -> Result<Vec<(K, V)>, AllocError>
                ensures { IfOk result (λ list. list.items ≡ pairs shard) }
            { pairs_of(alloc, shard) },
        )
    }

    /// The keys alone in a list, as `collect` takes the pairs. It is public for the sets of `dashmap`.
    pub fn collect_keys<R: Threads + Sync>(self, rt: &R) -> Result<Vec<K>, AllocError>
        ensures { IfOk result (λ list. list.items ≡ map (λ p. p.0) self) }
    {
        let alloc = *self.shards.allocator();
        gathered(
            rt,
            alloc,
            self.shards.into_par_iter(),
            |shard: Shard<K, V, S>| -> Result<Vec<K>, AllocError>
                ensures { IfOk result (λ list. list.items ≡ map (λ p. p.0) (pairs shard)) }
            { keys_of(alloc, shard) },
        )
    }
}

/// The pairs of a view, by rising shard and in each by rising slot. A contract sees it as their list.
#[derive(Drop)]
pub struct Iter<'a, K: Eq + Hash, V, S: BuildHasher = FixedState> {
    shards: &'a Vec<Shard<K, V, S>>,
}

impl<'a, K: Eq + Hash, V, S: BuildHasher> Model for Iter<'a, K, V, S> {
    ghost use Rattle.std.specs.Prelude.{List, flat_map};
    ghost use Rattle.dash_shard.specs.Shard.{pairs};

    ghost Value = { List (K × V) };

    ghost view = { λ it. flat_map pairs it.shards.now.items };
}

impl<'a, K: Eq + Hash, V, S: BuildHasher> Iter<'a, K, V, S> {
    /// The pairs of these shards.
    #[inline]
    pub fn new(shards: &'a Vec<Shard<K, V, S>>) -> Self
        ensures { result ≡ flat_map pairs shards.now.items }
    {
        Iter { shards }
    }
}

impl<K: Eq + Hash + Sync, V: Sync, S: BuildHasher + Sync> Iter<'_, K, V, S>
where
    S::Hasher: Sync,
{
    /// What `f` returns for each pair, in the order of the pairs. Threads take shards, and wait for nobody.
    ///
    /// It takes memory for a list of each shard's answers, and for the whole. Where there is none it is refused (4), and the answers are
    /// dropped.
    pub fn map_collect<R: Threads + Sync, T: Send + Drop, F: Fn(&K, &V) -> T + Sync>(
        self,
        rt: &R,
        f: F,
    ) -> Result<Vec<T>, AllocError>
        requires { All (MayMap F.Fn f) self }
        ensures { IfOk result (λ answers. MapsEach F.Fn f self.entry answers.items) }
    {
        let alloc = *self.shards.allocator();
        gathered(
            rt,
            alloc,
            self.shards.par_iter(),
            |shard: &Shard<K, V, S>| -> Result<Vec<T>, AllocError>
                requires { All (MayMap F.Fn f) (pairs shard.now) }
                ensures { IfOk result (λ list. MapsEach F.Fn f (pairs shard.entry.now) list.items) }
            { answers(alloc, shard.iter(), &f) },
        )
    }
}

// The lists that `f` makes of the parts, joined in the order of the parts. Threads take part after part.
fn gathered<
    R: Threads + Sync,
    P: ParallelIterator,
    T: Send + Drop,
    F: Fn(P::Item) -> Result<Vec<T>, AllocError> + Copy + Send + Sync,
>(rt: &R, alloc: Global, parts: P, f: F) -> Result<Vec<T>, AllocError>
    requires each { P.each parts (λ x. F.pre f x × ((r : _) → F.post f x r → ⊤)) }
    ensures { IfOk result (λ all. (xs : List P.Item) × P.gives parts xs
        × (lists : List (Vec T Global)) × AllZip (λ x list. F.post f x (Ok list)) xs lists
        × (all.items ≡ flat_map (λ list. list.items) lists)) }
{
    let lists: Result<Vec<Vec<T>>, AllocError> = parts.with_min_len(1).map(f).collect(rt, alloc)?;
    joined(alloc, lists?)
}

// The pairs of a shard in a list.
fn pairs_of<K: Eq + Hash + Drop, V: Drop, S: BuildHasher + Drop>(
    alloc: Global,
    shard: Shard<K, V, S>,
) -> Result<Vec<(K, V)>, AllocError>
    ensures { IfOk result (λ list. list.items ≡ pairs shard) }
{
    let mut list = Vec::with_capacity(alloc, shard.len())?;
    for pair in shard.into_iter() {
        list.push(pair)?;
    }
    Ok(list)
}

// The keys of a shard in a list.
fn keys_of<K: Eq + Hash + Drop, V: Drop, S: BuildHasher + Drop>(
    alloc: Global,
    shard: Shard<K, V, S>,
) -> Result<Vec<K>, AllocError>
    ensures { IfOk result (λ list. list.items ≡ map (λ p. p.0) (pairs shard)) }
{
    let mut list = Vec::with_capacity(alloc, shard.len())?;
    for (key, _value) in shard.into_iter() {
        list.push(key)?;
    }
    Ok(list)
}

/// What `f` returns for each pair of a shard. It takes memory for the list, and is refused (4) where there is none.
pub fn answers<K, V, T: Drop, F: Fn(&K, &V) -> T>(
    alloc: Global,
    pairs: shard::Iter<'_, K, V>,
    f: &F,
) -> Result<Vec<T>, AllocError>
    requires { All (MayMap F.Fn f.now) pairs }
    ensures { IfOk result (λ list. MapsEach F.Fn f.now pairs.entry list.items) }
{
    let mut answers = Vec::with_capacity(alloc, pairs.len())?;
    for (key, value) in pairs {
        answers.push(f(key, value))?;
    }
    Ok(answers)
}

/// The items of all lists, one list after the other. It takes memory for them, and is refused (4) where there is none.
pub fn joined<T: Drop>(alloc: Global, lists: Vec<Vec<T>>) -> Result<Vec<T>, AllocError>
    ensures { IfOk result (λ all. all.items ≡ flat_map (λ list. list.items) lists.items) }
{
    let mut all = Vec::new(alloc);
    for mut list in lists {
        all.append(&mut list)?;
    }
    Ok(all)
}
