//! One step of one shard, its reply, and the record of both.
ghost use Rattle.std.specs.Prelude.{◌≡◌, ◌<◌, ◌↔◌, IfOk, IsTrue};
ghost use Rattle.dash_steps.specs.Words.{by};

use crate::action::Action;
use crate::kept::Kept;
use dash_shard::hash::determine_shard;
use std::alloc::AllocError;
use std::hash::{BuildHasher, Hash};

/// A step of one shard: on the pair of a key, or on all pairs of a shard that it names by its number.
#[derive(Debug, Drop)]
pub enum ShardStep<K, V, A = ()> {
    /// The pair whose key equals the key.
    Get(K),
    /// Whether there is a pair whose key equals the key.
    Contains(K),
    /// Puts the pair, or the value under a stored key that is equal.
    Insert(K, V),
    /// Takes the pair whose key equals the key out.
    Remove(K),
    /// Takes it out if the action returns true. What the action makes of the value is thrown away.
    RemoveIf(K, A),
    /// Changes its value, and takes it out if the action returns true.
    RemoveIfMut(K, A),
    /// Changes its value, whatever the action returns.
    Alter(K, A),
    /// The pairs of the shard.
    Read(usize),
    /// How many pairs the shard has.
    Count(usize),
    /// Changes each value of the shard, whatever the action returns.
    AlterAll(usize, A),
    /// Changes each value of the shard, and takes out the pairs on which the action returns false.
    Retain(usize, A),
    /// The part of a count of the whole map in one shard: what `Count` is.
    CountPart(usize),
    /// The part of a copy of the whole map in one shard: what `Read` is.
    ReadPart(usize),
}

/// A step of all shards at once. It has a part in each.
#[derive(Clone, Copy, Debug, PartialEq, Eq, Drop)]
pub enum Whole {
    /// How many pairs the map has.
    Count,
    /// The pairs of the map.
    Read,
}

impl Whole {
    ghost use Rattle.dash_steps.specs.Steps.{part};

    /// Its part in a shard.
    #[inline]
    pub fn part<K, V, A>(self, shard: usize) -> ShardStep<K, V, A>
        ensures { result ≡ part self shard }
    {
        match self {
            Whole::Count => ShardStep::CountPart(shard),
            Whole::Read => ShardStep::ReadPart(shard),
        }
    }
}

/// What a step returns.
#[derive(Debug, Drop)]
pub enum Reply<K, V> {
    /// The pair that stood at the key, or that was taken out.
    Pair(Option<(K, V)>),
    /// Whether there is a pair.
    Found(bool),
    /// The value that stood at the key.
    Old(Option<V>),
    /// The pairs, each once, in any order.
    Pairs(Vec<(K, V)>),
    /// How many pairs, saturating at 2^64 - 1.
    Number(u64),
    /// The step returns nothing.
    Done,
}

impl<K, V: Kept, A> ShardStep<K, V, A> {
    ghost use Rattle.dash_shard.specs.Contents.{keys};
    ghost use Rattle.dash_shard.specs.Hashing.{IsAmount, route_by};
    ghost use Rattle.dash_shard.specs.Steps.{line, line_shard};
    ghost use Rattle.dash_steps.specs.Steps.{alike_step, step_of, IsPart};
    ghost use Rattle.dash_steps.specs.inner.Hashed.{shard_by, IsAbout, IsHashBy, Asks, OfKey};

    /// The number of the step's shard: the route of its key among `amount` shards, or the number that it names.
    #[inline]
    pub fn shard<S: BuildHasher>(&self, hasher: &S, amount: usize) -> usize
    where
        K: Kept + Eq + Hash,
        A: Action<K, V>,
        requires { IsAmount amount }
        ensures { result ≡ line_shard
            (keys K.eq (route_by (by K.Hash S.BuildHasher S.Hasher.Hasher) hasher.now amount) amount) (line (step_of A.acts self.now)) }
    {
        self.route(hasher, amount).1
    }

    /// The hash of the step's key, or 0 where it has none, and the number of its shard. For the crates here alone.
    #[inline]
    pub fn route<S: BuildHasher>(&self, hasher: &S, amount: usize) -> (u64, usize)
    where
        K: Kept + Eq + Hash,
        A: Action<K, V>,
        requires { IsAmount amount }
        ensures hash { IsHashBy A.acts (by K.Hash S.BuildHasher S.Hasher.Hasher) hasher.now self.now result.0 }
        ensures shard { result.1 ≡ shard_by A.acts (by K.Hash S.BuildHasher S.Hasher.Hasher) hasher.now amount self.now }
    {
        match self.key() {
            Ok(key) => {
                let hash = hasher.hash_one(key);
                (hash, determine_shard(hash, amount))
            }
            Err(shard) => (0, shard),
        }
    }

    /// The step's key, or the number of the shard that it names. For the crates here alone.
    #[inline]
    pub fn key(&self) -> Result<&K, usize>
    where
        K: Kept,
        A: Action<K, V>,
        ensures { IsAbout (line (step_of A.acts self.now)) result }
    {
        match self {
            ShardStep::Get(key)
            | ShardStep::Contains(key)
            | ShardStep::Insert(key, _)
            | ShardStep::Remove(key)
            | ShardStep::RemoveIf(key, _)
            | ShardStep::RemoveIfMut(key, _)
            | ShardStep::Alter(key, _) => Ok(key),
            ShardStep::Read(shard)
            | ShardStep::Count(shard)
            | ShardStep::AlterAll(shard, _)
            | ShardStep::Retain(shard, _)
            | ShardStep::CountPart(shard)
            | ShardStep::ReadPart(shard) => Err(*shard),
        }
    }

    /// Whether the step is a part of a whole step.
    #[inline]
    pub fn is_part(&self) -> bool
        ensures { IsTrue result ↔ IsPart self.now }
    {
        matches!(self, ShardStep::CountPart(_) | ShardStep::ReadPart(_))
    }

    /// The key of a step that asks its action of the pair there.
    pub(crate) fn asked_key(&self) -> &K
    where
        K: Kept,
        A: Action<K, V>,
        requires { Asks self.now }
        ensures { OfKey (line (step_of A.acts self.now)) (λ k. result.now ≡ k) ⊥ }
    {
        match self {
            ShardStep::RemoveIf(key, _)
            | ShardStep::RemoveIfMut(key, _)
            | ShardStep::Alter(key, _) => key,
            _ => unreachable!(),
        }
    }

    /// A copy of the step, alike it.
    pub fn copy(&self) -> Result<ShardStep<K, V, A>, AllocError>
    where
        K: Kept + Drop,
        A: Kept,
        ensures { IfOk result (λ copy. IsTrue (alike_step K.alike V.alike A.alike self.now copy)) }
    {
        match self {
            ShardStep::Get(key) => Ok(ShardStep::Get(key.copy()?)),
            ShardStep::Contains(key) => Ok(ShardStep::Contains(key.copy()?)),
            ShardStep::Insert(key, value) => {
                let key = key.copy()?;
                Ok(ShardStep::Insert(key, value.copy()?))
            }
            ShardStep::Remove(key) => Ok(ShardStep::Remove(key.copy()?)),
            ShardStep::RemoveIf(key, action) => {
                let key = key.copy()?;
                Ok(ShardStep::RemoveIf(key, action.copy()?))
            }
            ShardStep::RemoveIfMut(key, action) => {
                let key = key.copy()?;
                Ok(ShardStep::RemoveIfMut(key, action.copy()?))
            }
            ShardStep::Alter(key, action) => {
                let key = key.copy()?;
                Ok(ShardStep::Alter(key, action.copy()?))
            }
            ShardStep::Read(shard) => Ok(ShardStep::Read(*shard)),
            ShardStep::Count(shard) => Ok(ShardStep::Count(*shard)),
            ShardStep::AlterAll(shard, action) => {
                Ok(ShardStep::AlterAll(*shard, action.copy()?))
            }
            ShardStep::Retain(shard, action) => Ok(ShardStep::Retain(*shard, action.copy()?)),
            ShardStep::CountPart(shard) => Ok(ShardStep::CountPart(*shard)),
            ShardStep::ReadPart(shard) => Ok(ShardStep::ReadPart(*shard)),
        }
    }
}

impl<K: Kept + Drop, V: Kept + Drop> Reply<K, V> {
    ghost use Rattle.dash_steps.specs.Alike.{alike_reply};
    ghost use Rattle.dash_steps.specs.Steps.{reply_of};

    /// A copy of the reply, alike it.
    pub fn copy(&self) -> Result<Reply<K, V>, AllocError>
        ensures { IfOk result (λ copy. IsTrue (alike_reply K.alike V.alike (reply_of self.now) (reply_of copy))) }
    {
        match self {
            Reply::Pair(None) => Ok(Reply::Pair(None)),
            Reply::Pair(Some(pair)) => {
                let key = pair.0.copy()?;
                Ok(Reply::Pair(Some((key, pair.1.copy()?))))
            }
            Reply::Found(found) => Ok(Reply::Found(*found)),
            Reply::Old(None) => Ok(Reply::Old(None)),
            Reply::Old(Some(value)) => Ok(Reply::Old(Some(value.copy()?))),
            Reply::Pairs(pairs) => Ok(Reply::Pairs(pairs.copy()?)),
            Reply::Number(number) => Ok(Reply::Number(*number)),
            Reply::Done => Ok(Reply::Done),
        }
    }
}

impl<K: Kept, V: Kept, A: Kept> ShardStep<K, V, A> {
    ghost use Rattle.dash_steps.specs.Steps.{alike_step};

    /// Whether the two are alike.
    pub fn same(&self, other: &Self) -> bool
        ensures { result ≡ alike_step K.alike V.alike A.alike self.now other.now }
    {
        match (self, other) {
            (ShardStep::Get(j), ShardStep::Get(k))
            | (ShardStep::Contains(j), ShardStep::Contains(k))
            | (ShardStep::Remove(j), ShardStep::Remove(k)) => j.same(k),
            (ShardStep::Insert(j, u), ShardStep::Insert(k, v)) => j.same(k) && u.same(v),
            (ShardStep::RemoveIf(j, f), ShardStep::RemoveIf(k, g))
            | (ShardStep::RemoveIfMut(j, f), ShardStep::RemoveIfMut(k, g))
            | (ShardStep::Alter(j, f), ShardStep::Alter(k, g)) => j.same(k) && f.same(g),
            (ShardStep::Read(i), ShardStep::Read(j))
            | (ShardStep::Count(i), ShardStep::Count(j))
            | (ShardStep::CountPart(i), ShardStep::CountPart(j))
            | (ShardStep::ReadPart(i), ShardStep::ReadPart(j)) => i == j,
            (ShardStep::AlterAll(i, f), ShardStep::AlterAll(j, g))
            | (ShardStep::Retain(i, f), ShardStep::Retain(j, g)) => i == j && f.same(g),
            _ => false,
        }
    }
}

impl<K: Kept + Drop, V: Kept + Drop> Reply<K, V> {
    ghost use Rattle.dash_steps.specs.Alike.{alike_reply};
    ghost use Rattle.dash_steps.specs.Steps.{reply_of};

    /// Whether the two are alike.
    pub fn same(&self, other: &Self) -> bool
        ensures { result ≡ alike_reply K.alike V.alike (reply_of self.now) (reply_of other.now) }
    {
        match (self, other) {
            (Reply::Pair(o), Reply::Pair(p)) => o.same(p),
            (Reply::Found(a), Reply::Found(b)) => a == b,
            (Reply::Old(o), Reply::Old(p)) => o.same(p),
            (Reply::Pairs(l), Reply::Pairs(m)) => l.same(m),
            (Reply::Number(m), Reply::Number(n)) => m == n,
            (Reply::Done, Reply::Done) => true,
            _ => false,
        }
    }
}
