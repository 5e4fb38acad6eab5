//! Calls of threads on a map that they share, for those who wait for nobody.
ghost use Rattle.std.specs.Prelude.{◌<◌, IfSome};
ghost use Rattle.dash_map.specs.Words.{FoundBehind, IsGot, IsGotMut, IsShardOf, UnlessLocked};

use crate::map::DashMap;
use dash_ref::held::{IntoShard, ShardMut};
use dash_ref::mapref::one::{Ref, RefMut};
use dash_ref::try_result::TryResult;
use dash_shard::keyed::Keyed;
use dash_shard::lock::RwLockReadGuard;
use dash_shard::query::Query;
use dash_shard::shard::Shard;
use std::hash::{BuildHasher, Hash};

impl<K: Eq + Hash, V, S: BuildHasher> DashMap<K, V, S> {
    /// A hold of the shard for reading, where `RwLock::try_read` gets it.
    #[inline]
    pub(crate) fn try_shard(&self, shard: usize) -> Option<RwLockReadGuard<'_, Shard<K, V, S>>>
        requires { shard < self.now.amount }
        ensures tagged { IfSome result (λ r. IsShardOf ⟦<Self as Keyed>⟧.by self.now shard r.value) }
        ensures found { IfSome result (λ r. FoundBehind r.value) }
    {
        self.lock_of(shard).try_read()
    }

    /// As `get`, for a caller who waits for nobody: the answer is `Locked` where `RwLock::try_read` doesn't get the key's shard, which
    /// says nothing of who has it. It takes no memory.
    #[inline]
    pub fn try_get<Q: Query<K>>(&self, key: Q) -> TryResult<Ref<'_, K, V, S>>
        ensures { UnlessLocked result (IsGot ⟦<Self as Keyed>⟧.by self.now (Q.names key)) }
    {
        let (hash, idx) = self.route_of(key);
        let Some(guard) = self.try_shard(idx) else {
            return TryResult::Locked;
        };
        match Ref::find(guard, hash, key) {
            Some(found) => TryResult::Present(found),
            None => TryResult::Absent,
        }
    }

    /// A hold of the shard for writing, where `RwLock::try_write` gets it.
    #[inline]
    pub(crate) fn try_shards_mut(&self, shard: usize) -> Option<ShardMut<'_, K, V, S>>
        requires { shard < self.now.amount }
        ensures tagged { IfSome result (IsShardOf ⟦<Self as Keyed>⟧.by self.now shard) }
        ensures found { IfSome result FoundBehind }
    {
        match self.lock_of(shard).try_write() {
            Some(guard) => Some(guard.shard()),
            None => None,
        }
    }

    /// As `get_mut`, for a caller who waits for nobody: the answer is `Locked` where `RwLock::try_write` doesn't get the key's shard,
    /// which says nothing of who has it. It takes no memory.
    #[inline]
    pub fn try_get_mut<Q: Query<K>>(&self, key: Q) -> TryResult<RefMut<'_, K, V, S>>
        ensures { UnlessLocked result (IsGotMut ⟦<Self as Keyed>⟧.by self.now (Q.names key)) }
    {
        let (hash, idx) = self.route_of(key);
        let Some(shard) = self.try_shards_mut(idx) else {
            return TryResult::Locked;
        };
        match RefMut::find(shard, hash, key) {
            Some(found) => TryResult::Present(found),
            None => TryResult::Absent,
        }
    }
}
