//! Copies of shards.
ghost use Rattle.std.specs.Prelude.{◌≡◌, ◌<◌, None, IfOk, OnOk};
ghost use Rattle.dash_rows.specs.Words.{HashAlike, IsShard, Routes, at, pairs, shard_len};
ghost use Rattle.dash_rows.specs.inner.Copies.{PutsCopy, IsCopied, AreCopied};

use dash_shard::keyed::Keyed;
use dash_shard::shard::Shard;
use dash_steps::kept::{Kept, KeptKey};
use std::alloc::{AllocError, Global};
use std::hash::BuildHasher;

// Puts a copy of the pair in a shard that has no equal key.
fn put_copy<K: KeptKey + Drop, V: Kept + Drop, S: BuildHasher + Clone>(
    shard: &mut Shard<K, V, S>,
    key: &K,
    value: &V,
) -> Result<(), AllocError>
    requires route { Routes ⟦<Shard<K, V, S> as Keyed>⟧.by shard.old key.now }
    requires absent { at K.eq (pairs shard.old) key.now ≡ None }
    requires room { shard_len shard.old < shard.old.capacity }
    ensures puts { OnOk result (PutsCopy K.eq K.alike V.alike S.is_clone shard.old shard.new key.now value.now) }
    ensures lawful { OnOk result (IsShard ⟦<Shard<K, V, S> as Keyed>⟧.by shard.new) }
{
    let key = key.copy()?;
    let value = value.copy()?;
    shard.insert_new(key, value);
    Ok(())
}

/// A copy of a shard. It takes memory once, and what the copies of keys and values take, and is refused (4) where there is none.
pub fn copy_shard<K: KeptKey + Drop, V: Kept + Drop, S: BuildHasher + Clone + Drop>(
    alloc: Global,
    shard: &Shard<K, V, S>,
) -> Result<Shard<K, V, S>, AllocError>
    requires { (s t : S) → S.is_clone s t → HashAlike ⟦<Shard<K, V, S> as Keyed>⟧.by s t }
    ensures { IfOk result (IsCopied K.eq K.alike V.alike S.is_clone ⟦<Shard<K, V, S> as Keyed>⟧.by shard.now) }
{
    let hasher = shard.hasher().clone()?;
    let Ok(mut copy) = Shard::new(alloc, hasher, shard.number(), shard.amount(), shard.len()) else {
        return Err(AllocError);
    };
    for (key, value) in shard.iter() {
        put_copy(&mut copy, key, value)?;
    }
    Ok(copy)
}

/// Copies of these shards, in their order. It takes memory for their row besides, and is refused (4) where there is none.
pub fn copy_shards<K: KeptKey + Drop, V: Kept + Drop, S: BuildHasher + Clone + Drop>(
    alloc: Global,
    shards: &[Shard<K, V, S>],
) -> Result<Vec<Shard<K, V, S>>, AllocError>
    requires { (s t : S) → S.is_clone s t → HashAlike ⟦<Shard<K, V, S> as Keyed>⟧.by s t }
    ensures { IfOk result (λ copies. AreCopied K.eq K.alike V.alike S.is_clone ⟦<Shard<K, V, S> as Keyed>⟧.by shards.now copies.items) }
{
    let mut copies = Vec::with_capacity(alloc, shards.len())?;
    for shard in shards {
        copies.push_reserved(copy_shard(alloc, shard)?);
    }
    Ok(copies)
}
