//! A shard as a part of a map, into which a list of pairs is put apart from the other shards.
ghost use Rattle.std.specs.Prelude.{◌≡◌, IfOk, IfErr};
ghost use Rattle.dash_shard.specs.Words.{PutsPair, by, key_hash};
ghost use Rattle.dash_shard.specs.inner.Keys.{RoutesAs, routes-stay};

use super::Shard;
use crate::part::Part;
use std::hash::{BuildHasher, Hash};

impl<K: Eq + Hash + Drop, V: Drop, S: BuildHasher> Part<(K, V), ()> for Shard<K, V, S> {
    ghost takes = { λ old pair _ new. PutsPair (by K.Hash S.BuildHasher S.Hasher.Hasher) old pair new };

    ghost fits = { λ shard pair hash. RoutesAs (by K.Hash S.BuildHasher S.Hasher.Hasher) shard pair.0 hash };

    ghost stays = { λ p q s t m y took fit. routes-stay (key_hash K.eq K.hash_input S.BuildHasher S.Hasher.Hasher) p q t.0 m took.inserts.taken.stays fit };

    #[inline]
    fn take(&mut self, pair: (K, V), hash: u64) -> Result<(), (K, V)> {
        let (key, value) = pair;
        match self.insert_hashed(hash, key, value) {
            Ok(_) => Ok(()),
            Err(refused) => Err((refused.key, refused.value)),
        }
    }
}
