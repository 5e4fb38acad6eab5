//! Where pairs and steps go: to the shard of their key, which is hashed once.
ghost use Rattle.std.specs.Prelude.{◌≡◌};
ghost use Rattle.dash_map.specs.Words.{IsAmount, by, route_by};
ghost use Rattle.dash_steps.specs.inner.Hashed.{shard_by, IsHashBy};

use dash_shard::hash::determine_shard;
use dash_shard::part::Dealer;
use dash_steps::action::Action;
use dash_steps::kept::{Kept, KeptKey};
use dash_steps::step::ShardStep;
use std::hash::{BuildHasher, Hash};
use std::marker::Model;

// Deals by the routes of keys, with their hashes as marks. A contract sees the hasher and the number of the shards.
#[derive(Drop)]
pub(crate) struct ByRoute<'a, S> {
    hasher: &'a S,
    amount: usize,
}

impl<'a, S> Model for ByRoute<'a, S> {
    ghost use Rattle.dash_shard.specs.Hashing.{IsAmount};
    ghost use Rattle.dash_map.specs.Map.{MapShape};

    ghost Value = { MapShape S };

    ghost view = { λ d. record { hasher = d.hasher.now; amount = d.amount } };

    ghost invariant = { λ d. IsAmount d.amount };
}

impl<'a, S> ByRoute<'a, S> {
    #[inline]
    pub(crate) fn new(hasher: &'a S, amount: usize) -> Self
        requires { IsAmount amount }
        ensures { result ≡ record { hasher = hasher.now; amount = amount } }
    {
        ByRoute { hasher, amount }
    }
}

impl<'a, K: Eq + Hash, V, S: BuildHasher> Dealer<(K, V)> for ByRoute<'a, S> {
    ghost goes = { λ d pair. route_by (by K.Hash S.BuildHasher S.Hasher.Hasher) d.hasher d.amount pair.0 };

    ghost marks = { λ d pair hash. hash ≡ (by K.Hash S.BuildHasher S.Hasher.Hasher).hash d.hasher pair.0 };

    #[inline]
    fn deal(&self, pair: &(K, V)) -> (u64, usize) {
        let hash = self.hasher.hash_one(&pair.0);
        (hash, determine_shard(hash, self.amount))
    }
}

impl<'a, K: KeptKey, V: Kept, A: Action<K, V>, S: BuildHasher> Dealer<ShardStep<K, V, A>>
    for ByRoute<'a, S> {
    ghost goes = { λ d. shard_by A.acts (by K.Hash S.BuildHasher S.Hasher.Hasher) d.hasher d.amount };

    ghost marks = { λ d. IsHashBy A.acts (by K.Hash S.BuildHasher S.Hasher.Hasher) d.hasher };

    #[inline]
    fn deal(&self, step: &ShardStep<K, V, A>) -> (u64, usize) {
        step.route(self.hasher, self.amount)
    }
}
