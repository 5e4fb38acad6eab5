//! A held shard's calls that lend a value for writing.
ghost use Rattle.std.specs.Prelude.{◌≡◌, IsSome, Some};
ghost use Rattle.std.specs.Borrow.{Lends, LendsIf, sem};
ghost use Rattle.std.specs.Map.Iter.{deref_pair_mut};
ghost use Rattle.std.specs.Option.{option_map, option_copied_mut};
ghost use Rattle.dash_ref.specs.Words.{IsHashOf, IsShard, at_named, pairs, slot, with_value_in, with_value_of};

use super::HeldShard;
use super::holds::Holds;
use dash_shard::keyed::{Keyed, Lender};
use dash_shard::query::Query;
use dash_shard::shard::Shard;
use std::hash::{BuildHasher, Hash};

impl<K: Eq + Hash, V, S: BuildHasher, H: Holds<Key = K, Value = V, State = S>> Lender
    for HeldShard<K, V, S, H> {
    ghost use Rattle.dash_ref.specs.contracts.held.HeldShard.{the_row};

    ghost row = { the_row K.row V.row S.row H.row S.Hasher.row H.Lock.row (record { eq = K.eq }) (record { hash_input = K.hash_input }) S.BuildHasher S.Hasher.Hasher H.Holds };
}

impl<K: Eq + Hash, V, S: BuildHasher, H: Holds<Key = K, Value = V, State = S>> HeldShard<
    K,
    V,
    S,
    H,
> {
    /// The value of the pair whose key equals `key`, to be written. For the stored key beside it there are `position_of` and `at_mut`.
    #[inline]
    pub fn get_mut<Q: Query<K>>(&mut self, key: Q) -> Option<&mut V>
        ensures* writes_back { sem 𝓛 (LendsIf ⟦<Self as Lender>⟧.row V.row self.entry result (with_value_of (Q.names key) self.old) self.old) }
        ensures value { option_copied_mut result ≡ option_map (λ p. p.1) (at_named (Q.names key) (pairs self.old)) }
        ensures lawful { IsShard ⟦<Self as Keyed>⟧.by self.old }
    {
        let hash = self.hash_one(key);
        self.get_mut_hashed(hash, key)
    }

    /// As `get_mut`, for a caller who has the key's hash.
    #[inline]
    pub fn get_mut_hashed<Q: Query<K>>(&mut self, hash: u64, key: Q) -> Option<&mut V>
        requires { IsHashOf ⟦<Self as Keyed>⟧.by self.old.hasher (Q.names key) hash }
        ensures* writes_back { sem 𝓛 (LendsIf ⟦<Self as Lender>⟧.row V.row self.entry result (with_value_of (Q.names key) self.old) self.old) }
        ensures value { option_copied_mut result ≡ option_map (λ p. p.1) (at_named (Q.names key) (pairs self.old)) }
        ensures lawful { IsShard ⟦<Self as Keyed>⟧.by self.old }
    {
        match self.position_of_hashed(hash, key) {
            Some(position) => Some(self.at_mut(position).1),
            None => None,
        }
    }

    /// As `at`, for a value to be written.
    #[inline]
    pub fn at_mut(&mut self, position: usize) -> (&K, &mut V)
        requires { IsSome (slot self.old.slots position) }
        ensures* writes_back { sem 𝓛 (Lends ⟦<Self as Lender>⟧.row V.row self.entry result.1 (with_value_in self.old position)) }
        ensures pair { slot self.old.slots position ≡ Some (deref_pair_mut result) }
        ensures lawful { IsShard ⟦<Self as Keyed>⟧.by self.old }
    {
        self.hold.lend(position)
    }
}
