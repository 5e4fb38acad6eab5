//! Calls of a map of one owner that change the pair of a key.
ghost use Rattle.std.specs.Prelude.{◌≡◌, IfSome};
ghost use Rattle.std.specs.Borrow.{LendsIf, sem};
ghost use Rattle.std.specs.Option.{option_map, option_copied_mut};
ghost use Rattle.dash_map.specs.Words.{Alter, ChangesOn, Done, Given, IsAlone, MayChange, MayGive, RemoveIfMut, RemovesAloneBy, TakesAloneBy, at_named, contents, with_value_at};

use super::Alone;
use dash_shard::keyed::{Keyed, Lender};
use dash_shard::query::Query;
use std::hash::{BuildHasher, Hash};

impl<K: Eq + Hash, V, S: BuildHasher> Lender for Alone<K, V, S> {
    ghost use Rattle.dash_map.specs.contracts.alone.Alone.{the_row};

    ghost row = { the_row K.row V.row S.row S.Hasher.row (record {}) (record { eq = K.eq }) (record { hash_input = K.hash_input }) S.BuildHasher S.Hasher.Hasher };
}

impl<K: Eq + Hash + Drop, V: Drop, S: BuildHasher> Alone<K, V, S> {
    /// As `remove_if`, where `f` may write the value. On `true` the pair is returned as `f` left it, and on `false` it stays so. It takes no
    /// memory, can't be refused, and waits for nobody.
    #[inline]
    pub fn remove_if_mut<Q: Query<K>, F: FnOnce(&K, &mut V) -> bool>(
        &mut self,
        key: Q,
        f: F,
    ) -> Option<(K, V)>
        requires { IfSome (at_named (Q.names key) (contents self.old)) (MayChange F.FnOnce f) }
        ensures { RemovesAloneBy ⟦<Self as Keyed>⟧.by (Q.names key) self.old self.new RemoveIfMut result (ChangesOn F.FnOnce f) }
    {
        let (hash, idx) = self.route_of(key);
        self.row[idx].remove_if_mut_hashed(hash, key, f)
    }

    /// Gives the pair whose key equals `key` the value that `f` makes of its own; without such a pair it does nothing. It takes no
    /// memory, can't be refused, and waits for nobody.
    #[inline]
    pub fn alter<Q: Query<K>, F: FnOnce(&K, V) -> V>(&mut self, key: Q, f: F)
        requires { IfSome (at_named (Q.names key) (contents self.old)) (MayGive F.FnOnce f) }
        ensures { TakesAloneBy ⟦<Self as Keyed>⟧.by self.old self.new Alter (Q.names key) Done (Given F.FnOnce f) }
    {
        let (hash, idx) = self.route_of(key);
        self.row[idx].alter_hashed(hash, key, f);
    }

    /// The value of the pair whose key equals `key`, to be written. It takes no memory, and waits for nobody.
    #[inline]
    pub fn get_mut<Q: Query<K>>(&mut self, key: Q) -> Option<&mut V>
        ensures* writes_back { sem 𝓛 (LendsIf ⟦<Self as Lender>⟧.row V.row self.entry result (with_value_at (Q.names key) self.old) self.old) }
        ensures value { option_copied_mut result ≡ option_map (λ p. p.1) (at_named (Q.names key) (contents self.old)) }
        ensures lawful { IsAlone ⟦<Self as Keyed>⟧.by self.old }
    {
        let (hash, idx) = self.route_of(key);
        self.row[idx].get_mut_hashed(hash, key)
    }
}
