//! Changes of a pair's value that steps carry.
ghost use Rattle.std.specs.Prelude.{◌≡◌, Bool, true, IsTrue, refl};

use crate::kept::Kept;

/// A change of a pair's value, which returns a `bool` too. It stands where the original takes a closure, since a record keeps it.
///
/// The new value and what it returns depend on the action and the pair alone, and are alike for alike pairs.
pub trait Action<K: Kept, V: Kept>: Sized {
    // The new value, and what it returns.
    ghost acts: { Self → K → V → V × Bool };

    /// Changes the value, and returns what the original's closure would.
    fn act(&self, key: &K, value: &mut V) -> bool
        ensures value { IsTrue (V.alike (acts self.now key.now value.old).0 value.new) }
        ensures answer { result ≡ (acts self.now key.now value.old).1 };

    ghost acts_alike: { (f : Self) (j k : K) (u v : V) → K.alike j k ≡ true → V.alike u v ≡ true → (V.alike (acts f j u).0 (acts f k v).0 ≡ true) × ((acts f j u).1 ≡ (acts f k v).1) };
}

/// An action with exact copies, which do what it does.
pub trait KeptAction<K: Kept, V: Kept>: Action<K, V> + Kept {
    ghost alike_acts: { (f g : Self) (k : K) (v : V) → Self.alike f g ≡ true → (V.alike (Self.acts f k v).0 (Self.acts g k v).0 ≡ true) × ((Self.acts f k v).1 ≡ (Self.acts g k v).1) };
}

/// The action of a map whose steps have none: it leaves the value, and returns true.
impl<K: Kept, V: Kept> Action<K, V> for () {
    ghost acts = { λ _ _ v. (v, true) };

    #[inline]
    fn act(&self, _key: &K, _value: &mut V) -> bool {
        true
    }

    ghost acts_alike = { λ _ _ _ _ _ _ value. (value, refl) };
}

impl<K: Kept, V: Kept> KeptAction<K, V> for () {
    ghost alike_acts = { λ _ _ _ v _. (V.alike_laws.refl v, refl) };
}
