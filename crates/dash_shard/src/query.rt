//! What a look-up takes in the place of a key.
ghost use Rattle.std.specs.Prelude.{◌≡◌, Bool, IsTrue};
ghost use Rattle.std.proofs.Common.{ap, sym, ◌∙◌};
ghost use Rattle.std.specs.Cmp.Lexicographic.{pointwise, bytes_decides, lists_equiv, nat_list_eq_equiv};
ghost use Rattle.std.specs.Hash as fed;
ghost use Rattle.std.specs.Hash.{items_Alike};
ghost use Rattle.std.specs.Str.{bytes_eq};
ghost use Rattle.std.specs.Box.{boxed_slice_items, boxed_str_bytes};
ghost use Rattle.std.specs.Cow.{cow_slice_items, cow_str_bytes};
ghost use Rattle.std.specs.Rc.{rc_str_bytes};
ghost use Rattle.std.specs.String.{string_bytes};

use std::alloc::Allocator;
use std::borrow::{CowSlice, CowStr};
use std::boxed::{BoxedSlice, BoxedStr};
use std::hash::Hash;
use std::rc::RcStr;

/// A value by which a key is looked up: a `&K` at any keys, a `&str` at keys that are a `String`, a `&[T]` at those that are a `Vec<T>`.
///
/// It takes the place of the original's `K: Borrow<Q>`, and names keys that are equal to each other.
pub trait Query<K: Eq + Hash>: Copy + Hash {
    // Which keys it names.
    ghost names: { Self → K → Bool };

    /// Whether it names the key.
    fn names(&self, key: &K) -> bool
        ensures { result ≡ names self.now key.now };

    // It is hashed as each key that it names.
    ghost respects_hash: { (q : Self) (k : K) → IsTrue (names q k) → Self.hash_input q ≡ K.hash_input k };

    // Beside one key it names those that are equal to it, and no other.
    ghost respects_eq: { (q : Self) (x y : K) → IsTrue (names q x) → names q y ≡ K.eq x y };
}

impl<K: Eq + Hash> Query<K> for &K {
    ghost names = { λ q k. K.eq k q.now };

    ghost respects_hash = { λ q k h. sym (K.respects_eq k q.now h) };

    ghost respects_eq = { λ q x y h. K.Eq.laws.symm y q.now ∙ sym (K.Eq.laws.congr x q.now y h) };

    #[inline(always)]
    fn names(&self, key: &K) -> bool {
        key.eq(*self)
    }
}

impl<'b, T: Eq + Hash> Query<&'b [T]> for &[T] {
    ghost names = { λ q k. pointwise T.eq q.now k.now };

    ghost respects_hash = { λ q k. (items_Alike (record { fed = T.respects_eq })).fed q.now k.now };

    ghost respects_eq = { λ q x y. (lists_equiv T.Eq.laws).congr q.now x.now y.now };

    fn names(&self, key: &&'b [T]) -> bool {
        *self == *key
    }
}

impl<T: Eq + Hash, B: Allocator> Query<Vec<T, B>> for &[T] {
    ghost names = { λ q k. pointwise T.eq q.now k.items };

    ghost respects_hash = { λ q k. (items_Alike (record { fed = T.respects_eq })).fed q.now k.items };

    ghost respects_eq = { λ q x y. (lists_equiv T.Eq.laws).congr q.now x.items y.items };

    fn names(&self, key: &Vec<T, B>) -> bool {
        *self == key.as_slice()
    }
}

impl<T: Eq + Hash, B: Allocator> Query<BoxedSlice<T, B>> for &[T] {
    ghost names = { λ q k. pointwise T.eq q.now (boxed_slice_items k) };

    ghost respects_hash = { λ q k. (items_Alike (record { fed = T.respects_eq })).fed q.now (boxed_slice_items k) };

    ghost respects_eq = { λ q x y. (lists_equiv T.Eq.laws).congr q.now (boxed_slice_items x) (boxed_slice_items y) };

    fn names(&self, key: &BoxedSlice<T, B>) -> bool {
        *self == key.as_slice()
    }
}

impl<'b, T: Eq + Hash, B: Allocator> Query<CowSlice<'b, T, B>> for &[T] {
    ghost names = { λ q k. pointwise T.eq q.now (cow_slice_items k) };

    ghost respects_hash = { λ q k. (items_Alike (record { fed = T.respects_eq })).fed q.now (cow_slice_items k) };

    ghost respects_eq = { λ q x y. (lists_equiv T.Eq.laws).congr q.now (cow_slice_items x) (cow_slice_items y) };

    fn names(&self, key: &CowSlice<'b, T, B>) -> bool {
        *self == key.as_slice()
    }
}

impl<'b> Query<&'b str> for &str {
    ghost names = { λ q k. bytes_eq q.now k.now };

    ghost respects_hash = { λ q k h. ap fed.str ((bytes_decides q.now k.now).0 h) };

    ghost respects_eq = { λ q x y. nat_list_eq_equiv.congr q.now x.now y.now };

    fn names(&self, key: &&'b str) -> bool {
        *self == *key
    }
}

impl<A: Allocator> Query<String<A>> for &str {
    ghost names = { λ q k. bytes_eq q.now (string_bytes k) };

    ghost respects_hash = { λ q k h. ap fed.str ((bytes_decides q.now (string_bytes k)).0 h) };

    ghost respects_eq = { λ q x y. nat_list_eq_equiv.congr q.now (string_bytes x) (string_bytes y) };

    fn names(&self, key: &String<A>) -> bool {
        *self == key.as_str()
    }
}

impl<A: Allocator> Query<BoxedStr<A>> for &str {
    ghost names = { λ q k. bytes_eq q.now (boxed_str_bytes k) };

    ghost respects_hash = { λ q k h. ap fed.str ((bytes_decides q.now (boxed_str_bytes k)).0 h) };

    ghost respects_eq = { λ q x y. nat_list_eq_equiv.congr q.now (boxed_str_bytes x) (boxed_str_bytes y) };

    fn names(&self, key: &BoxedStr<A>) -> bool {
        *self == key.as_str()
    }
}

impl<A: Allocator> Query<RcStr<A>> for &str {
    ghost names = { λ q k. bytes_eq q.now (rc_str_bytes k) };

    ghost respects_hash = { λ q k h. ap fed.str ((bytes_decides q.now (rc_str_bytes k)).0 h) };

    ghost respects_eq = { λ q x y. nat_list_eq_equiv.congr q.now (rc_str_bytes x) (rc_str_bytes y) };

    fn names(&self, key: &RcStr<A>) -> bool {
        *self == key.as_str()
    }
}

impl<'b, A: Allocator> Query<CowStr<'b, A>> for &str {
    ghost names = { λ q k. bytes_eq q.now (cow_str_bytes k) };

    ghost respects_hash = { λ q k h. ap fed.str ((bytes_decides q.now (cow_str_bytes k)).0 h) };

    ghost respects_eq = { λ q x y. nat_list_eq_equiv.congr q.now (cow_str_bytes x) (cow_str_bytes y) };

    fn names(&self, key: &CowStr<'b, A>) -> bool {
        *self == key.as_str()
    }
}
