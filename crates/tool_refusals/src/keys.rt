//! Keys and values that have memory of their own, so that each copy of them takes some.

use dash_steps::kept::{Kept, KeptKey};
use std::alloc::{AllocError, Global};

/// So many pairs fill a shard: one more takes memory.
pub const FULL: u64 = 14;

/// A number with a list, which says nothing to `==` and to hashers.
#[derive_where(PartialEq, Eq, Hash)]
#[derive(Drop)]
pub struct Key {
    pub name: u64,
    #[derive_where(skip(EqHashOrd))]
    pub note: Vec<u64>,
}

/// The list of a number.
pub type Value = Vec<u64>;

// Copies are alike their sources in the list too.
impl Kept for Key {
    ghost use Rattle.std.specs.Cmp.{nat_eq_equiv, on_equiv};
    ghost use Rattle.std.specs.Cmp.Lexicographic.{lists_equiv};
    ghost use Rattle.dash_steps.specs.inner.AlikeLaws.{pair_equiv};

    ghost alike = { λ j k. ⟦<(u64, Vec<u64>) as Kept>⟧.alike (j.name, j.note) (k.name, k.note) };

    fn copy(&self) -> Result<Key, AllocError> {
        Ok(Key {
            name: self.name,
            note: self.note.copy()?,
        })
    }

    fn same(&self, other: &Key) -> bool {
        self.name == other.name && self.note.same(&other.note)
    }

    ghost alike_laws = { on_equiv (λ k. (k.name, k.note.items)) (pair_equiv nat_eq_equiv (lists_equiv nat_eq_equiv)) };
}

impl KeptKey for Key {
    ghost use Rattle.std.specs.Prelude.{◌==◌};
    ghost use Rattle.std.proofs.lemmas.Bool.{and_parts};

    ghost alike_equal = { λ j k same. (and_parts (j.name == k.name) (⟦<Vec<u64> as Kept>⟧.alike j.note k.note) same).0 };
}

/// A key to look up by, with this number. It takes no memory. By `PlaceState` and by `ZeroState` it goes to shard 0 of four.
pub fn bare(alloc: Global, number: u64) -> Key {
    Key {
        name: number.wrapping_mul(4),
        note: Vec::new(alloc),
    }
}

/// The key with this number.
pub fn key_of(alloc: Global, number: u64) -> Result<Key, AllocError> {
    Ok(Key {
        note: value_of(alloc, number)?,
        ..bare(alloc, number)
    })
}

/// The value of the key with this number.
pub fn value_of(alloc: Global, number: u64) -> Result<Value, AllocError> {
    let mut value = Vec::new(alloc);
    value.push(number)?;
    Ok(value)
}

/// The number of a key.
pub fn number_of(key: &Key) -> u64 {
    key.name / 4
}

/// Whether this is the list of this number.
pub fn is_list_of(list: &Value, number: u64) -> bool {
    list.len() == 1 && list.first() == Some(&number)
}

/// Whether this is the key of this number.
pub fn is_key_of(key: &Key, number: u64) -> bool {
    number_of(key) == number && is_list_of(&key.note, number)
}

/// Whether this key and this value are those of this number.
pub fn is_pair_of(key: &Key, value: &Value, number: u64) -> bool {
    is_key_of(key, number) && is_list_of(value, number)
}

/// The key and the value of this number.
pub fn pair_of(alloc: Global, number: u64) -> Result<(Key, Value), AllocError> {
    Ok((key_of(alloc, number)?, value_of(alloc, number)?))
}

/// The pairs of the numbers from `first` on, so many.
pub fn pairs_from(alloc: Global, first: u64, count: u64) -> Result<Vec<(Key, Value)>, AllocError> {
    let mut pairs = Vec::new(alloc);
    for step in 0..count {
        pairs.push(pair_of(alloc, first.wrapping_add(step))?)?;
    }
    Ok(pairs)
}
