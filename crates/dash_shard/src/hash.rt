//! Hashers of fixed meaning, and the route from a hash to a shard.
ghost use Rattle.std.specs.Prelude.{◌≡◌, ◌↔◌, ◌<◌, IsTrue};
ghost use Rattle.std.specs.List.{fold};
ghost use Rattle.dash_shard.specs.Words.{IsAmount, fnv_start, fnv_step, placed, route_of_hash};

use std::hash::{BuildHasher, Hasher};

/// The state of FNV-1a before any byte.
const FNV_START: u64 = 0xcbf2_9ce4_8422_2325;

/// What FNV-1a multiplies by after each byte.
const FNV_PRIME: u64 = 0x100_0000_01b3;

/// Whether a map may have this many shards.
#[inline]
pub fn is_shard_amount(amount: usize) -> bool
    ensures { IsTrue result ↔ IsAmount amount }
{
    if amount < 2 {
        return false;
    }
    if amount > 1 << 63 {
        return false;
    }
    amount.next_power_of_two() == amount
}

/// The number of the shard of a hash among `amount` shards, as the original's `determine_shard`. The hash's top seven bits don't matter.
#[inline]
pub fn determine_shard(hash: u64, amount: usize) -> usize
    requires { IsAmount amount }
    ensures route { result ≡ route_of_hash amount hash }
    ensures below { result < amount }
{
    let bits = amount.trailing_zeros();
    ((hash << 7) >> (64 - bits)) as usize
}

/// The default hasher: FNV-1a on 64 bits, the same in each run of each program.
///
/// It is fast for short keys. Whoever chooses the keys can make them all meet, which a `std::hash::RandomState` prevents.
#[derive(Clone, Copy, Debug, Default)]
pub struct FixedState;

/// What `FixedState` builds. A number is written as its bytes, the lowest first.
#[derive(Clone, Copy, Debug)]
pub struct FixedHasher {
    hash: u64,
}

impl Hasher for FixedHasher {
    ghost write = { λ s bytes. record { hash = fold fnv_step s.hash bytes } };

    ghost finish = { λ s. s.hash };

    #[inline]
    fn finish(&self) -> u64 {
        self.hash
    }

    #[inline]
    fn write(&mut self, bytes: &[u8]) {
        let mut hash = self.hash;
        for &byte in bytes {
            hash = (hash ^ byte as u64).wrapping_mul(FNV_PRIME);
        }
        *self = FixedHasher { hash };
    }
}

impl BuildHasher for FixedState {
    type Hasher = FixedHasher;

    ghost build_hasher = { λ _. record { hash = fnv_start } };

    #[inline]
    fn build_hasher(&self) -> FixedHasher {
        FixedHasher { hash: FNV_START }
    }
}

/// The hasher by which every hash is 0, so that all keys go to shard 0 and meet there. For tests of the worst case.
#[derive(Clone, Copy, Debug, Default)]
pub struct ZeroState;

/// What `ZeroState` builds.
#[derive(Clone, Copy, Debug)]
pub struct ZeroHasher;

impl Hasher for ZeroHasher {
    ghost write = { λ s _. s };

    ghost finish = { λ _. 0 };

    #[inline]
    fn finish(&self) -> u64 {
        0
    }

    #[inline]
    fn write(&mut self, _bytes: &[u8]) {}
}

impl BuildHasher for ZeroState {
    type Hasher = ZeroHasher;

    ghost build_hasher = { λ _. record {} };

    #[inline]
    fn build_hasher(&self) -> ZeroHasher {
        ZeroHasher
    }
}

/// The hasher by which key `k` goes to shard `k` modulo the amount: a written number of 64 bits makes the hash
/// `k * 2^55`, wrapped, so that its low bits choose the shard. For tests and worked examples: it spreads keys over shards alone.
///
/// Eight bytes that are written at once are that number, the lowest first, as a `u64` writes itself. Any other write leaves the hash.
#[derive(Clone, Copy, Default)]
pub struct PlaceState;

/// What `PlaceState` builds.
#[derive(Clone, Copy)]
pub struct PlaceHasher {
    state: u64,
}

impl Hasher for PlaceHasher {
    ghost write = { λ s bytes. record { state = placed s.state bytes } };

    ghost finish = { λ s. s.state };

    #[inline]
    fn finish(&self) -> u64 {
        self.state
    }

    #[inline]
    fn write(&mut self, bytes: &[u8]) {
        if bytes.len() == 8 {
            let number = u64::from_le_bytes([
                bytes[0], bytes[1], bytes[2], bytes[3], bytes[4], bytes[5], bytes[6], bytes[7],
            ]);
            *self = PlaceHasher {
                state: number.wrapping_mul(1 << 55),
            };
        }
    }
}

impl BuildHasher for PlaceState {
    type Hasher = PlaceHasher;

    ghost build_hasher = { λ _. record { state = 0 } };

    #[inline]
    fn build_hasher(&self) -> PlaceHasher {
        PlaceHasher { state: 0 }
    }
}
