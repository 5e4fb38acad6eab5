//! Hashes and routes, as worked by hand or elsewhere.
use crate::tests::checks::is;
use dash_shard::hash::{FixedState, PlaceState, ZeroState, determine_shard, is_shard_amount};
use std::hash::{BuildHasher, Hasher};

// FNV-1a's published vectors.
#[test]
fn hashes_of_bytes(rt: HostRuntime) {
    for (text, hash) in [
        ("", 0xcbf2_9ce4_8422_2325),
        ("a", 0xaf63_dc4c_8601_ec8c),
        ("foobar", 0x8594_4171_f739_67e8),
    ] {
        let mut hasher = FixedState.build_hasher();
        hasher.write(text.as_bytes());
        is(&rt, (text, hasher.finish()), (text, hash));
    }
}

// FNV-1a of the number's eight bytes, the lowest first, worked out elsewhere.
#[test]
fn hashes_of_numbers(rt: HostRuntime) {
    for (number, hash, placed) in [
        (0u64, 0xa8c7_f832_281a_39c5, 0),
        (1, 0x89cd_3129_1d2a_efa4, 1 << 55),
        (0x0102_0304_0506_0708, 0x0c6d_4496_e178_59d5, 0x108 << 55),
        (u64::MAX, 0x8cf5_1a8b_fca3_883d, 511 << 55),
    ] {
        let hashes = (FixedState.hash_one(&number), PlaceState.hash_one(&number));
        is(&rt, (number, hashes), (number, (hash, placed)));
        is(&rt, ZeroState.hash_one(&number), 0);
    }
}

#[test]
fn routes_among_lawful_amounts(rt: HostRuntime) {
    for (amount, hash, shard) in [
        (4, 1 << 55, 1),
        (4, 1 << 56, 2),
        (4, 1 << 57, 0),
        (4, u64::MAX, 3),
        (2, (1 << 56) - 1, 0),
        (2, 1 << 56, 1),
    ] {
        assert!(rt; is_shard_amount(amount), "{amount}");
        let found = determine_shard(hash, amount);
        is(&rt, (amount, hash, found), (amount, hash, shard));
    }
    for amount in [0, 1, 3] {
        assert!(rt; !is_shard_amount(amount), "{amount}");
    }
}
