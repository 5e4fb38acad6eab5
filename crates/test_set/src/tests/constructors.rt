//! Amounts and capacities that no memory holds, or that aren't lawful.
use crate::tests::checks::is;
use dashmap::DashMap;
use dashmap::error::{ConstructError, FromRefused};

type Map = DashMap<u64, u64>;

// Both amounts are lawful, and more than there can be memory for. A bad amount is refused before a capacity.
#[test]
fn sizes_past_the_end(rt: HostRuntime) {
    let amount = Map::with_shard_amount(rt.alloc(), 1 << 63).err();
    is(&rt, amount, Some(ConstructError::Memory));
    let parallelism = Map::new(rt.alloc(), 1 << 61).err();
    is(&rt, parallelism, Some(ConstructError::Memory));
    let both = Map::with_capacity_and_shard_amount(rt.alloc(), usize::MAX, 3).err();
    is(&rt, both, Some(ConstructError::ShardAmount));
}

#[test]
fn a_list_for_no_processor(rt: HostRuntime) {
    let list = vec![in rt.alloc(); (1, 10)].expect(&rt, "refused");
    let refused = Map::from_pairs(rt.alloc(), list, 0)
        .err()
        .expect(&rt, "a map");
    let text = format!(in rt.alloc(); "{refused}").expect(&rt, "refused");
    is(&rt, text.as_str(), "parallelism (6)");
    let is_construct = matches!(refused, FromRefused::Construct(ConstructError::Parallelism));
    is(&rt, is_construct, true);
}
