//! What a replay says of true and of false replies, and of other pairs.
use crate::tests::checks::is;
use dash_history::record::Record;
use dash_script::threads::replay::{has_just, takes};
use dash_steps::step::{Reply, ShardStep};
use std::alloc::{AllocError, Global};
use std::collections::HashMap;

// Whether a plain map that has (1, 10) takes the step with this reply, and has then just these pairs.
fn fits(
    alloc: Global,
    step: ShardStep<u64, u64>,
    reply: Reply<u64, u64>,
    pairs: &[(u64, u64)],
) -> Result<(bool, bool), AllocError> {
    let mut plain = HashMap::new(alloc);
    plain.insert(1, 10)?;
    let record = Record {
        stamp: 1,
        caller: 0,
        shard: 1,
        step,
        reply,
    };
    let taken = takes(&mut plain, &record)?;
    Ok((taken, has_just(plain, pairs)))
}

#[test]
fn false_replies_and_other_pairs_are_seen(rt: HostRuntime) {
    let one: &[(u64, u64)] = &[(1, 10)];
    let two: &[(u64, u64)] = &[(5, 50), (1, 10)];
    for (step, reply, pairs, fit) in [
        (
            ShardStep::Get(1),
            Reply::Pair(Some((1, 10))),
            one,
            (true, true),
        ),
        (
            ShardStep::Get(1),
            Reply::Pair(Some((1, 11))),
            two,
            (false, false),
        ),
        (ShardStep::Get(1), Reply::Old(Some(10)), one, (false, true)),
        (
            ShardStep::Insert(5, 50),
            Reply::Old(None),
            two,
            (true, true),
        ),
        (
            ShardStep::Insert(5, 50),
            Reply::Old(Some(50)),
            one,
            (false, false),
        ),
        (
            ShardStep::Remove(1),
            Reply::Pair(Some((1, 10))),
            &[],
            (true, true),
        ),
        (ShardStep::Remove(1), Reply::Pair(None), one, (false, false)),
        (
            ShardStep::Contains(1),
            Reply::Found(true),
            one,
            (false, true),
        ),
    ] {
        is(&rt, fits(rt.alloc(), step, reply, pairs), Ok(fit));
    }
}
