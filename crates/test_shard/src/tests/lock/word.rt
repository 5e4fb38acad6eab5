//! The word of a lock and its events, as worked by hand.
use crate::tests::checks::is;
use dash_shard::lock::word::LockEvent::{
    self, ClearWriters, Downgrade, ReleaseExclusive, ReleaseShared, SetMark, TakeExclusive,
    TakeShared,
};
use dash_shard::lock::word::LockWord;
use dash_shard::lock::word::Mark::{Readers, Writers};

// The word of a writer and no mark: 2^64 - 4.
const WRITER: u64 = 0xffff_ffff_ffff_fffc;

#[test]
fn words_after_one_event(rt: HostRuntime) {
    for (bits, event, after) in [
        (0, TakeExclusive, Some(WRITER)),
        (WRITER, Downgrade, Some(4)),
        (4, ReleaseShared, Some(0)),
        (2, TakeExclusive, Some(WRITER + 2)),
        (WRITER + 2, Downgrade, Some(6)),
        (6, ReleaseShared, Some(2)),
        (2, ClearWriters, Some(0)),
        (WRITER - 4, TakeShared, None),
        (WRITER - 4, ReleaseShared, Some(WRITER - 8)),
        (4, TakeExclusive, None),
        (u64::MAX, ReleaseExclusive, Some(0)),
    ] {
        let word = LockWord::from_bits(bits).step(event);
        is(
            &rt,
            (bits, event, word),
            (bits, event, after.map(LockWord::from_bits)),
        );
    }
}

#[test]
fn words_after_a_list_of_events(rt: HostRuntime) {
    let rows: [(&[LockEvent], Option<u64>); 5] = [
        (&[], Some(0)),
        (
            &[
                TakeShared,
                SetMark(Writers),
                ReleaseShared,
                ClearWriters,
                TakeExclusive,
            ],
            Some(WRITER),
        ),
        (
            &[TakeExclusive, SetMark(Readers), SetMark(Writers), Downgrade],
            Some(6),
        ),
        (
            &[TakeShared, TakeShared, ReleaseShared, TakeExclusive],
            None,
        ),
        (&[SetMark(Readers)], None),
    ];
    for (events, after) in rows {
        is(
            &rt,
            (events, LockWord::run(events)),
            (events, after.map(LockWord::from_bits)),
        );
    }
}
