//! Files that are counted by digests.
use crate::tests::checks::is;
use example_uses::digests::{Digests, count, count_of};

#[test]
fn a_digest_is_asked_by_its_bytes(rt: HostRuntime) {
    let digests = Digests::of(&rt).expect(&rt, "refused");
    let alloc = rt.alloc();
    is(&rt, count(&rt, alloc, &digests, &[1, 2, 3]).ok(), Some(1));
    is(&rt, count(&rt, alloc, &digests, &[1, 2, 3]).ok(), Some(2));
    is(&rt, count(&rt, alloc, &digests, &[1, 2]).ok(), Some(1));
    is(&rt, count_of(&rt, &digests, &[1, 2, 3]), 2);
    is(&rt, count_of(&rt, &digests, &[1, 2, 3, 4]), 0);
    is(&rt, digests.len(&rt), 2);
}
