//! Pages whose lines are counted once.
use crate::tests::checks::is;
use example_uses::pages::{counts_of, lines_of};

#[test]
fn pages_have_lines(rt: HostRuntime) {
    let counts = counts_of(rt.alloc(), 1_000, 1).expect(&rt, "refused");
    let page = format!(in rt.alloc(); "the fox\nsleeps\n").expect(&rt, "refused");
    for _ in 0..2 {
        is(&rt, lines_of(&rt, &counts, &page), Ok(2));
    }
    is(&rt, counts.len(&rt), 1);
}
