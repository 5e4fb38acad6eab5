//! Names that are stored once.
use crate::tests::checks::is;
use dashmap::DashSet;
use example_uses::names::intern;

#[test]
fn equal_names_are_one_text(rt: HostRuntime) {
    let names = DashSet::new(rt.alloc(), 1).expect(&rt, "refused");
    for _ in 0..2 {
        let name = intern(&rt, rt.alloc(), &names, "fox")
            .expect(&rt, "refused")
            .expect(&rt, "no name");
        is(&rt, name.as_str(), "fox");
    }
    is(&rt, names.len(&rt), 1);
}
