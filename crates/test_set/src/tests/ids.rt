//! Names with numbers.
use crate::tests::checks::is;
use example_uses::ids::Ids;

#[test]
fn each_name_has_one_number(rt: HostRuntime) {
    let ids = Ids::of(&rt).expect(&rt, "refused");
    let alloc = rt.alloc();
    is(&rt, ids.id_of(&rt, alloc, "fox").ok(), Some(0));
    is(&rt, ids.id_of(&rt, alloc, "hen").ok(), Some(1));
    is(&rt, ids.id_of(&rt, alloc, "fox").ok(), Some(0));
    is(&rt, ids.len(&rt), 2);
}
