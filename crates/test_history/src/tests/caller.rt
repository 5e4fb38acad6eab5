//! A caller of a recorded map: its steps go to its own log.
use crate::tests::checks::{is, prints};
use crate::tests::maps::{Step, map_of_two};
use dash_history::gather::gather;

#[test]
fn a_caller_has_its_log(rt: HostRuntime) {
    let (mut map, first, second) = map_of_two(&rt, rt.alloc(), 4);
    assert!(rt; first.caller() < map.callers() && second.caller() < map.callers());
    let mut one = map.caller(&rt, first);
    let mut other = map.caller(&rt, second);
    prints(
        &rt,
        rt.alloc(),
        &one.apply(Step::Insert(1, 10)),
        "Ok(Old(None))",
    );
    prints(
        &rt,
        rt.alloc(),
        &other.try_apply(Step::Get(1)),
        "Ok(Pair(Some((1, 10))))",
    );
    is(&rt, one.count_all().ok(), Some(1));
    is(
        &rt,
        other.clone_all().ok().map(|pairs| pairs.len()),
        Some(1),
    );
    is(&rt, (one.log().caller(), other.log().caller()), (0, 1));
    let logs = [other.end(), one.end()];
    let ats = gather(&mut map, &logs).expect(&rt, "refused");
    // Of the two steps on all pairs each shard has a record.
    is(&rt, ats.len(), 10);
}
