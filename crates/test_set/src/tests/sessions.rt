//! Users who log in and are logged out.
use crate::tests::checks::is;
use example_uses::sessions::{Sessions, expire, last_seen, log_in_all, see_all};

#[test]
fn who_was_seen_long_ago_is_logged_out(rt: HostRuntime) {
    let mut sessions = Sessions::of(&rt).expect(&rt, "refused");
    is(&rt, last_seen(&rt, &sessions), 0);
    let seen = vec![in rt.alloc(); (1, 10), (2, 20), (3, 17)].expect(&rt, "refused");
    assert!(rt; log_in_all(&rt, &mut sessions, seen).is_ok());
    is(&rt, last_seen(&rt, &sessions), 20);
    expire(&rt, &sessions, 25, 10);
    is(&rt, sessions.len(&rt), 2);
    assert!(rt; !sessions.contains_key(&rt, &1));
    see_all(&rt, &sessions, 30);
    is(
        &rt,
        sessions.fold(&rt, 0, |sum: u64, _, seen| sum.saturating_add(*seen)),
        60,
    );
}
