//! When users were last seen, in seconds: they log in, and who wasn't seen for long is logged out.
use dashmap::DashMap;
use std::alloc::AllocError;
use std::rt::Clock;
use std::sync::Wait;
use std::thread::Threads;

/// When each user was last seen, by the user's number.
pub type Sessions = DashMap<u64, u64>;

/// Logs out who wasn't seen for so long. Waits for one shard after the other.
pub fn expire<R: Wait + Clock>(rt: &R, sessions: &Sessions, now: u64, most: u64) {
    sessions.retain(rt, |_, seen| now.saturating_sub(*seen) < most);
}

/// When somebody was last seen, 0 for nobody. Waits for one shard after the other.
pub fn last_seen<R: Wait + Clock>(rt: &R, sessions: &Sessions) -> u64 {
    sessions.fold(rt, 0, |last: u64, _, seen| last.max(*seen))
}

/// Notes that everybody was seen now. Waits for one shard after the other, and holds it while it writes.
pub fn see_all<R: Wait + Clock>(rt: &R, sessions: &Sessions, now: u64) {
    let mut sessions = sessions.caller(rt);
    let mut walk = sessions.iter_mut();
    while let Some(seen) = walk.next_mut() {
        *seen = now;
    }
}

/// Logs in whom a list names, by four workers. Where memory is refused, some of them are.
pub fn log_in_all<R: Threads + Sync>(
    rt: &R,
    sessions: &mut Sessions,
    list: Vec<(u64, u64)>,
) -> Result<(), AllocError> {
    sessions.par_extend(rt, list, 4)
}
