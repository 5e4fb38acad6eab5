//! How often pages were seen, and who is logged in.
#![tactic(auto)]

ghost use Rattle.std.specs.Prelude.{◌<◌, IfOk};

use dashmap::DashMap;
use std::rt::Clock;
use std::sync::Wait;

fn main(rt: HostRuntime) -> anyhow::Result<()> {
    show_pages(&rt, &DashMap::of(&rt)?)?;
    show_session(&rt, &DashMap::with_shard_amount(rt.alloc(), 4)?)
}

fn show_pages<R: Wait + Clock + Print>(rt: &R, seen: &DashMap<u64, u64>) -> anyhow::Result<()> {
    for page in [7, 8, 7] {
        println!(rt; "page {page}: {}", count(rt, seen, page)?)?;
    }
    Ok(())
}

// Counts a page once more, and says how often it was seen. The entry holds its shard, so that no count is lost.
fn count<R: Wait + Clock>(rt: &R, seen: &DashMap<u64, u64>, page: u64) -> anyhow::Result<u64>
    ensures counted { IfOk result (λ n. 0 < n) }
{
    let mut count = seen.entry(rt, page)?.or_insert(0);
    let now = count.saturating_add(1);
    *count = now;
    Ok(now)
}

// How many minutes a user stays logged in.
#[derive(Debug, Drop)]
struct Session {
    minutes: u64,
}

fn show_session<R: Wait + Clock + Print>(
    rt: &R,
    sessions: &DashMap<&str, Session>,
) -> anyhow::Result<()> {
    sessions.insert(rt, "ada", Session { minutes: 2 })?;
    pass_minute(rt, sessions);
    if let Some(found) = sessions.get(rt, &"ada") {
        println!(rt; "ada: {}", found.minutes)?;
    }
    Ok(())
}

// Lets a minute pass, and logs out who has none left.
fn pass_minute<R: Wait + Clock>(rt: &R, sessions: &DashMap<&str, Session>) {
    sessions.retain(rt, |_, session| {
        session.minutes = session.minutes.saturating_sub(1);
        session.minutes > 0
    });
}
