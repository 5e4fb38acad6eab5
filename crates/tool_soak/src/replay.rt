//! The replay of a recorded map's one history on a list.

use crate::answer::{Answer, Judged, Wrong, judge, no_memory};
use crate::call::{Call, Tally};
use crate::list::{List, weight};
use crate::worker::Log;
use dash_history::alone::RecAlone;
use dash_history::gather::{At, GatherError};
use dash_script::change::Change;
use dash_script::step::Step;
use dash_shard::hash::PlaceState;
use dash_steps::action::Action;
use dash_steps::step::{Reply, ShardStep};
use std::alloc::Global;

/// How many shards the recorded map has. A key goes to the shard of its number modulo this one.
pub const SHARDS: u64 = 4;

/// The keys of the recorded map are those below.
pub const KEYS: u64 = 256;

type Alone = RecAlone<u64, u64, PlaceState, Change>;

/// Gathers the history of a map with the logs of its callers, and takes its steps one after the other on a list: each is to get the
/// recorded reply, the parts of a whole step are to stand side by side, and the list is to have the map's pairs at the end.
pub fn replay(alloc: Global, alone: &Alone, logs: &[Log], tally: &mut Tally) -> Judged {
    tally.count(Call::Gather);
    let ats = match alone.gather(logs) {
        Ok(ats) => ats,
        Err(GatherError::Memory) => return Err(no_memory(Call::Gather)),
        Err(GatherError::Mismatch) => {
            return judge(Call::Gather, 0, Answer::Truth(true), Answer::Truth(false));
        }
    };
    let Ok(mut list) = List::new(alloc, KEYS as usize) else {
        return Err(no_memory(Call::Gather));
    };
    let mut logged = 0u64;
    for log in logs {
        logged = logged.wrapping_add(log.entries().len() as u64);
    }
    let (wanted, came) = (Answer::Number(logged), Answer::Number(ats.len() as u64));
    judge(Call::Gather, 0, wanted, came)?;
    replay_steps(&mut list, alone, &ats, tally)?;
    let Ok(pairs) = alone.pairs() else {
        return Err(no_memory(Call::Gather));
    };
    let wanted = Answer::Number(list.sums(0, 1).1);
    judge(Call::Gather, 0, wanted, Answer::Number(weigh(&pairs)))
}

// Takes the steps at these places on a list, and judges the reply of each.
fn replay_steps(list: &mut List, alone: &Alone, ats: &[At], tally: &mut Tally) -> Judged {
    let mut part = 0;
    for at in ats {
        let found = match at.shard < alone.shard_count() {
            true => alone.entry_at(at.shard, at.place),
            false => None,
        };
        let Some(record) = found else {
            return judge(Call::Gather, at.stamp, Answer::Truth(true), Answer::Nothing);
        };
        let (call, wanted) = take(list, &record.step);
        tally.count(call);
        part = judge_part(&record.step, part)?;
        judge(call, key_of(&record.step), wanted, answer_of(&record.reply))?;
    }
    Ok(())
}

// Judges whether a step is the part of a whole step that is to come, if any, and returns the next one.
fn judge_part(step: &Step, part: u64) -> Result<u64, Wrong> {
    let (came, next) = if step.is_part() {
        (key_of(step), key_of(step).wrapping_add(1) % SHARDS)
    } else {
        (0, 0)
    };
    judge(Call::Gather, 0, Answer::Number(part), Answer::Number(came))?;
    Ok(next)
}

// Takes a step on the list, and returns its kind and what its reply has to be.
fn take(list: &mut List, step: &Step) -> (Call, Answer) {
    let key = key_of(step);
    let stood = list.at(key);
    let (count, sum) = match step.key() {
        Ok(_) => (0, 0),
        Err(_) => list.sums(key, SHARDS),
    };
    match step {
        ShardStep::Get(_) => (Call::ReplayGet, Answer::at(key, stood)),
        ShardStep::Contains(_) => (Call::ReplayContains, Answer::Truth(stood.is_some())),
        ShardStep::Insert(_, value) => {
            list.put(key, Some(*value));
            (Call::ReplayInsert, Answer::number(stood))
        }
        ShardStep::Remove(_) => {
            list.put(key, None);
            (Call::ReplayRemove, Answer::at(key, stood))
        }
        ShardStep::RemoveIf(_, change) => {
            let (_, goes) = acted(*change, stood);
            (Call::ReplayRemoveIf, take_out(list, key, stood, goes))
        }
        ShardStep::RemoveIfMut(_, change) => {
            let (left, goes) = acted(*change, stood);
            (Call::ReplayRemoveIfMut, take_out(list, key, left, goes))
        }
        ShardStep::Alter(_, change) => {
            list.put(key, acted(*change, stood).0);
            (Call::ReplayAlter, Answer::Truth(true))
        }
        ShardStep::Read(_) => (Call::ReplayRead, Answer::Number(sum)),
        ShardStep::ReadPart(_) => (Call::ReplayReadPart, Answer::Number(sum)),
        ShardStep::Count(_) => (Call::ReplayCount, Answer::Number(count)),
        ShardStep::CountPart(_) => (Call::ReplayCountPart, Answer::Number(count)),
        ShardStep::AlterAll(_, change) => {
            change_all(list, key, *change, false);
            (Call::ReplayAlterAll, Answer::Truth(true))
        }
        ShardStep::Retain(_, change) => {
            change_all(list, key, *change, true);
            (Call::ReplayRetain, Answer::Truth(true))
        }
    }
}

// What a change makes of a value, and whether it is there and the change returns true.
fn acted(change: Change, stood: Option<u64>) -> (Option<u64>, bool) {
    let Some(mut value) = stood else {
        return (None, false);
    };
    let yes = change.act(&0, &mut value);
    (Some(value), yes)
}

// Leaves a value at a key, or takes it out and returns it.
fn take_out(list: &mut List, key: u64, left: Option<u64>, goes: bool) -> Answer {
    list.put(key, if goes { None } else { left });
    Answer::at(key, if goes { left } else { None })
}

// Changes each value of a shard. If asked to, it takes out the values on which the change returns false.
fn change_all(list: &mut List, shard: u64, change: Change, takes_out: bool) {
    for key in 0..KEYS {
        if key % SHARDS == shard {
            let (left, stays) = acted(change, list.at(key));
            list.put(key, if takes_out && !stays { None } else { left });
        }
    }
}

/// The key of a step, or the number of the shard that it names.
pub fn key_of(step: &Step) -> u64 {
    match step.key() {
        Ok(key) => *key,
        Err(shard) => shard as u64,
    }
}

/// A reply as an answer. Lists of pairs answer by what they weigh.
pub fn answer_of(reply: &Reply<u64, u64>) -> Answer {
    match reply {
        Reply::Pair(pair) => Answer::pair(*pair),
        Reply::Found(found) => Answer::Truth(*found),
        Reply::Old(old) => Answer::number(*old),
        Reply::Pairs(pairs) => Answer::Number(weigh(pairs)),
        Reply::Number(number) => Answer::Number(*number),
        Reply::Done => Answer::Truth(true),
    }
}

/// What a list of pairs weighs, whatever their order.
pub fn weigh(pairs: &[(u64, u64)]) -> u64 {
    let mut sum: u64 = 0;
    for (key, value) in pairs {
        sum = sum.wrapping_add(weight(*key, *value));
    }
    sum
}
