//! Steps of the recorded map, on keys that all threads share.
ghost use Rattle.std.specs.Prelude.{◌<◌};

use super::{Draw, Log, OWNERS, Recording, Worker};
use crate::answer::{Answer, Judged};
use crate::call::Call;
use crate::replay::{KEYS, SHARDS, answer_of, key_of, weigh};
use dash_history::record::RecordFault;
use dash_script::change::Change;
use dash_script::step::Step;
use dash_steps::step::{Reply, ShardStep};
use std::rt::Clock;
use std::sync::Wait;

// What a call was, on which key or shard, what it had to answer, and what it answered.
type Told = (Call, u64, Answer, Answer);

impl Worker {
    pub fn take_step<R: Wait + Clock>(
        &mut self,
        rt: &R,
        recording: &Recording,
        log: &mut Log,
        draw: Draw,
    ) -> Judged {
        if log.caller() >= recording.callers() {
            return Ok(());
        }
        let (call, key, wanted, came) = match draw.number % 64 {
            0 => whole(rt, recording, log, draw.kind),
            1 => refused(rt, recording, log, draw),
            _ => recorded(rt, recording, log, draw),
        };
        self.judge_try(call, key, false, wanted, came)
    }
}

// A step of one shard, whose reply is to be the one that the log got.
fn recorded<R: Wait + Clock>(rt: &R, recording: &Recording, log: &mut Log, draw: Draw) -> Told
    requires { log.old.caller < recording.now.callers }
{
    let step = step_of(draw);
    let key = key_of(&step);
    let is_try = draw.kind % 4 == 0;
    let (call, reply) = if is_try {
        (Call::TryApply, recording.try_apply(log, step))
    } else {
        (Call::Apply, recording.apply(rt, log, step))
    };
    let came = answer(reply, is_try);
    let wanted = match log.entries().last() {
        Some(record) => answer_of(&record.reply),
        None => Answer::Nothing,
    };
    (call, key, wanted, came)
}

// A step of all shards at once, whose answer is to be what its parts in the log say together.
fn whole<R: Wait + Clock>(rt: &R, recording: &Recording, log: &mut Log, kind: u64) -> Told
    requires { log.old.caller < recording.now.callers }
{
    let (call, came) = match kind % 4 {
        0 => (Call::CountAll, recording.count_all(rt, log)),
        1 => (Call::CloneAll, weighed(recording.clone_all(rt, log))),
        2 => (Call::TryCountAll, recording.try_count_all(log)),
        _ => (Call::TryCloneAll, weighed(recording.try_clone_all(log))),
    };
    let came = match came {
        Ok(number) => Answer::Number(number),
        Err(fault) => refusal(fault, kind % 4 >= 2),
    };
    (call, 0, joined(log), came)
}

// A step that is to be refused, and to leave the log as it was.
fn refused<R: Wait + Clock>(rt: &R, recording: &Recording, log: &mut Log, draw: Draw) -> Told
    requires { log.old.caller < recording.now.callers }
{
    let len = log.entries().len();
    let (step, fault) = match draw.kind % 3 {
        0 => (ShardStep::CountPart(0), RecordFault::Part),
        1 => (ShardStep::ReadPart(1), RecordFault::Part),
        _ => (ShardStep::Read(SHARDS as usize), RecordFault::NoSuchShard),
    };
    let reply = if draw.other % 2 == 0 {
        recording.try_apply(log, step)
    } else {
        recording.apply(rt, log, step)
    };
    let came = if log.entries().len() == len {
        answer(reply, false)
    } else {
        Answer::Number(log.entries().len() as u64)
    };
    (Call::RefusedStep, 0, Answer::Refused(fault), came)
}

// What a step answered.
fn answer(reply: Result<Reply<u64, u64>, (Step, RecordFault)>, is_try: bool) -> Answer {
    match reply {
        Ok(reply) => answer_of(&reply),
        Err((_, fault)) => refusal(fault, is_try),
    }
}

// A fault as an answer. Only who waits for nobody may find a shard locked.
fn refusal(fault: RecordFault, is_try: bool) -> Answer {
    if is_try && fault == RecordFault::Locked {
        return Answer::Locked;
    }
    Answer::Refused(fault)
}

// What copies of pairs weigh.
fn weighed(copies: Result<Vec<(u64, u64)>, RecordFault>) -> Result<u64, RecordFault> {
    Ok(weigh(&copies?))
}

// What the last records of a log, one of each shard, say together.
fn joined(log: &Log) -> Answer {
    let entries = log.entries();
    let mut sum: u64 = 0;
    for place in entries.len().saturating_sub(SHARDS as usize)..entries.len() {
        if let Answer::Number(number) = answer_of(&entries[place].reply) {
            sum = sum.wrapping_add(number);
        }
    }
    Answer::Number(sum)
}

// The step of a draw.
fn step_of(draw: Draw) -> Step {
    let key = draw.value / OWNERS % KEYS;
    let value = draw.value;
    let shard = (draw.number % SHARDS) as usize;
    match draw.other % 64 {
        0..=9 => ShardStep::Get(key),
        10..=14 => ShardStep::Contains(key),
        15..=34 => ShardStep::Insert(key, value),
        35..=42 => ShardStep::Remove(key),
        43..=46 => ShardStep::RemoveIf(key, Change::Below(1 << 62)),
        47..=50 => ShardStep::RemoveIfMut(key, Change::AddBelow(value, 1 << 62)),
        51..=58 => ShardStep::Alter(key, Change::Add(value)),
        59 | 60 => ShardStep::Count(shard),
        61 => ShardStep::Read(shard),
        62 => ShardStep::AlterAll(shard, Change::Add(value)),
        _ => ShardStep::Retain(shard, Change::AddBelow(value, 7 << 61)),
    }
}
