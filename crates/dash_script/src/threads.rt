//! `dashcheck threads`: threads that take steps on one recorded map, the count of what they logged, and whether the history that
//! is gathered of it is legal. But for `run` its functions are public for the tests alone.
ghost use Rattle.std.specs.Prelude.{◌≡◌, ◌≢◌, ℕ, ◌+◌, ◌*◌, ◌%◌, ◌^◌, ◌<◌, ◌≤◌, ◌⊎◌, ◌↔◌, ◌∷◌, ◌++◌, [], All, Err, IfOk, IfErr, IfSome, IfNone, OnOk, OnErr, IsTrue, length, map, sum_by, slice_index_or, vec_len, if◌then◌else◌, true, false};
ghost use Rattle.std.specs.Io.KnownBytes.{Appends};
ghost use Rattle.dash_script.specs.Words.{IsJudged, IsSize, IsSo, IsThreadStep, Matches, SawRecShards, SaysRefusal, fresh_logs, refusal_text, thread_step, verdict_lines};
ghost use Rattle.dash_script.specs.inner.Threads.{LogsStep, IsIdle, IsFirstRefusal, MayRefuse, Works, AllDone, HasTaken, idle, IsJudgedOf, IsJudgedBy};

pub mod replay;

use crate::status::Status;
use dash_history::alone::RecAlone;
use dash_history::gather::GatherError;
use dash_history::record::map::RecordedMap;
use dash_history::record::{CallerLog, RecordFault};
use dash_shard::hash::PlaceState;
use dash_steps::known::Recorded;
use dash_steps::step::ShardStep;
use std::alloc::{AllocError, Global};
use std::fmt;
use std::io::{self, Write};
use std::rt::Clock;
use std::sync::Wait;
use std::thread::{self, Threads};

const SHARDS: usize = 4;

type Map = RecordedMap<u64, u64, PlaceState>;

type Alone = RecAlone<u64, u64, PlaceState>;

type Log = CallerLog<u64, u64>;

/// Why not all steps of the threads are taken, gathered and replayed.
#[derive(Clone, Copy, Debug, PartialEq, Eq)]
pub enum Refusal {
    /// There is no memory for the map, for its workers, or for the replay.
    Map,
    /// No stamp is left for a step.
    LastStamp,
    /// There is no memory for a step.
    Memory,
    /// The logs don't match the histories of the map.
    Mismatch,
    /// There is no memory to gather the history.
    Gather,
}

impl fmt::Display for Refusal {
    ghost use Rattle.std.specs.Prelude.{Some};
    ghost use Rattle.dash_script.specs.Threads.{refusal_text};

    ghost output = { λ refusal. Some (refusal_text refusal) };

    fn fmt<W: fmt::Write>(&self, f: &mut fmt::Formatter<W>) -> fmt::Result {
        match self {
            Refusal::Map => write!(f, "refused: no memory (8)"),
            Refusal::LastStamp => write!(f, "refused: last stamp (18)"),
            Refusal::Memory => write!(f, "refused: no memory (19)"),
            Refusal::Mismatch => write!(f, "refused: mismatch (22)"),
            Refusal::Gather => write!(f, "refused: no memory (23)"),
        }
    }
}

/// The log of a thread, and why it stopped before its last step.
#[derive(Drop)]
pub struct Worker {
    pub log: Log,
    pub refused: Option<Refusal>,
}

/// What became of the threads' steps: how many entries their logs have, and whether the history that was gathered is legal.
#[derive(Clone, Copy)]
pub struct Outcome {
    pub entries: usize,
    pub legal: bool,
}

/// Takes the steps of `callers` threads, `steps` of each, on one map. Then it gathers the history of the map with their logs, and
/// replays it on a plain map. It prints how many entries the logs have, and whether each reply and the pairs at the end are those
/// of the replay: where they aren't, it ends as refused.
///
/// The first refusal, in the order of the threads, is printed on `errors` instead: a mismatch only where the logs don't match the
/// histories, and a last stamp only where a thread had none left. It fails where a write does.
pub fn run<T: Threads + Wait + Clock + Sync, O: Write, E: Write>(
    rt: &T,
    alloc: Global,
    callers: u32,
    steps: u64,
    output: &mut O,
    errors: &mut E,
) -> io::Result<Status>
    requires { IsSize callers steps }
    ensures status { IfOk result (λ status. status ≢ Status.BadCommandLine) }
    ensures good { result ≡ Ok Status.Good
        → Appends (O.contents output.old) (O.contents output.new) (verdict_lines (callers * steps) true) × (errors.new ≡ errors.old) }
    ensures legal { result ≡ Ok Status.Good → IsJudged ⟦<Alone as Recorded>⟧.known callers steps true }
    ensures refused { result ≡ Ok Status.Refused
        → (SaysRefusal ⟦<Alone as Recorded>⟧.known callers steps (E.contents errors.old) (E.contents errors.new)
        × (output.new ≡ output.old))
        ⊎ (Appends (O.contents output.old) (O.contents output.new) (verdict_lines (callers * steps) false) × (errors.new ≡ errors.old)
        × IsJudged ⟦<Alone as Recorded>⟧.known callers steps false) }
{
    match outcome_of(rt, alloc, callers, steps) {
        Ok(outcome) => tell(outcome, output),
        Err(refusal) => refuse(refusal, errors),
    }
}

// Takes the steps of the threads, and judges them.
fn outcome_of<T: Threads + Wait + Clock + Sync>(
    rt: &T,
    alloc: Global,
    callers: u32,
    steps: u64,
) -> Result<Outcome, Refusal>
    requires { IsSize callers steps }
    ensures entries { IfOk result (λ o. o.entries ≡ callers * steps) }
    ensures judged { IfOk result (λ o. IsJudged ⟦<Alone as Recorded>⟧.known callers steps o.legal) }
    ensures refused { IfErr result (IsSo ⟦<Alone as Recorded>⟧.known callers steps) }
{
    let (map, workers) = work(rt, alloc, callers, steps)?;
    let entries = entries(workers.as_slice());
    let legal = judge(alloc, map, workers)?;
    Ok(Outcome { entries, legal })
}

/// Prints what became of the steps.
pub fn tell<O: Write>(outcome: Outcome, output: &mut O) -> io::Result<Status>
    ensures status { IfOk result (λ status. status ≡ (if outcome.legal then Status.Good else Status.Refused)) }
    ensures said { OnOk result
        (Appends (O.contents output.old) (O.contents output.new) (verdict_lines outcome.entries outcome.legal)) }
{
    writeln!(output, "entries {}", outcome.entries)?;
    if !outcome.legal {
        writeln!(output, "not legal")?;
        output.flush()?;
        return Ok(Status::Refused);
    }
    writeln!(output, "legal")?;
    output.flush()?;
    Ok(Status::Good)
}

/// Says why the threads were refused.
pub fn refuse<E: Write>(refusal: Refusal, errors: &mut E) -> io::Result<Status>
    ensures status { IfOk result (λ status. status ≡ Status.Refused) }
    ensures said { OnOk result
        (Appends (E.contents errors.old) (E.contents errors.new) (refusal_text refusal ++ 10 ∷ [])) }
{
    writeln!(errors, "{refusal}")?;
    Ok(Status::Refused)
}

// Makes the map and its workers, and lets them take their steps.
fn work<T: Threads + Wait + Clock + Sync>(
    rt: &T,
    alloc: Global,
    callers: u32,
    steps: u64,
) -> Result<(Map, Vec<Worker>), Refusal>
    requires { IsSize callers steps }
    ensures amount { IfOk result (λ done. done.0.amount ≡ 4) }
    ensures len { IfOk result (λ done. vec_len done.1 ≡ callers) }
    ensures done { IfOk result (λ done. AllDone steps done.1.items) }
    ensures refused { IfErr result (IsSo ⟦<Alone as Recorded>⟧.known callers steps) }
{
    let Ok((map, logs)) = Map::new(alloc, PlaceState, SHARDS, callers) else {
        return Err(Refusal::Map);
    };
    let Ok(mut workers) = idle_workers(alloc, logs) else {
        return Err(Refusal::Map);
    };
    take_all(rt, &map, workers.as_mut_slice(), steps);
    match first_refusal(workers.as_slice()) {
        Some(refusal) => Err(refusal),
        None => Ok((map, workers)),
    }
}

// Whether the history that is gathered of the map with the workers' logs is legal: a replay of its steps on a plain map gets
// their replies, and leaves the map's pairs.
fn judge(alloc: Global, shared: Map, workers: Vec<Worker>) -> Result<bool, Refusal>
    ensures judged { IfOk result
        (IsJudgedBy ⟦<Alone as Recorded>⟧.known shared.amount (map (λ w. w.log) workers.items)) }
    ensures mismatch { result ≡ Err Refusal.Mismatch
        → SawRecShards ⟦<Alone as Recorded>⟧.known shared (λ a.
        Matches ⟦<Alone as Recorded>⟧.known a (map (λ w. w.log) workers.items) → ⊥) }
    ensures kinds { IfErr result (λ refusal. refusal ≢ Refusal.LastStamp) }
{
    let Ok(logs) = logs_of(alloc, workers) else {
        return Err(Refusal::Map);
    };
    let alone = shared.alone();
    judge_alone(alloc, &alone, logs.as_slice())
}

// The same, of a map of one owner: these very shards.
fn judge_alone(alloc: Global, alone: &Alone, logs: &[Log]) -> Result<bool, Refusal>
    ensures judged { IfOk result (IsJudgedOf ⟦<Alone as Recorded>⟧.known alone.now logs.now) }
    ensures mismatch { result ≡ Err Refusal.Mismatch
        → Matches ⟦<Alone as Recorded>⟧.known alone.now logs.now → ⊥ }
    ensures kinds { IfErr result (λ refusal. refusal ≢ Refusal.LastStamp) }
{
    let ats = match alone.gather(logs) {
        Ok(ats) => ats,
        Err(GatherError::Mismatch) => return Err(Refusal::Mismatch),
        Err(GatherError::Memory) => return Err(Refusal::Gather),
    };
    let Ok(pairs) = alone.pairs() else {
        return Err(Refusal::Map);
    };
    let Ok(legal) = replay::agrees(alloc, alone, ats.as_slice(), pairs.as_slice()) else {
        return Err(Refusal::Map);
    };
    Ok(legal)
}

// The logs of the workers.
fn logs_of(alloc: Global, workers: Vec<Worker>) -> Result<Vec<Log>, AllocError>
    ensures { IfOk result (λ logs. logs.items ≡ map (λ w. w.log) workers.items) }
{
    workers.into_iter().map(|worker| worker.log).collect(alloc)
}

/// Takes the steps of each worker, in a thread of its own where one can be started.
pub fn take_all<T: Threads + Wait + Clock + Sync>(
    rt: &T,
    map: &Map,
    workers: &mut [Worker],
    steps: u64,
)
    requires size { IsSize map.now.callers steps }
    requires shards { map.now.amount ≡ 4 }
    requires some { 0 < length workers.old }
    requires idle { All (IsIdle map.now.callers) workers.old }
    ensures len { length workers.new ≡ length workers.old }
    ensures each { (i : ℕ) (d : _) → i < length workers.old
        → Works ⟦<Alone as Recorded>⟧.known map.now steps (slice_index_or workers.old i d) (slice_index_or workers.new i d) }
{
    let threads = workers.len();
    thread::for_each_mut(
        rt,
        workers,
        threads,
        &|_, worker| worker.take_steps(rt, map, steps),
    );
}

/// A worker for each log.
pub fn idle_workers(alloc: Global, logs: Vec<Log>) -> Result<Vec<Worker>, AllocError>
    ensures { IfOk result (λ workers. workers.items ≡ map idle logs.items) }
{
    logs.into_iter()
        .map(|log| Worker { log, refused: None })
        .collect(alloc)
}

// The first refusal, in the order of the workers.
fn first_refusal(workers: &[Worker]) -> Option<Refusal>
    ensures none { IfNone result (All (λ w. w.refused ≡ None) workers.now) }
    ensures first { IfSome result (IsFirstRefusal workers.now) }
{
    workers.iter().find_map(|worker| worker.refused)
}

// How many entries the logs have.
fn entries(workers: &[Worker]) -> usize
    requires { sum_by (λ w. length w.log.entries) workers.now < 2 ^ 64 }
    ensures { result ≡ sum_by (λ w. length w.log.entries) workers.now }
{
    workers
        .iter()
        .map(|worker| worker.log.entries().len())
        .sum()
}

impl Worker {
    // Takes the first steps of the thread whose number the log has, up to the first refusal.
    fn take_steps<T: Wait + Clock>(&mut self, rt: &T, map: &Map, steps: u64)
        requires size { IsSize map.now.callers steps }
        requires shards { map.now.amount ≡ 4 }
        requires idle { IsIdle map.now.callers self.old }
        ensures { Works ⟦<Alone as Recorded>⟧.known map.now steps self.old self.new }
    {
        self.refused = take_steps(rt, map, &mut self.log, steps).err();
    }
}

// Takes the first steps of the thread whose number the log has.
fn take_steps<T: Wait + Clock>(rt: &T, map: &Map, log: &mut Log, steps: u64) -> Result<(), Refusal>
    requires size { IsSize map.now.callers steps }
    requires shards { map.now.amount ≡ 4 }
    requires caller { log.old.caller < map.now.callers }
    requires idle { log.old.entries ≡ [] }
    ensures caller { log.new.caller ≡ log.old.caller }
    ensures done { OnOk result (HasTaken steps log.new) }
    ensures refused { IfErr result (MayRefuse ⟦<Alone as Recorded>⟧.known map.now log.new) }
{
    let thread = u64::from(log.caller());
    for number in 0..steps {
        take(rt, map, log, step(thread, number))?;
    }
    Ok(())
}

// Takes one step.
fn take<T: Wait + Clock>(
    rt: &T,
    map: &Map,
    log: &mut Log,
    step: ShardStep<u64, u64>,
) -> Result<(), Refusal>
    requires shards { map.now.amount ≡ 4 }
    requires caller { log.old.caller < map.now.callers }
    requires kind { IsThreadStep step }
    ensures taken { OnOk result (LogsStep log.old log.new step) }
    ensures unchanged { OnErr result (log.new ≡ log.old) }
    ensures refused { IfErr result (MayRefuse ⟦<Alone as Recorded>⟧.known map.now log.new) }
{
    match map.apply(rt, log, step) {
        Ok(_) => Ok(()),
        Err((_, RecordFault::LastStamp)) => Err(Refusal::LastStamp),
        Err((_, RecordFault::Memory)) => Err(Refusal::Memory),
        Err((_, RecordFault::NoSuchShard)) => unreachable!(),
        Err((_, RecordFault::Locked)) => unreachable!(),
        Err((_, RecordFault::Part)) => unreachable!(),
    }
}

/// The step of this number of a thread.
pub fn step(thread: u64, number: u64) -> ShardStep<u64, u64>
    requires thread { thread < 64 }
    requires number { number < 10000 }
    ensures step { result ≡ thread_step thread number }
    ensures kind { IsThreadStep result }
{
    let key = (thread + number) % 16;
    match number % 3 {
        0 => ShardStep::Insert(key, thread * 1_000_000 + number),
        1 => ShardStep::Get(key),
        _ => ShardStep::Remove(key),
    }
}
