//! `dashcheck script`: steps from the input, one a line, and their replies on the output.
ghost use Rattle.std.specs.Prelude.{◌≡◌, ◌≢◌, ◌<◌, ◌++◌, ◌∷◌, [], Some, IfSome, IfNone, IfOk, IfErr, OnOk};
ghost use Rattle.std.specs.Io.KnownBytes.{Appends};
ghost use Rattle.dash_script.specs.Words.{IsFaultOf, IsReplyTo, Refuses, StopsAt, TakesAll, fault_text, text_of, written_line};

use crate::change::Change;
use crate::lines::Lines;
use crate::status::Status;
use crate::step::{Line, Printed, in_order, parse};
use dash_history::record::map::RecordedMap;
use dash_history::record::{CallerLog, RecordFault};
use dash_shard::error::ConstructError;
use dash_shard::hash::PlaceState;
use dash_steps::step::{Reply, Whole};
use std::alloc::Global;
use std::fmt;
use std::io::{self, Read, Write};
use std::rt::Clock;
use std::sync::Wait;

const SHARDS: usize = 4;

// Only pairs may take a line of so many bytes.
const LIMIT: usize = 128;

/// Why a script stops before its end.
#[derive(Drop)]
pub enum Stop {
    /// The line is that of no step.
    BadStep { line: u64 },
    /// The map refuses the step of the line.
    Step { line: u64, fault: RecordFault },
    /// There is no memory for the map, or for the lines of replies.
    Memory,
    /// A read failed, or found no memory.
    Read,
}

impl fmt::Display for Stop {
    ghost use Rattle.dash_script.specs.Script.{stop_text};

    ghost output = { λ stop. Some (stop_text stop) };

    fn fmt<W: fmt::Write>(&self, f: &mut fmt::Formatter<W>) -> fmt::Result {
        match self {
            Stop::BadStep { line } => write!(f, "refused line {line}: bad step"),
            Stop::Step { line, fault } => write!(f, "refused line {line}: {}", fault_text(*fault)),
            Stop::Memory => write!(f, "refused: no memory (8)"),
            Stop::Read => write!(f, "refused: read failed"),
        }
    }
}

fn fault_text(fault: RecordFault) -> &'static str
    ensures { result.now ≡ fault_text fault }
{
    match fault {
        RecordFault::LastStamp => "last stamp (18)",
        RecordFault::Memory => "no memory (19)",
        RecordFault::NoSuchShard => "no such shard (20)",
        RecordFault::Locked => "locked (21)",
        RecordFault::Part => "part (24)",
    }
}

// A recorded map of four shards and the log of its caller.
#[derive(Drop)]
struct Session {
    map: RecordedMap<u64, u64, PlaceState, Change>,
    log: CallerLog<u64, u64, Change>,
    ghost caller: { log.caller < map.callers },
    ghost shards: { map.amount ≡ 4 },
}

/// Takes each step of the input and prints its reply, up to the first refusal, which it prints on `errors`. Where the output
/// fails it prints nothing more. It fails where a write does, or where there is no memory for a line of pairs.
pub fn run<T: Wait + Clock, R: Read, O: Write, E: Write>(
    rt: &T,
    alloc: Global,
    input: &mut R,
    output: &mut O,
    errors: &mut E,
) -> io::Result<Status>
    ensures status { IfOk result (λ status. status ≢ Status.BadCommandLine) }
    ensures good { result ≡ Ok Status.Good
        → TakesAll (R.remaining input.old) (O.contents output.old) (O.contents output.new) × (errors.new ≡ errors.old) }
    ensures refused { result ≡ Ok Status.Refused
        → Refuses (R.remaining input.old) (O.contents output.old) (O.contents output.new) (E.contents errors.old) (E.contents errors.new) }
{
    let Some(stop) = take_steps(rt, alloc, input, output)? else {
        return Ok(Status::Good);
    };
    writeln!(errors, "{stop}")?;
    Ok(Status::Refused)
}

// Takes the steps and prints their replies, and says why it stops before the end.
fn take_steps<T: Wait + Clock, R: Read, O: Write>(
    rt: &T,
    alloc: Global,
    input: &mut R,
    output: &mut O,
) -> io::Result<Option<Stop>>
    ensures all { IfOk result (λ stop. IfNone stop
        (TakesAll (R.remaining input.old) (O.contents output.old) (O.contents output.new))) }
    ensures part { IfOk result (λ stop. IfSome stop (λ stop.
        StopsAt stop (R.remaining input.old) (O.contents output.old) (O.contents output.new))) }
{
    let Ok(mut text) = Vec::with_capacity(alloc, LIMIT) else {
        return Ok(Some(Stop::Memory));
    };
    let Ok(mut session) = Session::new(alloc) else {
        return Ok(Some(Stop::Memory));
    };
    let Ok(mut lines) = Lines::new(alloc, input) else {
        return Ok(Some(Stop::Read));
    };
    for line in 1..u64::MAX {
        let Ok(is_line) = lines.read() else {
            return Ok(Some(Stop::Read));
        };
        if !is_line {
            output.flush()?;
            return Ok(None);
        }
        let Some(step) = parse(lines.line()) else {
            return Ok(Some(Stop::BadStep { line }));
        };
        match session.take(rt, step) {
            Ok(reply) => print(&in_order(reply), &mut text, output)?,
            Err(fault) => return Ok(Some(Stop::Step { line, fault })),
        }
    }
    Ok(Some(Stop::Read))
}

// Prints the reply as a line, in one write. `line` is room for it.
fn print<O: Write>(reply: &Reply<u64, u64>, line: &mut Vec<u8>, output: &mut O) -> io::Result<()>
    ensures { OnOk result
        (Appends (O.contents output.old) (O.contents output.new) (text_of reply.now ++ 10 ∷ [])) }
{
    line.clear();
    writeln!(line, "{}", Printed(reply))?;
    output.write_all(line.as_slice())
}

impl Session {
    fn new(alloc: Global) -> Result<Session, ConstructError>
        ensures { IfErr result (λ error. error ≡ ConstructError.Memory) }
    {
        let (map, mut logs) = RecordedMap::new(alloc, PlaceState, SHARDS, 1)?;
        let log = logs.swap_remove(0);
        Ok(Session { map, log })
    }

    fn take<T: Wait + Clock>(&mut self, rt: &T, line: Line) -> Result<Reply<u64, u64>, RecordFault>
        requires { (written_line line).fits }
        ensures reply { IfOk result (λ reply. IsReplyTo line reply) }
        ensures fault { IfErr result (λ fault. IsFaultOf line fault) }
    {
        match line {
            Line::Step(step) => match self.map.apply(rt, &mut self.log, step) {
                Ok(reply) => Ok(reply),
                Err((_, fault)) => Err(fault),
            },
            Line::Whole(Whole::Count) => {
                let number = self.map.count_all(rt, &mut self.log)?;
                Ok(Reply::Number(number))
            }
            Line::Whole(Whole::Read) => {
                let pairs = self.map.clone_all(rt, &mut self.log)?;
                Ok(Reply::Pairs(pairs))
            }
        }
    }
}
