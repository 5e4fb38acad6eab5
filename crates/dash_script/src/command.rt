//! The command line.
ghost use Rattle.std.specs.Prelude.{◌≡◌, ◌↔◌, ℕ, ◌*◌, ◌++◌, ◌∷◌, [], ◌⊎◌, IsTrue, IfSome, IfNone, IfOk, OnOk, OnErr, true, false};
ghost use Rattle.std.specs.Io.KnownBytes.{Appends};
ghost use Rattle.dash_script.specs.Words.{ForMemo, ForThreads, IsCommand, IsJudged, IsScript, IsSized, Refuses, SaysAllRight, SaysMemoRefusal, SaysRefusal, TakesAll, code_of, in_bytes, stop_text, usage, verdict_lines};
ghost use Rattle.dash_script.specs.inner.Command.{Asks};

use crate::script::{self, Stop};
use crate::status::Status;
use crate::step::number;
use crate::{memo, threads};
use dash_history::alone::RecAlone;
use dash_shard::hash::PlaceState;
use dash_steps::known::Recorded;
use std::alloc::Global;
use std::io::{self, Read, Write};
use std::rt::Clock;
use std::sync::Wait;
use std::thread::Threads;

const USAGE: &str = "usage: dashcheck script | dashcheck threads C N | dashcheck memo C N";

/// What the words ask for.
#[derive(Clone, Copy)]
enum Command {
    Script,
    Threads { callers: u32, steps: u64 },
    Memo { callers: u32, keys: u64 },
}

/// Runs the words after the program's name.
///
/// The words are checked before anything is read or made. A bad command line prints the usage on `errors`, and leaves the rest.
/// `script` takes memory for a map, for its steps, and for a buffer on either side; `threads` for a map, its workers and their
/// steps; `memo` for a cache and what it keeps. It fails where a write does.
pub fn run_words<T: Threads + Wait + Clock + Sync, R: Read, O: Write, E: Write>(
    rt: &T,
    alloc: Global,
    words: &[String],
    input: &mut R,
    output: &mut O,
    errors: &mut E,
) -> io::Result<Status>
    // Whether the words are a command.
    ensures bad { IfOk result (λ status. (status ≡ Status.BadCommandLine)
        ↔ (IsCommand (in_bytes words.now) → ⊥)) }
    ensures usage { result ≡ Ok Status.BadCommandLine
        → Appends (E.contents errors.old) (E.contents errors.new) (usage ++ 10 ∷ []) }
    ensures untouched { (IsCommand (in_bytes words.now) → ⊥)
        → (input.new ≡ input.old) × (output.new ≡ output.old) }

    // How a script ends.
    ensures script_good { IsScript (in_bytes words.now) → result ≡ Ok Status.Good
        → TakesAll (R.remaining input.old) (O.contents output.old) (O.contents output.new) × (errors.new ≡ errors.old) }
    ensures script_refused { IsScript (in_bytes words.now) → result ≡ Ok Status.Refused
        → Refuses (R.remaining input.old) (O.contents output.old) (O.contents output.new) (E.contents errors.old) (E.contents errors.new) }

    // How threads end.
    ensures threads_good { ForThreads (in_bytes words.now) (λ c n. result ≡ Ok Status.Good
        → Appends (O.contents output.old) (O.contents output.new) (verdict_lines (c * n) true) × (errors.new ≡ errors.old)) }
    ensures threads_legal { ForThreads (in_bytes words.now) (λ c n. result ≡ Ok Status.Good
        → IsJudged ⟦<RecAlone<u64, u64, PlaceState> as Recorded>⟧.known c n true) }
    ensures threads_refused { ForThreads (in_bytes words.now) (λ c n. result ≡ Ok Status.Refused
        → (SaysRefusal ⟦<RecAlone<u64, u64, PlaceState> as Recorded>⟧.known c n (E.contents errors.old) (E.contents errors.new)
        × (output.new ≡ output.old))
        ⊎ (Appends (O.contents output.old) (O.contents output.new) (verdict_lines (c * n) false) × (errors.new ≡ errors.old)
        × IsJudged ⟦<RecAlone<u64, u64, PlaceState> as Recorded>⟧.known c n false)) }
    ensures threads_input { ForThreads (in_bytes words.now) (λ c n. input.new ≡ input.old) }

    // How threads that ask a cache end.
    ensures memo_good { ForMemo (in_bytes words.now) (λ c n. result ≡ Ok Status.Good
        → SaysAllRight c n (O.contents output.old) (O.contents output.new) × (errors.new ≡ errors.old)) }
    ensures memo_refused { ForMemo (in_bytes words.now) (λ c n. result ≡ Ok Status.Refused
        → SaysMemoRefusal (E.contents errors.old) (E.contents errors.new) × (output.new ≡ output.old)) }
    ensures memo_input { ForMemo (in_bytes words.now) (λ c n. input.new ≡ input.old) }
{
    match asked(words) {
        Some(Command::Script) => script::run(rt, alloc, input, output, errors),
        Some(Command::Threads { callers, steps }) => {
            threads::run(rt, alloc, callers, steps, output, errors)
        }
        Some(Command::Memo { callers, keys }) => {
            memo::run(rt, alloc, callers, keys, output, errors)
        }
        None => {
            print_usage(errors)?;
            Ok(Status::BadCommandLine)
        }
    }
}

/// The exit status, from what `run_words` answered on the words: 0, 1 or 2. Where a write failed it is 1, but 2 of a bad command
/// line, whose usage couldn't be printed.
pub fn exit_code(words: &[String], ran: io::Result<Status>) -> u8
    ensures ran { IfOk ran (λ status. result ≡ code_of status) }
    ensures failed { OnErr ran (IsCommand (in_bytes words.now) → result ≡ 1) }
    ensures bad { OnErr ran ((IsCommand (in_bytes words.now) → ⊥) → result ≡ 2) }
{
    match (ran, asked(words)) {
        (Ok(status), _) => status.code(),
        (Err(_), Some(_)) => Status::Refused.code(),
        (Err(_), None) => Status::BadCommandLine.code(),
    }
}

fn asked(words: &[String]) -> Option<Command>
    ensures some { IfSome result (Asks (in_bytes words.now)) }
    ensures none { IfNone result (IsCommand (in_bytes words.now) → ⊥) }
{
    if is_script(words) {
        return Some(Command::Script);
    }
    if let Some((callers, steps)) = size(words, "threads") {
        return Some(Command::Threads { callers, steps });
    }
    let (callers, keys) = size(words, "memo")?;
    Some(Command::Memo { callers, keys })
}

fn is_script(words: &[String]) -> bool
    ensures { IsTrue result ↔ IsScript (in_bytes words.now) }
{
    words.len() == 1 && words[0].as_str() == "script"
}

// The numbers of such a command, as `threads C N`.
fn size(words: &[String], name: &str) -> Option<(u32, u64)>
    ensures some { IfSome result (λ p. IsSized name.now (in_bytes words.now) p.0 p.1) }
    ensures none { IfNone result ((c n : ℕ) → IsSized name.now (in_bytes words.now) c n → ⊥) }
{
    if words.len() != 3 || words[0].as_str() != name {
        return None;
    }
    let callers = number(words[1].as_str())?;
    let steps = number(words[2].as_str())?;
    if callers == 0 || callers > 64 || steps > 10_000 {
        return None;
    }
    Some((callers as u32, steps))
}

fn print_usage<E: Write>(errors: &mut E) -> io::Result<()>
    ensures { OnOk result (Appends (E.contents errors.old) (E.contents errors.new) (usage ++ 10 ∷ [])) }
{
    writeln!(errors, "{USAGE}")
}

/// Says that no memory was found for the words themselves. It returns the exit status, also where that couldn't be said.
pub fn refuse_memory<E: Write>(errors: &mut E) -> u8
    ensures { result ≡ code_of Status.Refused }
{
    let _ = print_memory(errors);
    Status::Refused.code()
}

fn print_memory<E: Write>(errors: &mut E) -> io::Result<()>
    ensures { OnOk result
        (Appends (E.contents errors.old) (E.contents errors.new) (stop_text Stop.Memory ++ 10 ∷ [])) }
{
    writeln!(errors, "{}", Stop::Memory)
}
