//! `dashcheck memo`: threads that ask one cache for the same values, and how many of these were computed.
ghost use Rattle.std.specs.Prelude.{◌≡◌, ◌≢◌, ℕ, ◌*◌, ◌+◌, ◌%◌, ◌^◌, ◌<◌, ◌≤◌, ◌==◌, ◌∷◌, ◌++◌, [], IfOk, IfErr, OnOk, length, slice_index_or, if◌then◌else◌};
ghost use Rattle.std.specs.Io.KnownBytes.{Appends};
ghost use Rattle.dash_script.specs.Words.{IsSize, SaysAllRight, SaysMemoRefusal, memo_refusal, tally_lines, value_of};
ghost use Rattle.dash_script.specs.inner.Memo.{AreAllRight, EachAllRight};

use crate::status::Status;
use dashmap::Memo;
use dashmap::hash::PlaceState;
use dashmap::memo::{MemoRefused, Rule};
use std::alloc::{AllocError, Global};
use std::fmt;
use std::io::{self, Write};
use std::rt::Clock;
use std::sync::Wait;
use std::sync::atomic::{AtomicU64, Ordering};
use std::thread::{self, Threads};

const SHARDS: usize = 4;

const MOST_THREADS: usize = 64;

type Cache<'a> = Memo<u64, u64, Square<'a>, PlaceState>;

/// Why not all keys were answered.
#[derive(Clone, Copy, Debug, PartialEq, Eq)]
pub enum Refusal {
    /// There is no memory for the cache.
    Cache,
    /// There is no memory for an answer.
    Answer,
}

impl fmt::Display for Refusal {
    ghost use Rattle.std.specs.Prelude.{Some};
    ghost use Rattle.dash_script.specs.Memo.{memo_refusal};

    ghost output = { λ refusal. Some (memo_refusal refusal) };

    fn fmt<W: fmt::Write>(&self, f: &mut fmt::Formatter<W>) -> fmt::Result {
        match self {
            Refusal::Cache => write!(f, "refused: no memory (8)"),
            Refusal::Answer => write!(f, "refused: no memory (25)"),
        }
    }
}

// The rule: a key's square and one more, wrapped. It counts how often one is computed.
#[derive(Drop)]
struct Square<'a> {
    computed: &'a AtomicU64,
}

impl Rule<u64, u64> for Square<'_> {
    ghost use Rattle.std.proofs.Common.{arith};
    ghost use Rattle.std.proofs.lemmas.Bool.Decides.{nat_tests};
    ghost use Rattle.dash_script.specs.Memo.{value_of};

    ghost value_of = { value_of };

    fn compute(&self, key: &u64) -> Result<u64, AllocError> {
        self.computed.fetch_add(1, Ordering::SeqCst);
        Ok(square_of(*key))
    }

    ghost equal_alike = { λ j k same. Prim.grind (arith, nat_tests) };
}

// How many keys were answered, and how many of these answers are right.
#[derive(Clone, Copy)]
struct Tally {
    answers: u64,
    right: u64,
}

/// Lets so many threads ask one cache for the values of so many keys each. It prints how many answers there were, how many were right, and
/// how many values were computed.
///
/// The first refusal, in the order of the threads, is printed on `errors` instead. It fails where a write does.
pub fn run<T: Threads + Wait + Clock + Sync, O: Write, E: Write>(
    rt: &T,
    alloc: Global,
    callers: u32,
    keys: u64,
    output: &mut O,
    errors: &mut E,
) -> io::Result<Status>
    requires { IsSize callers keys }
    ensures status { IfOk result (λ status. status ≢ Status.BadCommandLine) }
    ensures good { result ≡ Ok Status.Good
        → SaysAllRight callers keys (O.contents output.old) (O.contents output.new) × (errors.new ≡ errors.old) }
    ensures refused { result ≡ Ok Status.Refused
        → SaysMemoRefusal (E.contents errors.old) (E.contents errors.new) × (output.new ≡ output.old) }
{
    let computed = AtomicU64::new(0);
    match tally_of(rt, alloc, callers, keys, &computed) {
        Ok(tally) => tell(tally, computed.into_inner(), output),
        Err(refusal) => refuse(refusal, errors),
    }
}

// Prints what the threads were answered.
fn tell<O: Write>(tally: Tally, computed: u64, output: &mut O) -> io::Result<Status>
    ensures status { IfOk result (λ s. s ≡ (if tally.answers == tally.right then Status.Good else Status.Refused)) }
    ensures said { OnOk result
        (Appends (O.contents output.old) (O.contents output.new) (tally_lines tally.answers tally.right computed)) }
{
    writeln!(output, "answers {}", tally.answers)?;
    writeln!(output, "right {}", tally.right)?;
    writeln!(output, "computed {computed}")?;
    output.flush()?;
    if tally.answers == tally.right {
        Ok(Status::Good)
    } else {
        Ok(Status::Refused)
    }
}

// Says why the threads were refused.
fn refuse<E: Write>(refusal: Refusal, errors: &mut E) -> io::Result<Status>
    ensures status { IfOk result (λ status. status ≡ Status.Refused) }
    ensures said { OnOk result
        (Appends (E.contents errors.old) (E.contents errors.new) (memo_refusal refusal ++ 10 ∷ [])) }
{
    writeln!(errors, "{refusal}")?;
    Ok(Status::Refused)
}

// Makes the cache, lets the threads ask it, and adds up what they were answered.
fn tally_of<T: Threads + Wait + Clock + Sync>(
    rt: &T,
    alloc: Global,
    callers: u32,
    keys: u64,
    computed: &AtomicU64,
) -> Result<Tally, Refusal>
    requires { IsSize callers keys }
    ensures { IfOk result (AreAllRight (callers * keys)) }
{
    let rule = Square { computed };
    let Ok(cache) = Cache::with_hasher_and_shard_amount(alloc, rule, PlaceState, SHARDS) else {
        return Err(Refusal::Cache);
    };
    let mut tallies = [Ok(Tally::NONE); MOST_THREADS];
    let tallies = &mut tallies[..callers as usize];
    ask_on_threads(rt, &cache, keys, tallies);
    match sum_of(tallies, keys) {
        Ok(tally) => Ok(tally),
        Err(_) => Err(Refusal::Answer),
    }
}

// Asks for the keys on a thread for each tally, where one can be started.
fn ask_on_threads<T: Threads + Wait + Clock + Sync>(
    rt: &T,
    cache: &Cache<'_>,
    keys: u64,
    tallies: &mut [Result<Tally, MemoRefused>],
)
    requires some { 0 < length tallies.old }
    requires short { keys ≤ 10000 }
    ensures len { length tallies.new ≡ length tallies.old }
    ensures each { EachAllRight keys tallies.new }
{
    let threads = tallies.len();
    thread::for_each_mut(
        rt,
        tallies,
        threads,
        &|_, tally| *tally = ask_all(rt, cache, keys),
    );
}

// Asks for each key.
fn ask_all<T: Wait + Clock>(rt: &T, cache: &Cache<'_>, keys: u64) -> Result<Tally, MemoRefused>
    requires { keys ≤ 10000 }
    ensures { IfOk result (AreAllRight keys) }
{
    let mut tally = Tally::NONE;
    for key in 0..keys {
        let value = cache.ask(rt, &key)?;
        tally.answers += 1;
        if value == square_of(key) {
            tally.right += 1;
        }
    }
    Ok(tally)
}

// What all threads were answered, each with so many keys.
fn sum_of(tallies: &[Result<Tally, MemoRefused>], keys: u64) -> Result<Tally, MemoRefused>
    requires few { length tallies.now ≤ 64 }
    requires short { keys ≤ 10000 }
    requires each { EachAllRight keys tallies.now }
    ensures { IfOk result (AreAllRight (length tallies.now * keys)) }
{
    let mut sum = Tally::NONE;
    for tally in tallies {
        let tally = (*tally)?;
        sum.answers += tally.answers;
        sum.right += tally.right;
    }
    Ok(sum)
}

// The value of a key.
fn square_of(key: u64) -> u64
    ensures { result ≡ value_of key }
{
    key.wrapping_mul(key).wrapping_add(1)
}

impl Tally {
    const NONE: Tally = Tally {
        answers: 0,
        right: 0,
    };
}
