//! How steps are written in a script, and replies in its output.
ghost use Rattle.std.specs.Prelude.{◌≡◌, ◌↔◌, ℕ, ◌<◌, ◌^◌, ◌++◌, ◌∷◌, List, IsTrue, IfSome, IfNone};
ghost use Rattle.std.specs.Fmt.{decimal};
ghost use Rattle.std.specs.Str.{IsAscii};
ghost use Rattle.dash_script.specs.Words.{Change, IsInOrder, Line, written, written_line};
ghost use Rattle.dash_script.specs.inner.Words.{HasChange, ScriptStep, change_text, IsPlain, IsFirst};

use crate::change::Change;
use dash_steps::step::{Reply, ShardStep, Whole};
use std::{fmt, str};

/// A step of one shard.
pub type Step = ShardStep<u64, u64, Change>;

/// What a line of a script says.
#[derive(Drop)]
pub enum Line {
    /// A step of one shard.
    Step(Step),
    /// A step of the whole map.
    Whole(Whole),
}

/// What the bytes of a line say, or `None` for a bad step.
pub fn parse(bytes: &[u8]) -> Option<Line>
    ensures some { IfSome result (λ line. bytes.now ≡ (written_line line).text) }
    ensures words { IfSome result (λ line. (written_line line).fits) }
    ensures none { IfNone result ((line : Line) → (written_line line).fits → bytes.now ≡ (written_line line).text → ⊥) }
{
    match text(bytes)? {
        "countall" => Some(Line::Whole(Whole::Count)),
        "readall" => Some(Line::Whole(Whole::Read)),
        text => Some(Line::Step(parse_step(text)?)),
    }
}

// A step of one shard.
fn parse_step(text: &str) -> Option<Step>
    ensures some { IfSome result (λ step. text.now ≡ (written step).text) }
    ensures words { IfSome result (λ step. (written step).fits) }
    ensures none { IfNone result ((step : ScriptStep) → (written step).fits → text.now ≡ (written step).text → ⊥) }
{
    let (kind, rest) = first_word(text)?;
    match kind {
        "get" => Some(ShardStep::Get(number(rest)?)),
        "contains" => Some(ShardStep::Contains(number(rest)?)),
        "insert" => {
            let (key, value) = numbers(rest)?;
            Some(ShardStep::Insert(key, value))
        }
        "remove" => Some(ShardStep::Remove(number(rest)?)),
        "removeif" => {
            let (key, change) = changed(rest)?;
            Some(ShardStep::RemoveIf(key, change))
        }
        "removeifmut" => {
            let (key, change) = changed(rest)?;
            Some(ShardStep::RemoveIfMut(key, change))
        }
        "alter" => {
            let (key, change) = changed(rest)?;
            Some(ShardStep::Alter(key, change))
        }
        "read" => Some(ShardStep::Read(shard(rest)?)),
        "count" => Some(ShardStep::Count(shard(rest)?)),
        "alterall" => {
            let (shard, change) = changed(rest)?;
            Some(ShardStep::AlterAll(shard as usize, change))
        }
        "retain" => {
            let (shard, change) = changed(rest)?;
            Some(ShardStep::Retain(shard as usize, change))
        }
        _ => None,
    }
}

// A line as text.
fn text(line: &[u8]) -> Option<&str>
    ensures some { IfSome result (λ text. text.now ≡ line.now) }
    ensures none { IfNone result (IsAscii line.now → ⊥) }
{
    str::from_utf8(line).ok()
}

// The first word and what follows its space.
fn first_word(text: &str) -> Option<(&str, &str)>
    ensures some { IfSome result (λ p. IsFirst text.now p.0.now p.1.now) }
    ensures none { IfNone result ((word rest : List ℕ) → IsFirst text.now word rest → ⊥) }
{
    text.split_once(' ')
}

// Two numbers.
fn numbers(text: &str) -> Option<(u64, u64)>
    ensures some { IfSome result (λ p. text.now ≡ decimal p.0 ++ 32 ∷ decimal p.1) }
    ensures none { IfNone result ((k v : ℕ) → k < 2 ^ 64 → v < 2 ^ 64
        → text.now ≡ decimal k ++ 32 ∷ decimal v → ⊥) }
{
    let (key, value) = first_word(text)?;
    Some((number(key)?, number(value)?))
}

// The key of a pair or the number of a shard, and a change of values there.
fn changed(text: &str) -> Option<(u64, Change)>
    ensures some { IfSome result (λ p. text.now ≡ decimal p.0 ++ 32 ∷ change_text p.1) }
    ensures words { IfSome result (λ p. HasChange p.1) }
    ensures none { IfNone result ((k : ℕ) (f : Change) → k < 2 ^ 64 → HasChange f
        → text.now ≡ decimal k ++ 32 ∷ change_text f → ⊥) }
{
    let (key, text) = first_word(text)?;
    Some((number(key)?, change(text)?))
}

// A change.
fn change(text: &str) -> Option<Change>
    ensures some { IfSome result (λ f. text.now ≡ change_text f) }
    ensures words { IfSome result (λ f. HasChange f) }
    ensures none { IfNone result ((f : Change) → HasChange f → text.now ≡ change_text f → ⊥) }
{
    let (kind, rest) = first_word(text)?;
    match kind {
        "add" => Some(Change::Add(number(rest)?)),
        "below" => Some(Change::Below(number(rest)?)),
        "addbelow" => {
            let (more, bound) = numbers(rest)?;
            Some(Change::AddBelow(more, bound))
        }
        _ => None,
    }
}

// The number of a shard.
fn shard(word: &str) -> Option<usize>
    ensures some { IfSome result (λ i. word.now ≡ decimal i) }
    ensures none { IfNone result ((i : ℕ) → i < 2 ^ 64 → word.now ≡ decimal i → ⊥) }
{
    Some(number(word)? as usize)
}

// A digit first, and no zero in front of others.
fn is_plain(word: &[u8]) -> bool
    ensures { IsTrue result ↔ IsPlain word.now }
{
    !word.is_empty() && word[0] >= b'0' && word[0] <= b'9' && (word[0] != b'0' || word.len() == 1)
}

/// A decimal number without sign and without leading zeros.
pub fn number(word: &str) -> Option<u64>
    ensures some { IfSome result (λ n. word.now ≡ decimal n) }
    ensures none { IfNone result ((n : ℕ) → n < 2 ^ 64 → word.now ≡ decimal n → ⊥) }
{
    if is_plain(word.as_bytes()) {
        word.parse().ok()
    } else {
        None
    }
}

/// A reply as it is printed.
#[derive(Drop)]
pub struct Printed<'a>(pub &'a Reply<u64, u64>);

impl fmt::Display for Printed<'_> {
    ghost use Rattle.std.specs.Prelude.{Some};
    ghost use Rattle.dash_script.specs.Script.{text_of};

    ghost output = { λ printed. Some (text_of printed.0.now) };

    fn fmt<W: fmt::Write>(&self, f: &mut fmt::Formatter<W>) -> fmt::Result {
        match self.0 {
            Reply::Pair(None) => write!(f, "pair none"),
            Reply::Pair(Some((key, value))) => write!(f, "pair {key} {value}"),
            Reply::Found(true) => write!(f, "found yes"),
            Reply::Found(false) => write!(f, "found no"),
            Reply::Old(None) => write!(f, "old none"),
            Reply::Old(Some(value)) => write!(f, "old {value}"),
            Reply::Pairs(pairs) => write!(f, "pairs{}", Listed(pairs)),
            Reply::Number(number) => write!(f, "number {number}"),
            Reply::Done => write!(f, "done"),
        }
    }
}

// Pairs as they are printed, in their order.
#[derive(Drop)]
struct Listed<'a>(&'a [(u64, u64)]);

impl fmt::Display for Listed<'_> {
    ghost use Rattle.std.specs.Prelude.{Some, flat_map};
    ghost use Rattle.dash_script.specs.inner.Words.{pair_text};

    ghost output = { λ listed. Some (flat_map pair_text listed.0.now) };

    fn fmt<W: fmt::Write>(&self, f: &mut fmt::Formatter<W>) -> fmt::Result {
        for (key, value) in self.0 {
            write!(f, " {key}:{value}")?;
        }
        Ok(())
    }
}

/// The reply with its pairs in rising order of their keys.
pub fn in_order(reply: Reply<u64, u64>) -> Reply<u64, u64>
    ensures { IsInOrder reply result }
{
    match reply {
        Reply::Pairs(mut pairs) => {
            pairs.sort_unstable_by_key(|pair| pair.0);
            Reply::Pairs(pairs)
        }
        reply => reply,
    }
}
