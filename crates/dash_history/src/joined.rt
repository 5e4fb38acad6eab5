//! What the parts of a whole step reply, joined.
ghost use Rattle.std.specs.Prelude.{◌≡◌, IsTrue, IfOk, OnOk};
ghost use Rattle.std.specs.Cmp.Lexicographic.{pointwise};
ghost use Rattle.dash_history.specs.Words.{alike_pair, joined_number, joined_pairs, number_in, pairs_in, reply_of};
ghost use Rattle.dash_steps.specs.inner.Sweep.{AddsAlike};

use crate::record::Record;
use dash_steps::kept::Kept;
use dash_steps::step::Reply;
use std::alloc::{AllocError, Global};

// The number that the record of a part of a count replies.
fn number_of<K, V, A>(entry: &Record<K, V, A>) -> u64
    ensures { result ≡ number_in (reply_of entry.now.reply) }
{
    match &entry.reply {
        Reply::Number(number) => *number,
        _ => 0,
    }
}

// The numbers that the records of parts reply, added up, saturating.
pub(crate) fn join_numbers<K, V, A>(entries: &[Record<K, V, A>]) -> u64
    ensures { result ≡ joined_number entries.now }
{
    let mut sum: u64 = 0;
    for entry in entries {
        sum = sum.saturating_add(number_of(entry));
    }
    sum
}

// Adds copies of the pairs that the record of a part of a copy replies.
fn add_pairs<K: Kept + Drop, V: Kept + Drop, A>(
    copies: &mut Vec<(K, V)>,
    entry: &Record<K, V, A>,
) -> Result<(), AllocError>
    ensures { OnOk result (AddsAlike K.alike V.alike (pairs_in (reply_of entry.now.reply)) copies.old.items copies.new.items) }
{
    if let Reply::Pairs(pairs) = &entry.reply {
        let mut made = pairs.copy()?;
        copies.append(&mut made)?;
    }
    Ok(())
}

// Copies of the pairs that the records of parts reply, one list after the other.
pub(crate) fn join_pairs<K: Kept + Drop, V: Kept + Drop, A>(
    alloc: Global,
    entries: &[Record<K, V, A>],
) -> Result<Vec<(K, V)>, AllocError>
    ensures { IfOk result (λ copies. IsTrue (pointwise (alike_pair K.alike V.alike) (joined_pairs entries.now) copies.items)) }
{
    let mut copies = Vec::new(alloc);
    for entry in entries {
        add_pairs(&mut copies, entry)?;
    }
    Ok(copies)
}
