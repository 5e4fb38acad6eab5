//! What a step makes of all pairs of a shard: copies of them, and what its action makes of copies of their values.
ghost use Rattle.std.specs.Prelude.{IsTrue, IfOk, OnOk};
ghost use Rattle.dash_steps.specs.Words.{SameShard, pairs};
ghost use Rattle.dash_steps.specs.inner.Copied.{alike_pairs};
ghost use Rattle.dash_steps.specs.inner.Plan.{StaysLawful, PutsEach};
ghost use Rattle.dash_steps.specs.inner.Sweep.{keeping, GivesEach, PutsNext, AddsAlike};

use crate::action::Action;
use crate::change::{Change, ask};
use crate::kept::{Kept, KeptKey};
use dash_shard::keyed::Keyed;
use dash_shard::shard::{Iter, Shard};
use std::alloc::{AllocError, Global};
use std::collections::VecDeque;
use std::hash::BuildHasher;

/// Copies of these pairs, in their order.
pub fn copy_pairs<K: Kept + Drop, V: Kept + Drop>(
    alloc: Global,
    pairs: Iter<'_, K, V>,
) -> Result<Vec<(K, V)>, AllocError>
    ensures { IfOk result (λ made. IsTrue (alike_pairs K.alike V.alike pairs.entry made.items)) }
{
    let mut copies = Vec::with_capacity(alloc, pairs.len())?;
    add_copies(&mut copies, pairs)?;
    Ok(copies)
}

/// Adds copies of these pairs, in their order.
pub fn add_copies<K: Kept + Drop, V: Kept + Drop>(
    copies: &mut Vec<(K, V)>,
    pairs: Iter<'_, K, V>,
) -> Result<(), AllocError>
    ensures { OnOk result (AddsAlike K.alike V.alike pairs.entry copies.old.items copies.new.items) }
{
    for (key, value) in pairs {
        let key = key.copy()?;
        copies.push((key, value.copy()?))?;
    }
    Ok(())
}

/// What the action makes of copies of the values, and its answers: yes where all pairs stay.
pub(crate) fn ask_each<K: Kept, V: Kept + Drop, A: Action<K, V>>(
    alloc: Global,
    pairs: Iter<'_, K, V>,
    action: &A,
    all: bool,
) -> Result<Vec<(V, bool)>, AllocError>
    ensures { IfOk result (λ made. GivesEach V.alike (keeping all (A.acts action.now)) pairs.entry made.items) }
{
    let mut made = Vec::with_capacity(alloc, pairs.len())?;
    for (key, value) in pairs {
        let (changed, answer) = ask(key, value, action)?;
        made.push((changed, all || answer))?;
    }
    Ok(made)
}

/// Makes of each pair what was decided: puts the values in place of the shard's, in rising order of slots, and takes out each pair that has
/// no yes beside its value.
pub(crate) fn put_each<K: KeptKey + Drop, V: Kept + Drop, S: BuildHasher>(
    shard: &mut Shard<K, V, S>,
    change: Change<V>,
)
    ensures leaves { PutsEach K.eq K.alike V.alike change (pairs shard.old) (pairs shard.new) }
    ensures stays { SameShard shard.old shard.new }
    ensures lawful { StaysLawful ⟦<Shard<K, V, S> as Keyed>⟧.by shard.old shard.new }
{
    let Change::Each(made) = change else {
        return;
    };
    let mut made = VecDeque::from(made);
    shard.retain(
        |_key: &K, value: &mut V| -> bool
            ensures { PutsNext made.entry.items made.exit.items value.new result }
        {
            match made.pop_front() {
                Some((changed, stays)) => {
                    *value = changed;
                    stays
                }
                None => true,
            }
        },
    );
}
