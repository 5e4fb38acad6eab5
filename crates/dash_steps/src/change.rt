//! What a step with an action makes of the pair at its key: it is decided on a copy of the value, before anything changes.
ghost use Rattle.std.specs.Prelude.{◌≡◌, IsTrue, IsSome, IfOk, OnErr};
ghost use Rattle.std.specs.Option.{option_map};
ghost use Rattle.std.specs.Map.Iter.{deref_pair};
ghost use Rattle.dash_steps.specs.Words.{SameShard, line, step_of};
ghost use Rattle.dash_steps.specs.inner.Copied.{AlikeFound};
ghost use Rattle.dash_steps.specs.inner.Plan.{Plans, IsTakenSlot, MakesAt, StaysLawful, pair_in};
ghost use Rattle.dash_steps.specs.inner.Hashed.{Asks};

use crate::action::Action;
use crate::kept::Kept;
use crate::step::{Reply, ShardStep};
use dash_shard::keyed::Keyed;
use dash_shard::shard::Shard;
use std::alloc::AllocError;
use std::hash::{BuildHasher, Hash};

/// What a step will do: nothing, a change of the pair at its key, if there is one, or a change of each pair of its shard.
#[derive(Drop)]
pub enum Change<V> {
    Stays,
    Goes,
    Becomes(V),
    /// Each value becomes the next of these, and the pair stays where yes is beside it.
    Each(Vec<(V, bool)>),
}

/// The pair of the slot that was found, if one was.
#[inline]
pub(crate) fn look<K: Eq + Hash, V, S: BuildHasher>(
    shard: &Shard<K, V, S>,
    found: Option<usize>,
) -> Option<(&K, &V)>
    requires { IsTakenSlot shard.now found }
    ensures { option_map deref_pair result ≡ pair_in shard.now found }
{
    let slot = found?;
    Some(shard.at(slot))
}

/// Makes of the pair in the slot that was found, if one was, what was decided.
pub(crate) fn make_change<K: Eq + Hash + Drop, V: Drop, S: BuildHasher>(
    shard: &mut Shard<K, V, S>,
    found: Option<usize>,
    change: Change<V>,
)
    requires { IsTakenSlot shard.old found }
    ensures becomes { MakesAt ⟦<Shard<K, V, S> as Keyed>⟧.by shard.old shard.new found change }
    ensures stays { SameShard shard.old shard.new }
    ensures room { shard.new.capacity ≡ shard.old.capacity }
    ensures lawful { StaysLawful ⟦<Shard<K, V, S> as Keyed>⟧.by shard.old shard.new }
{
    let Some(slot) = found else {
        drop(change);
        return;
    };
    match change {
        Change::Stays | Change::Each(_) => (),
        Change::Goes => drop(shard.remove_at(slot)),
        Change::Becomes(value) => drop(shard.set_at(slot, value)),
    }
}

/// A copy of a pair that was found.
pub(crate) fn copy_found<K: Kept + Drop, V: Kept + Drop>(
    found: Option<(&K, &V)>,
) -> Result<Option<(K, V)>, AllocError>
    ensures copy { IfOk result (AlikeFound K.alike V.alike (option_map deref_pair found.entry)) }
    ensures memory { OnErr result (IsSome found.entry) }
{
    match found {
        Some((key, value)) => {
            let key = key.copy()?;
            Ok(Some((key, value.copy()?)))
        }
        None => Ok(None),
    }
}

/// What the action makes of a copy of the value, and its answer.
pub(crate) fn ask<K: Kept, V: Kept + Drop, A: Action<K, V>>(
    key: &K,
    value: &V,
    action: &A,
) -> Result<(V, bool), AllocError>
    ensures changed { IfOk result (λ asked. IsTrue (V.alike (A.acts action.now key.now value.now).0 asked.0)) }
    ensures answer { IfOk result (λ asked. asked.1 ≡ (A.acts action.now key.now value.now).1) }
{
    let mut changed = value.copy()?;
    let answer = action.act(key, &mut changed);
    Ok((changed, answer))
}

/// The reply and the change of a step that asks its action of the pair at its key, where this pair stands there.
pub(crate) fn plan_asked<K: Kept + Drop, V: Kept + Drop, A: Action<K, V>>(
    found: Option<(&K, &V)>,
    step: &ShardStep<K, V, A>,
) -> Result<(Reply<K, V>, Change<V>), AllocError>
    requires { Asks step.now }
    ensures plan { IfOk result (Plans K.alike V.alike (line (step_of A.acts step.now)) (option_map deref_pair found.entry)) }
    ensures memory { OnErr result (IsSome found.entry) }
{
    let Some((key, value)) = found else {
        return Ok(match step {
            ShardStep::Alter(_, _) => (Reply::Done, Change::Stays),
            _ => (Reply::Pair(None), Change::Stays),
        });
    };
    match step {
        ShardStep::RemoveIf(_, action) => {
            let (_, answer) = ask(key, value, action)?;
            if !answer {
                return Ok((Reply::Pair(None), Change::Stays));
            }
            let key = key.copy()?;
            Ok((Reply::Pair(Some((key, value.copy()?))), Change::Goes))
        }
        ShardStep::RemoveIfMut(_, action) => {
            let (changed, answer) = ask(key, value, action)?;
            if !answer {
                return Ok((Reply::Pair(None), Change::Becomes(changed)));
            }
            let key = key.copy()?;
            Ok((Reply::Pair(Some((key, changed))), Change::Goes))
        }
        ShardStep::Alter(_, action) => {
            let (changed, _) = ask(key, value, action)?;
            Ok((Reply::Done, Change::Becomes(changed)))
        }
        _ => unreachable!(),
    }
}
