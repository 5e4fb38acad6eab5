//! What a step will do to a shard: it is made first, since it takes memory, and carried out once all copies are there.
ghost use Rattle.std.specs.Prelude.{◌≡◌, IfOk, IfErr, OnOk};
ghost use Rattle.dash_steps.specs.Words.{Finds, GoesTo, Routes, SameShard, known};
ghost use Rattle.dash_steps.specs.inner.Hashed.{HasHash};
ghost use Rattle.dash_steps.specs.inner.Plan.{MayAnswer, Decides, Makes, StaysLawful, Leaves, IsFound, HasPlace};
ghost use Rattle.dash_shard.specs.inner.Table.{MayTake};
ghost use Rattle.std.specs.Result.{result_ok};

use crate::action::KeptAction;
use crate::change::{Change, copy_found, look, make_change, plan_asked};
use crate::kept::{Kept, KeptKey};
use crate::known::Recorded;
use crate::step::{Reply, ShardStep};
use crate::sweep::{ask_each, copy_pairs, put_each};
use dash_shard::keyed::Keyed;
use dash_shard::shard::{InsertRefused, Place, Shard};
use std::alloc::{AllocError, Global};
use std::hash::BuildHasher;
use std::marker::PhantomData;

/// A shard whose steps have actions of this type, as contracts name it. No value of it is made.
pub struct Acting<K, V, S, A>(PhantomData<(K, V, S, A)>);

impl<K: KeptKey, V: Kept, S: BuildHasher, A: KeptAction<K, V>> Recorded for Acting<K, V, S, A> {
    type Key = K;

    type Value = V;

    type Action = A;

    type State = S;

    ghost known = { known K.KeptKey V.alike A.KeptAction S.BuildHasher S.Hasher.Hasher };
}

/// The slot of the pair at the step's key, or else the place for one, if the step is an insert, and there is room.
pub fn find<K: KeptKey, V: Kept, S: BuildHasher, A: KeptAction<K, V>>(
    shard: &Shard<K, V, S>,
    hash: u64,
    step: &ShardStep<K, V, A>,
) -> Result<usize, Place>
    requires { HasHash ⟦<Acting<K, V, S, A> as Recorded>⟧.known shard.now step.now hash }
    ensures found { IsFound ⟦<Acting<K, V, S, A> as Recorded>⟧.known shard.now step.now (result_ok result) }
    ensures place { IfErr result (HasPlace shard.now step.now hash) }
{
    if let ShardStep::Insert(key, _) = step {
        return shard.find_or_place(hash, key);
    }
    let Ok(key) = step.key() else {
        return Err(Place::default());
    };
    shard.position_of_hashed(hash, key).ok_or(Place::default())
}

/// What the step may reply now, and what it makes of the pair at its key, or its action of each pair. It takes memory for copies.
pub fn prepare<K: KeptKey + Drop, V: Kept + Drop, S: BuildHasher, A: KeptAction<K, V> + Drop>(
    alloc: Global,
    shard: &Shard<K, V, S>,
    found: Option<usize>,
    step: &ShardStep<K, V, A>,
) -> Result<(Reply<K, V>, Change<V>), AllocError>
    requires goes { GoesTo ⟦<Acting<K, V, S, A> as Recorded>⟧.known shard.now step.now }
    requires found { IsFound ⟦<Acting<K, V, S, A> as Recorded>⟧.known shard.now step.now found }
    ensures answers { IfOk result (λ plan.
        MayAnswer ⟦<Acting<K, V, S, A> as Recorded>⟧.known shard.now step.now plan.0) }
    ensures decides { IfOk result (λ plan.
        Decides ⟦<Acting<K, V, S, A> as Recorded>⟧.known shard.now step.now plan.1) }
{
    let pair = look(shard, found);
    match step {
        ShardStep::Get(_) => Ok((Reply::Pair(copy_found(pair)?), Change::Stays)),
        ShardStep::Contains(_) => Ok((Reply::Found(pair.is_some()), Change::Stays)),
        ShardStep::Insert(_, _) => match pair {
            Some((_, value)) => Ok((Reply::Old(Some(value.copy()?)), Change::Stays)),
            None => Ok((Reply::Old(None), Change::Stays)),
        },
        ShardStep::Remove(_) => Ok((Reply::Pair(copy_found(pair)?), Change::Goes)),
        ShardStep::RemoveIf(_, _) | ShardStep::RemoveIfMut(_, _) | ShardStep::Alter(_, _) => {
            plan_asked(pair, step)
        }
        ShardStep::Read(_) | ShardStep::ReadPart(_) => Ok((
            Reply::Pairs(copy_pairs(alloc, shard.iter())?),
            Change::Stays,
        )),
        ShardStep::Count(_) | ShardStep::CountPart(_) => {
            Ok((Reply::Number(shard.len() as u64), Change::Stays))
        }
        ShardStep::AlterAll(_, action) | ShardStep::Retain(_, action) => {
            let all = matches!(step, ShardStep::AlterAll(_, _));
            let made = ask_each(alloc, shard.iter(), action, all)?;
            Ok((Reply::Done, Change::Each(made)))
        }
    }
}

/// Does to the shard what the step says and what was decided, or hands the step back, where there is no memory for a new key.
pub fn carry_out<K: KeptKey + Drop, V: Kept + Drop, S: BuildHasher, A: KeptAction<K, V> + Drop>(
    shard: &mut Shard<K, V, S>,
    hash: u64,
    found: Result<usize, Place>,
    step: ShardStep<K, V, A>,
    decided: Change<V>,
) -> Result<(), ShardStep<K, V, A>>
    requires goes { GoesTo ⟦<Acting<K, V, S, A> as Recorded>⟧.known shard.old step }
    requires hash { HasHash ⟦<Acting<K, V, S, A> as Recorded>⟧.known shard.old step hash }
    requires found { IsFound ⟦<Acting<K, V, S, A> as Recorded>⟧.known shard.old step (result_ok found) }
    requires place { IfErr found (HasPlace shard.old step hash) }
    requires decides { Decides ⟦<Acting<K, V, S, A> as Recorded>⟧.known shard.old step decided }
    ensures ok { OnOk result (Leaves ⟦<Acting<K, V, S, A> as Recorded>⟧.known shard.old step shard.new) }
    ensures stays { SameShard shard.old shard.new }
    ensures lawful { StaysLawful ⟦<Shard<K, V, S> as Keyed>⟧.by shard.old shard.new }
    ensures err { IfErr result (λ back. (back ≡ step) × (shard.new ≡ shard.old)) }
{
    match step {
        ShardStep::Get(_key) | ShardStep::Contains(_key) => Ok(()),
        ShardStep::Insert(key, value) => match shard.insert_found(hash, key, value, found) {
            Ok(_old) => Ok(()),
            Err(InsertRefused { key, value }) => Err(ShardStep::Insert(key, value)),
        },
        ShardStep::Remove(_key) => {
            make_change(shard, found.ok(), decided);
            Ok(())
        }
        ShardStep::RemoveIf(_key, _action)
        | ShardStep::RemoveIfMut(_key, _action)
        | ShardStep::Alter(_key, _action) => {
            make_change(shard, found.ok(), decided);
            Ok(())
        }
        ShardStep::Read(_)
        | ShardStep::Count(_)
        | ShardStep::CountPart(_)
        | ShardStep::ReadPart(_) => Ok(()),
        ShardStep::AlterAll(_shard, _action) | ShardStep::Retain(_shard, _action) => {
            // The number's contract says that all pairs go to the shard.
            let _ = shard.number();
            put_each(shard, decided);
            Ok(())
        }
    }
}
