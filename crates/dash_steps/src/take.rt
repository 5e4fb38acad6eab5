//! A step on one shard, which it changes in place: a shard is a part of its map.
ghost use Rattle.std.specs.Prelude.{◌≡◌, true, IsTrue, IfOk, IfErr};
ghost use Rattle.dash_steps.specs.Words.{IsShard, TakesOn, by, key_hash, step_of};
ghost use Rattle.dash_steps.specs.inner.Hashed.{Asks};
ghost use Rattle.dash_steps.specs.inner.Take.{Goes, goes-after};

use crate::action::Action;
use crate::change::{copy_found, look, make_change, plan_asked};
use crate::kept::{Kept, KeptKey};
use crate::step::{Reply, ShardStep};
use crate::sweep::copy_pairs;
use dash_shard::keyed::Keyed;
use dash_shard::part::Part;
use dash_shard::shard::Shard;
use std::hash::BuildHasher;

// Takes a step that asks its action of the pair at its key, as `take` does.
fn take_asked<K: KeptKey + Drop, V: Kept + Drop, S: BuildHasher, A: Action<K, V> + Drop>(
    shard: &mut Shard<K, V, S>,
    hash: u64,
    step: ShardStep<K, V, A>,
) -> Result<Reply<K, V>, ShardStep<K, V, A>>
    requires asked { Asks step }
    requires goes { Goes A.acts ⟦<Shard<K, V, S> as Keyed>⟧.by shard.old step hash }
    requires lawful { IsShard ⟦<Shard<K, V, S> as Keyed>⟧.by shard.old }
    ensures taken { IfOk result (TakesOn ⟦<Shard<K, V, S> as Keyed>⟧.by K.alike V.alike shard.old (step_of A.acts step) shard.new) }
    ensures refused { IfErr result (λ back. (back ≡ step) × (shard.new ≡ shard.old)) }
{
    let found = shard.position_of_hashed(hash, step.asked_key());
    match plan_asked(look(shard, found), &step) {
        Ok((reply, change)) => {
            make_change(shard, found, change);
            Ok(reply)
        }
        Err(_) => Err(step),
    }
}

/// Takes the step, which goes to this shard and whose key, if it has one, has this hash, or hands it back where there is no memory.
///
/// It takes memory for an `Insert` as the shard's `insert` does, and for copies of pairs: those that a `Get` or a `Read` returns, and
/// the one that an action is asked of.
pub fn take<K: KeptKey + Drop, V: Kept + Drop, S: BuildHasher, A: Action<K, V> + Drop>(
    shard: &mut Shard<K, V, S>,
    hash: u64,
    step: ShardStep<K, V, A>,
) -> Result<Reply<K, V>, ShardStep<K, V, A>>
    requires goes { Goes A.acts ⟦<Shard<K, V, S> as Keyed>⟧.by shard.old step hash }
    requires lawful { IsShard ⟦<Shard<K, V, S> as Keyed>⟧.by shard.old }
    ensures taken { IfOk result (TakesOn ⟦<Shard<K, V, S> as Keyed>⟧.by K.alike V.alike shard.old (step_of A.acts step) shard.new) }
    ensures refused { IfErr result (λ back. (back ≡ step) × (shard.new ≡ shard.old)) }
{
    match step {
        ShardStep::Get(key) => match copy_found(shard.get_hashed(hash, &key)) {
            Ok(pair) => Ok(Reply::Pair(pair)),
            Err(_) => Err(ShardStep::Get(key)),
        },
        ShardStep::Contains(key) => Ok(Reply::Found(shard.get_hashed(hash, &key).is_some())),
        ShardStep::Insert(key, value) => match shard.insert_hashed(hash, key, value) {
            Ok(old) => Ok(Reply::Old(old)),
            Err(refused) => Err(ShardStep::Insert(refused.key, refused.value)),
        },
        ShardStep::Remove(key) => Ok(Reply::Pair(shard.remove_hashed(hash, &key))),
        ShardStep::RemoveIf(_, _) | ShardStep::RemoveIfMut(_, _) | ShardStep::Alter(_, _) => {
            take_asked(shard, hash, step)
        }
        ShardStep::Read(_) | ShardStep::ReadPart(_) => {
            match copy_pairs(shard.allocator(), shard.iter()) {
                Ok(pairs) => Ok(Reply::Pairs(pairs)),
                Err(_) => Err(step),
            }
        }
        ShardStep::Count(_) | ShardStep::CountPart(_) => Ok(Reply::Number(shard.len() as u64)),
        ShardStep::AlterAll(_, action) => {
            shard.retain(
                |key: &K, value: &mut V| -> bool
                    ensures value { IsTrue (V.alike (A.acts action key.now value.old).0 value.new) }
                    ensures answer { result ≡ true }
                {
                    action.act(key, value);
                    true
                },
            );
            Ok(Reply::Done)
        }
        ShardStep::Retain(_, action) => {
            shard.retain(
                |key: &K, value: &mut V| -> bool
                    ensures value { IsTrue (V.alike (A.acts action key.now value.old).0 value.new) }
                    ensures answer { result ≡ (A.acts action key.now value.old).1 }
                { action.act(key, value) },
            );
            Ok(Reply::Done)
        }
    }
}

impl<K: KeptKey + Drop, V: Kept + Drop, S: BuildHasher, A: Action<K, V> + Drop> Part<
    ShardStep<K, V, A>,
    Reply<K, V>,
> for Shard<K, V, S> {
    ghost takes = { λ old step reply new. TakesOn (key_hash K.eq K.hash_input S.BuildHasher S.Hasher.Hasher) K.alike V.alike old (step_of A.acts step) new reply };

    ghost fits = { λ shard step hash. Goes A.acts (key_hash K.eq K.hash_input S.BuildHasher S.Hasher.Hasher) shard step hash
        × IsShard (key_hash K.eq K.hash_input S.BuildHasher S.Hasher.Hasher) shard };

    ghost stays = { λ p q s t m y took fit.
        (goes-after A.acts (key_hash K.eq K.hash_input S.BuildHasher S.Hasher.Hasher) p q t m took.stays fit.0, took.lawful) };

    fn take(
        &mut self,
        step: ShardStep<K, V, A>,
        hash: u64,
    ) -> Result<Reply<K, V>, ShardStep<K, V, A>> {
        take(self, hash, step)
    }
}
