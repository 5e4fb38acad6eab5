//! Ages under names: a map whose keys are `String`s is asked by text, and no look-up makes a `String`.
ghost use Rattle.std.specs.Prelude.{◌≡◌, ℕ, IfSome, IsTrue, codes, is_some};
ghost use Rattle.std.specs.Option.{option_map};
ghost use Rattle.std.specs.Str.{bytes_eq};
ghost use Rattle.std.specs.String.{string_bytes};
ghost use Rattle.dashmap.specs.Words.{Removes, SawAt};

use dashmap::DashMap;
use dashmap::keyed::Keyed;
use std::rt::Clock;
use std::sync::Wait;

/// Ages by name.
pub type Ages = DashMap<String, u64>;

/// The age under a name. Waits for the name's shard.
pub fn age_of<R: Wait + Clock>(rt: &R, ages: &Ages, name: &str) -> Option<u64>
    ensures { SawAt ⟦<Ages as Keyed>⟧.by ages.now (λ k. bytes_eq name.now (string_bytes k)) (λ p. result ≡ option_map (λ p. p.1) p) }
{
    let found = ages.get(rt, name)?;
    Some(*found.value())
}

/// Whether there is an age under "ada". Waits for its shard.
pub fn has_ada<R: Wait + Clock>(rt: &R, ages: &Ages) -> bool
    ensures { SawAt {V = ℕ} ⟦<Ages as Keyed>⟧.by ages.now (λ k. bytes_eq (codes "ada") (string_bytes k)) (λ p. result ≡ is_some p) }
{
    ages.contains_key(rt, "ada")
}

/// Takes a name out, with its age. Waits for the name's shard.
pub fn forget<R: Wait + Clock>(rt: &R, ages: &Ages, name: &str) -> Option<(String, u64)>
    ensures equal { IfSome result (λ p. IsTrue (bytes_eq name.now (string_bytes p.0))) }
    ensures leaves { Removes ⟦<Ages as Keyed>⟧.by ages.now (λ k. bytes_eq name.now (string_bytes k)) result }
{
    ages.remove(rt, name)
}

/// Makes who has this name a year older, and says how old. Waits for the name's shard.
pub fn have_birthday<R: Wait + Clock>(rt: &R, ages: &Ages, name: &str) -> Option<u64> {
    let mut ages = ages.caller(rt);
    let mut age = ages.get_mut(name)?;
    *age = age.saturating_add(1);
    Some(*age)
}

/// Makes who has this name at least so old. Waits for the name's shard.
pub fn be_at_least<R: Wait + Clock>(rt: &R, ages: &Ages, name: &str, least: u64) {
    ages.alter(rt, name, |_, age| age.max(least));
}
