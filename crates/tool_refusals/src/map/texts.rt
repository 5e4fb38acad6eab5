//! Look-ups of `String` keys by a `&str`: they ask for no memory.

use crate::keys::FULL;
use crate::trial::{Ended, needed};
use dashmap::{DashMap, DashSet};
use std::alloc::{AllocError, Global};
use std::rt::Clock;
use std::sync::Wait;

/// How look-ups ended on a map and a set that have "ada" alone.
pub fn look_up<R: Wait + Clock>(rt: &R, alloc: Global) -> Result<Ended, AllocError> {
    let map = needed(DashMap::with_shard_amount(alloc, 4))?;
    let set = needed(DashSet::new(alloc, 1))?;
    needed(map.insert(rt, String::from_str(alloc, "ada")?, 36))?;
    needed(set.insert(rt, String::from_str(alloc, "ada")?))?;
    let finds = finds(rt, &map) && takes(rt, &map) && takes_member(rt, &set);
    Ok(Ended::answered(FULL, finds))
}

// Whether the calls find the one key, and no other.
fn finds<R: Wait + Clock>(rt: &R, map: &DashMap<String, u64>) -> bool {
    map.alter(rt, "ada", |_, age| age.wrapping_add(1));
    let age = map.get(rt, "ada").map(|found| *found.value());
    let age_to_write = map.get_mut(rt, "ada").map(|found| *found.value());
    let seen = map.view(rt, "ada", |_, age| *age);
    age == Some(37)
        && age_to_write == Some(37)
        && seen == Some(37)
        && map.contains_key(rt, "ada")
        && !map.contains_key(rt, "ad")
        && !map.contains_key(rt, "adam")
}

fn takes<R: Wait + Clock>(rt: &R, map: &DashMap<String, u64>) -> bool {
    map.remove_if(rt, "ada", |_, age| *age == 0).is_none()
        && map.remove(rt, "adam").is_none()
        && map.remove(rt, "ada").is_some()
}

fn takes_member<R: Wait + Clock>(rt: &R, set: &DashSet<String>) -> bool {
    set.get(rt, "ada").is_some() && set.contains(rt, "ada") && set.remove(rt, "ada").is_some()
}
