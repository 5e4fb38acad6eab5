//! The tests, in modules that are named as those that they test.
mod by_hand;
mod checks;
mod hash;
mod kept;
mod lock;
mod nap;
mod shard;
