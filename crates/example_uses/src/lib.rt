//! Programs as users of the map write them, against `dashmap` alone. The README shows `tally`.
#![tactic(auto)]

pub mod ages;
pub mod digests;
pub mod ids;
pub mod names;
pub mod pages;
pub mod seats;
pub mod sessions;
pub mod stays;
pub mod tally;
pub mod words;
