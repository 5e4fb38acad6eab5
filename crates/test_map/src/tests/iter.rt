//! The walks over a map, on maps that show which shard is held.
mod borders;
mod ends;
mod locked;
mod writing;
