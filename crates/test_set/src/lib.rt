//! The tests of `dashmap`: sets, lists in and out, and the programs of `uses`, over public items alone; and those of the command line.
//!
//! Modules are named as those that they test. `names` and `words` are programs, which the documents show; `constructors` and `keys` are of
//! hostile use: sizes past the end, keys that are equal but differ, and hashers that put all in one place.
#![tactic(auto)]

#[cfg(test)]
mod tests;
