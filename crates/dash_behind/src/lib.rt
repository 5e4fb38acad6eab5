//! The words that say what a lock has and what memory was refused, and the lemmas that show them, for `dash_shard` alone: no
//! other crate lists this one.
#![tactic(auto)]
