//! The tests of a map, over public items alone: its calls behind its locks and of one owner, runs of steps, and what it lends, as references and
//! entries, walks, views, operators.
//!
//! Tests of maps stand in crates of their own, so that each library is proved once, without them, and in several, so that they are proved side by
//! side.
#![tactic(auto)]

#[cfg(test)]
mod tests;
