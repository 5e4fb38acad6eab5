//! The tests of `dash_history` and `dash_script`, over their public items alone.
//!
//! They stand in a crate of their own, so that each library is proved once, without them.
#![tactic(auto)]

#[cfg(test)]
mod tests;
