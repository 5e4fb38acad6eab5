//! Scripts of steps on a recorded map, their replies as text, threads that take steps on one, and the command line of `dashcheck`.
#![tactic(auto)]

pub mod change;
pub mod command;
mod lines;
mod memo;
pub mod script;
pub mod status;
pub mod step;
pub mod threads;
