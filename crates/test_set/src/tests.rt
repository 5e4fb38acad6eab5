//! The tests, in modules that are named as those that they test.
mod ages;
mod checks;
mod command;
mod constructors;
mod digests;
mod extend;
mod ids;
mod keys;
mod memo;
mod names;
mod pages;
mod parallel;
mod seats;
mod sessions;
mod set;
mod stays;
mod words;
