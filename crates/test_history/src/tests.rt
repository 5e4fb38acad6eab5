//! The tests of recorded maps: of one owner, behind locks, and what is gathered of them. `maps` has the maps and steps that they share,
//! and `script` the tests of `dash_script`.
mod alone;
mod caller;
mod checks;
mod gather;
mod held;
mod logs;
mod many_shards;
mod maps;
mod script;
mod stamps;
mod threads;
mod whole;
