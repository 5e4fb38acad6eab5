//! The words that a program is run with.

use std::env::Env;
use std::{env, io};

/// The word at an index, where 0 is the program's name; it is empty where there are fewer.
pub fn word<R: Env + AllocGlobal>(rt: &R, index: usize) -> io::Result<String> {
    let word = env::args(rt)?.nth(index);
    Ok(word.unwrap_or(String::new(rt.alloc())))
}
