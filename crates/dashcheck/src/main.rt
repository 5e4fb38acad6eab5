//! `dashcheck` takes a script of steps on a recorded map and prints each reply, lets threads take steps on one, or lets them ask a cache.
#![tactic(auto)]

use dash_script::command::{exit_code, refuse_memory, run_words};
use std::process::ExitCode;
use std::{env, io};

fn main(rt: HostRuntime) -> ExitCode {
    let errors = &mut rt.stderr();
    let words = match words(&rt) {
        Ok(words) => words,
        Err(e) if e.kind() == io::ErrorKind::OutOfMemory => {
            return ExitCode::from(refuse_memory(errors));
        }
        // A word that is no text.
        Err(_) => Vec::new(rt.alloc()),
    };
    let ran = run_words(
        &rt,
        rt.alloc(),
        words.as_slice(),
        &mut rt.stdin(),
        &mut rt.stdout(),
        errors,
    );
    ExitCode::from(exit_code(words.as_slice(), ran))
}

// The words after the program's name.
fn words(rt: &HostRuntime) -> io::Result<Vec<String>> {
    let mut words = Vec::new(rt.alloc());
    for word in env::args(rt)?.skip(1) {
        words.push(word)?;
    }
    Ok(words)
}
