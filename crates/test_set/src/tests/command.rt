//! What `dashcheck` prints, where writes succeed and where they fail.
use crate::tests::checks::is;
use dash_script::command::{exit_code, refuse_memory, run_words};
use std::alloc::{AllocError, Global};
use std::io::{self, Write};
use std::process::Abort;
use std::rt::Clock;
use std::sync::Wait;
use std::thread::Threads;

const USAGE: &str = "usage: dashcheck script | dashcheck threads C N | dashcheck memo C N\n";

// Takes so many bytes, then fails.
#[derive(Drop)]
struct Full {
    room: usize,
}

impl Write for Full {
    fn write(&mut self, buf: &[u8]) -> io::Result<usize> {
        let taken = buf.len().min(self.room);
        if taken == 0 {
            return Err(io::Error::from(io::ErrorKind::Other));
        }
        self.room -= taken;
        Ok(taken)
    }

    fn flush(&mut self) -> io::Result<()> {
        Ok(())
    }
}

fn words(alloc: Global, line: &str) -> Result<Vec<String>, AllocError> {
    let mut words = Vec::new(alloc);
    for word in line.split_ascii_whitespace() {
        words.push(word.to_string(alloc)?)?;
    }
    Ok(words)
}

// Runs the words of a line, and returns the exit status.
fn run<T: Threads + Wait + Clock + Abort + Sync, O: Write, E: Write>(
    rt: &T,
    alloc: Global,
    line: &str,
    input: &mut &[u8],
    output: &mut O,
    errors: &mut E,
) -> u8 {
    let words = words(alloc, line).expect(rt, "refused");
    let ran = run_words(rt, alloc, words.as_slice(), input, output, errors);
    exit_code(words.as_slice(), ran)
}

// Ends the test where a run of a line leaves something else, or takes something of its input.
fn leaves<T: Threads + Wait + Clock + Abort + Sync>(
    rt: &T,
    alloc: Global,
    line: &str,
    output: &str,
    errors: &str,
    code: u8,
) {
    let mut input = b"get 1\n".as_slice();
    let (mut out, mut err) = (Vec::new(alloc), Vec::new(alloc));
    let found = run(rt, alloc, line, &mut input, &mut out, &mut err);
    is(
        rt,
        (line, found, input.len(), out.as_slice(), err.as_slice()),
        (line, code, 6, output.as_bytes(), errors.as_bytes()),
    );
}

#[test]
fn checks_the_command_line_first(rt: HostRuntime) {
    for line in [
        "",
        "Script",
        "script 1",
        "threads 4",
        "threads 0 1",
        "threads 0 5",
        "threads 65 1",
        "threads 1 10001",
        "threads 01 1",
        "threads +1 1",
        "threads 18446744073709551617 1",
        "threads 4 100 1",
        "memo 65 1",
        "memo 0 1",
        "--help",
    ] {
        leaves(&rt, rt.alloc(), line, "", USAGE, 2);
    }
}

#[test]
fn threads_are_legal_and_a_cache_computes_each_value_once(rt: HostRuntime) {
    for (line, output) in [
        ("threads 4 100", "entries 400\nlegal\n"),
        ("threads 1 0", "entries 0\nlegal\n"),
        ("threads 64 1", "entries 64\nlegal\n"),
        ("memo 4 16", "answers 64\nright 64\ncomputed 16\n"),
        ("memo 1 0", "answers 0\nright 0\ncomputed 0\n"),
        ("memo 64 1", "answers 64\nright 64\ncomputed 1\n"),
    ] {
        leaves(&rt, rt.alloc(), line, output, "", 0);
    }
}

// Runs a script, which is to leave these. It is refused where it prints an error.
fn scripts<T: Threads + Wait + Clock + Abort + Sync>(
    rt: &T,
    alloc: Global,
    script: &str,
    output: &str,
    errors: &str,
) {
    let mut input = script.as_bytes();
    let (mut out, mut err) = (Vec::new(alloc), Vec::new(alloc));
    let code = run(rt, alloc, "script", &mut input, &mut out, &mut err);
    is(
        rt,
        (script, code, out.as_slice(), err.as_slice()),
        (
            script,
            !errors.is_empty() as u8,
            output.as_bytes(),
            errors.as_bytes(),
        ),
    );
}

// The program's first run, actions, edges, and steps of all shards.
#[test]
fn scripts_are_answered(rt: HostRuntime) {
    for (script, output, errors) in [
        (
            "insert 1 10\ninsert 1 11\nget 1\n",
            "old none\nold 10\npair 1 11\n",
            "",
        ),
        (
            "insert 0 5\ninsert 4 9\nretain 0 addbelow 1 10\nread 0\nremoveif 0 below 6\nremoveifmut 0 addbelow 1 7\nremoveifmut 0 addbelow 0 8\ncount 0\n",
            "old none\nold none\ndone\npairs 0:6\npair none\npair none\npair 0 7\nnumber 0\n",
            "",
        ),
        ("", "", ""),
        ("get 1", "pair none\n", ""),
        (
            "get 1\nread 4\n",
            "pair none\n",
            "refused line 2: no such shard (20)\n",
        ),
        (
            "insert 18446744073709551616 1\n",
            "",
            "refused line 1: bad step\n",
        ),
        (
            "insert 18446744073709551615 0\ncount 3\n",
            "old none\nnumber 1\n",
            "",
        ),
        (
            "insert 0 1\ninsert 1 2\ninsert 3 4\ncountall\nreadall\n",
            "old none\nold none\nold none\nnumber 3\npairs 0:1 1:2 3:4\n",
            "",
        ),
        ("countall 0\n", "", "refused line 1: bad step\n"),
    ] {
        scripts(&rt, rt.alloc(), script, output, errors);
    }
}

#[test]
fn stops_where_a_write_fails(rt: HostRuntime) {
    for room in [0, 4, 9, 12] {
        let mut input = b"insert 1 10\nget 1\nbad\n".as_slice();
        let (mut output, mut errors) = (Full { room }, Vec::new(rt.alloc()));
        let code = run(
            &rt,
            rt.alloc(),
            "script",
            &mut input,
            &mut output,
            &mut errors,
        );
        is(&rt, (room, errors.len(), code), (room, 0, 1));
    }
}

#[test]
fn fails_where_the_errors_cannot_be_written(rt: HostRuntime) {
    for (line, code) in [("threads 4", 2), ("script", 1)] {
        let mut input = b"bad\n".as_slice();
        let (mut output, mut errors) = (Full { room: 0 }, Full { room: 0 });
        let found = run(&rt, rt.alloc(), line, &mut input, &mut output, &mut errors);
        is(&rt, (line, found), (line, code));
    }
    is(&rt, refuse_memory(&mut Full { room: 0 }), 1);
}
