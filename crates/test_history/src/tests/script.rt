//! What a script prints, where reads succeed and where they fail.
use crate::tests::checks::is;
use dash_script::script;
use dash_script::status::Status;
use std::alloc::Global;
use std::io::{self, Read};
use std::process::Abort;
use std::rt::Clock;
use std::sync::Wait;

mod replay;
mod threads;

// Gives the bytes, one piece a read, then fails.
#[derive(Drop)]
struct Failing<'a> {
    bytes: &'a [u8],
}

impl Read for Failing<'_> {
    fn read(&mut self, buf: &mut [u8]) -> io::Result<usize> {
        if self.bytes.is_empty() {
            return Err(io::Error::from(io::ErrorKind::Other));
        }
        self.bytes.read(buf)
    }
}

// What a run left on its outputs, and how it ended.
#[derive(Drop)]
struct Ran {
    output: Vec<u8>,
    errors: Vec<u8>,
    status: Option<Status>,
}

// Runs a script.
fn run<T: Wait + Clock, R: Read>(rt: &T, alloc: Global, input: &mut R) -> Ran {
    let mut output = Vec::new(alloc);
    let mut errors = Vec::new(alloc);
    let status = script::run(rt, alloc, input, &mut output, &mut errors).ok();
    Ran {
        output,
        errors,
        status,
    }
}

// Ends the test where a run of this script left something else.
fn is_ran(rt: &impl Abort, script: &[u8], ran: &Ran, output: &str, errors: &str, status: Status) {
    let found = (ran.output.as_slice(), ran.errors.as_slice(), ran.status);
    let wanted = (output.as_bytes(), errors.as_bytes(), Some(status));
    is(rt, (script, found), (script, wanted));
}

// Runs a script, which is to print these. It is refused where it prints an error.
fn check<T: Abort + Wait + Clock>(
    rt: &T,
    alloc: Global,
    script: &[u8],
    output: &str,
    errors: &str,
) {
    let mut input = script;
    let ran = run(rt, alloc, &mut input);
    let status = if errors.is_empty() {
        Status::Good
    } else {
        Status::Refused
    };
    is_ran(rt, script, &ran, output, errors, status);
}

#[test]
fn replies_are_printed(rt: HostRuntime) {
    let rows: [(&[u8], &str); 9] = [
        (
            b"insert 0 1\ninsert 1 2\ninsert 3 4\ncountall\nreadall\n",
            "old none\nold none\nold none\nnumber 3\npairs 0:1 1:2 3:4\n",
        ),
        (
            b"insert 1 10\ninsert 5 50\ninsert 1 11\nget 1\ncount 1\nread 1\nremove 5\ncontains 5\ncontains 1\n",
            "old none\nold none\nold 10\npair 1 11\nnumber 2\npairs 1:11 5:50\npair 5 50\nfound no\nfound yes\n",
        ),
        (
            b"insert 0 5\ninsert 4 9\nretain 0 addbelow 1 10\nread 0\nremoveif 0 below 6\nremoveifmut 0 addbelow 1 7\nremoveifmut 0 addbelow 0 8\ncount 0\n",
            "old none\nold none\ndone\npairs 0:6\npair none\npair none\npair 0 7\nnumber 0\n",
        ),
        (
            b"alter 4 add 1\ninsert 4 18446744073709551615\nalter 4 add 2\nget 4\nremoveif 4 add 9\nget 4\n",
            "done\nold none\ndone\npair 4 1\npair 4 1\npair none\n",
        ),
        (
            b"insert 9 1\ninsert 1 9\ninsert 18446744073709551613 0\ninsert 5 5\ninsert 6 6\nalterall 1 add 1\nread 1\nread 2\nread 3\n",
            "old none\nold none\nold none\nold none\nold none\ndone\npairs 1:10 5:6 9:2 18446744073709551613:1\npairs 6:6\npairs\n",
        ),
        (
            b"readall\ninsert 0 1\ninsert 1 2\ninsert 3 4\nremove 1\ncountall\nreadall",
            "pairs\nold none\nold none\nold none\npair 1 2\nnumber 2\npairs 0:1 3:4\n",
        ),
        (
            b"insert 18446744073709551615 0\ncount 3\n",
            "old none\nnumber 1\n",
        ),
        (b"get 1", "pair none\n"),
        (b"", ""),
    ];
    for (script, output) in rows {
        check(&rt, rt.alloc(), script, output, "");
    }
}

#[test]
fn the_first_refusal_ends_a_script(rt: HostRuntime) {
    let rows: [(&[u8], &str, &str); 6] = [
        (
            b"get 1\nread 4\nget 1\n",
            "pair none\n",
            "refused line 2: no such shard (20)\n",
        ),
        (
            b"alterall 18446744073709551615 add 1\n",
            "",
            "refused line 1: no such shard (20)\n",
        ),
        (
            b"retain 4 below 1",
            "",
            "refused line 1: no such shard (20)\n",
        ),
        (
            b"insert 1 10\nget 1\n\nget 1\n",
            "old none\npair 1 10\n",
            "refused line 3: bad step\n",
        ),
        (b"get 1\nget x", "pair none\n", "refused line 2: bad step\n"),
        (&[b'1'; 9000], "", "refused line 1: bad step\n"),
    ];
    for (script, output, errors) in rows {
        check(&rt, rt.alloc(), script, output, errors);
    }
}

#[test]
fn bad_steps_are_refused(rt: HostRuntime) {
    let bad: [&[u8]; 26] = [
        b"\n",
        b" get 1\n",
        b"get 1 \n",
        b"insert 1  2\n",
        b"get\t1\n",
        b"get 1\r\n",
        b"get \xff\n",
        b"get \xc3\xa9\n",
        b"get +1\n",
        b"get -1\n",
        b"get 01\n",
        b"get 0x1\n",
        b"insert 18446744073709551616 1\n",
        b"insert 1 18446744073709551616\n",
        b"get\n",
        b"insert 1\n",
        b"remove 1 2\n",
        b"put 1 2\n",
        b"Get 1\n",
        b"removeif 1 below\n",
        b"removeif below 1\n",
        b"removeifmut 1 addbelow 1\n",
        b"alter 1 plus 1\n",
        b"alterall add 1\n",
        b"read 18446744073709551616\n",
        b"countall 0\n",
    ];
    for line in bad {
        check(&rt, rt.alloc(), line, "", "refused line 1: bad step\n");
    }
}

#[test]
fn a_failed_read_is_told(rt: HostRuntime) {
    for (bytes, output) in [("", ""), ("insert 1 10\nget", "old none\n")] {
        let bytes = bytes.as_bytes();
        let ran = run(&rt, rt.alloc(), &mut Failing { bytes });
        is_ran(
            &rt,
            bytes,
            &ran,
            output,
            "refused: read failed\n",
            Status::Refused,
        );
    }
}
