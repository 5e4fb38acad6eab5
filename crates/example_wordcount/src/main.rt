//! `wordcount [-t THREADS] [-n TOP] [-v] FILE..` counts the words of files on one map, and prints those that come most often.
#![tactic(auto)]

mod count;

use clap::{Arg, ArgAction, ArgMatches, Command, value_parser};
use count::{Counts, count_text, most_frequent};
use std::alloc::{AllocError, Global};
use std::io::{BufWriter, Eprint, IsTerminal, Write};
use std::process::ExitCode;
use std::rt::{Clock, Files};
use std::sync::Wait;
use std::thread::Threads;
use std::{env, fs, io, thread};

fn main(rt: HostRuntime) -> anyhow::Result<ExitCode> {
    let words: Vec<String> = env::args(&rt)?.collect(rt.alloc())?;
    match command(rt.alloc())?.try_get_matches_from(words.as_slice()) {
        Ok(matches) => {
            let is_told = matches.get_flag("verbose") || rt.stderr().is_terminal();
            let mut output = BufWriter::new(rt.alloc(), rt.stdout())?;
            count_files(&rt, &matches, is_told, &mut output)
        }
        Err(error) => {
            error.print(&rt)?;
            Ok(ExitCode::from(error.exit_code() as u8))
        }
    }
}

// Counts the words of the files that can be read. The status is 1 where one can't.
fn count_files<R: Threads + Wait + Clock + Files + Eprint + AllocGlobal + Sync, W: Write>(
    rt: &R,
    matches: &ArgMatches,
    is_told: bool,
    output: &mut W,
) -> anyhow::Result<ExitCode> {
    let threads = match matches.get_one::<usize>("threads") {
        Some(threads) => threads,
        None => thread::available_parallelism(rt)?.get(),
    };
    let names = matches.get_strs("file").unwrap_or(&[]);
    let texts = read_all(rt, names)?;
    let top = matches.get_one::<usize>("top").unwrap_or(10);
    count_all(rt, &texts, threads, is_told, top, output)?;
    let is_read = texts.len() == names.len();
    Ok(ExitCode::from(if is_read { 0 } else { 1 }))
}

// The texts of the files that can be read, each with its name. Says of each other why it can't.
fn read_all<'n, R: Files + Eprint + AllocGlobal>(
    rt: &R,
    names: &[&'n str],
) -> anyhow::Result<Vec<(&'n str, Vec<u8>)>> {
    let mut texts = Vec::new(rt.alloc());
    for name in names {
        match fs::read(rt, *name) {
            Ok(text) => texts.push((*name, text))?,
            Err(error) => eprintln!(rt; "wordcount: {name}: {error}")?,
        }
    }
    Ok(texts)
}

// Counts the words of all texts, and prints those that come most often.
fn count_all<R: Threads + Wait + Clock + Eprint + AllocGlobal + Sync, W: Write>(
    rt: &R,
    texts: &[(&str, Vec<u8>)],
    threads: usize,
    is_told: bool,
    top: usize,
    output: &mut W,
) -> anyhow::Result<()> {
    let alloc = rt.alloc();
    let counts = Counts::new(alloc, threads)?;
    for (name, text) in texts {
        count_text(rt, alloc, &counts, text.as_slice(), threads)?;
        if is_told {
            eprintln!(rt; "wordcount: {name}: {} bytes", text.len())?;
        }
    }
    print(output, most_frequent(alloc, counts, top)?)?;
    Ok(())
}

// The command line.
fn command<'a>(alloc: Global) -> Result<Command<'a>, AllocError> {
    Command::new(alloc, "wordcount")
        .arg(
            Arg::new(alloc, "threads")
                .short('t')
                .value_name("THREADS")
                .value_parser(value_parser!(usize).range(1..=256))
                .help("How many threads count [default: as many as there are processors]"),
        )?
        .arg(
            Arg::new(alloc, "top")
                .short('n')
                .value_name("TOP")
                .value_parser(value_parser!(usize))
                .default_value("10")
                .help("How many words are printed"),
        )?
        .arg(
            Arg::new(alloc, "verbose")
                .short('v')
                .action(ArgAction::SetTrue)
                .help("Says on standard error which file is counted, as on a terminal"),
        )?
        .arg(
            Arg::new(alloc, "file")
                .value_name("FILE")
                .required(true)
                .action(ArgAction::Append),
        )
}

// Prints a line for each word: how often it came, and the word.
fn print<W: Write>(output: &mut W, words: Vec<(u64, &[u8])>) -> io::Result<()> {
    for (count, word) in words {
        write!(output, "{count} ")?;
        output.write_all(word)?;
        output.write_all(b"\n")?;
    }
    output.flush()
}
