//! Tries the program on workloads that it runs, on streams that fail, on arguments that are no call, and at the limits
//! of the format.
//!
//! A line `run NAME WORD..` of the input names a workload and, if any, further arguments for `eve run`. What stands
//! after `run` is printed again with the exit status, and with what was said where there was no run. The trace of a
//! run is compared with the file of the same name that ends in `.trace`, where there is one, and audited.
//!
//! A line `limits NAME` asks for a trace at the limits of the format, which is made here (`limits.rt`). It is printed
//! again, and below it what audits by 1, 3 and 16 workers say of the trace, and of what is changed in it.
//!
//! A line `files WORD..` is a call over files in memory (`folder.rt`). It is printed again, and below it the exit
//! status, what stood on out, and what was said on the error stream.
//!
//! Every other line is a trial: what fails, the file that is read, and the arguments of the call. It is printed again,
//! and below it what came of it. That is the number of the call or byte at which something failed, from the first to
//! the last that came to the same, the exit status, what stood on out, and what was said on the error stream.
//!
//! - `nothing`: nothing fails, and all that is said stands below
//! - `read`, `write`: the first read or write of a byte fails, or the second, and so on until none does
//! - `word`: the first write to the error stream fails
//! - `random`: there are no random words
//! - `rest`: the file ends before its first byte, or before its second, and so on
//! - `long`: a workload and its trace may have no byte, or one, or two, and so on
//! - `each`: nothing fails, and each byte of the file is one higher in turn: over how many `explain` is as `audit`
#![tactic(auto)]

mod bytes;
mod calls;
mod each;
mod fault;
mod folder;
mod limits;
mod runs;
mod trials;

use crate::bytes::Bytes;
use crate::calls::{Host, arguments_of};
use crate::fault::Fault;
use crate::folder::tell_files;
use crate::limits::tell_limits;
use crate::trials::{Failure, Trial, tell_trial};
use std::fs::Files;
use std::random::RandomSource;
use std::sync::Wait;
use std::thread::Threads;
use std::{fs, io};

/// The first word of a text, and what stands behind it.
fn first_word(text: &str) -> (&str, &str) {
    text.split_once(' ').unwrap_or((text, ""))
}

/// The bytes of the file with this name and ending.
fn file_of<R: AllocGlobal + Files>(rt: &R, name: &str, ending: &str) -> Result<Vec<u8>, Fault> {
    let path = format!(in rt.alloc(); "{name}{ending}")?;
    Ok(fs::read(rt, path.as_str())?)
}

/// The trial that a line asks for. What fails on the way, the line's page notes.
fn trial_of<'a, R: AllocGlobal + Files>(rt: &R, page: &mut Bytes, line: &'a str) -> Trial<'a> {
    let (word, named) = first_word(line);
    let (file, words) = first_word(named);
    let is_run = word == "run";
    let (first, ending): (&[&str], &str) = if is_run {
        (&["eve", "run"], ".in")
    } else {
        (&["eve"], "")
    };
    let bytes = match file_of(rt, file, ending) {
        Ok(bytes) => bytes,
        Err(fault) => {
            page.fail(fault);
            Vec::new(rt.alloc())
        }
    };
    Trial {
        line,
        is_run,
        failure: Failure::of(page, word),
        file,
        bytes,
        arguments: arguments_of(rt.alloc(), page, first, words),
    }
}

/// Prints what came of a line.
fn tell_line<R: AllocGlobal + Files + Print + RandomSource + Threads + Wait + Sync>(
    rt: &R,
    line: &str,
) -> Result<(), Fault> {
    let mut page = Bytes::none(rt.alloc());
    match first_word(line) {
        ("limits", name) => {
            page.words(line);
            page.words("\n");
            tell_limits(&Host::of(rt), name, &mut page);
        }
        ("files", words) => {
            page.words(line);
            page.words("\n");
            tell_files(rt, words, &mut page);
        }
        _ => {
            let trial = trial_of(rt, &mut page, line);
            tell_trial(rt, &trial, &mut page);
        }
    }
    page.print(rt)
}

fn main(rt: HostRuntime) -> Result<(), Fault> {
    let lines = io::read_to_string(rt.alloc(), rt.reader())?;
    for line in lines.lines() {
        tell_line(&rt, line)?;
    }
    Ok(())
}
