//! Tries the calls of the lowest crates. A line of the input says by its first word what is done, and what came of it
//! is printed after the line, or after the name that it gives. Bytes are written as they are, but for one in braces,
//! which is written in hexadecimal: `an{20}n` has a space, and `{}` is no byte at all.
//!
//! - `names LIMIT NAME..`: each name is added, and what that answers, its number and how many there are is printed;
//!   then the number of each name. Where memory is refused, nothing may have changed, and the name is added once more
//! - `name BYTES`: whether these are a name, and the bytes of the one that is made of them
//! - `cents NUMBER`, `amount NUMBER`: the money, if it is in range; `rows CUSTOMER`: the numbers of its two rows
//! - `balances COUNT ROW=CENTS..`: COUNT balances, some of which are set, and a copy of them
//! - `send CALL PART..`: the parts are sent a byte a call, and one call fails, counted from 1
//! - `fetch CALL LIMIT BYTES`: the bytes are read a byte a call, and one call fails; `read LIMIT BYTES`: none fails
//! - `write-to TURNS BYTES`, `read-from TURNS LIMIT`: the same with a device that takes turns at each call: a number of
//!   bytes that it moves, `again` for an interruption, or `fails`, as any other word does; after its last turn it moves
//!   nothing
//! - `reads COUNT TURNS LIMIT`, `tries COUNT TURNS BYTES`: the same where the device is called COUNT times at most
//! - `buffer CALL`: 100,000 numbers are sent in parts of ten through a buffer, behind which one call fails
//! - `token NAME VERSION NUMBER BALANCES REPLIES`: the token; in version 2 also the root that a tree gives, with its
//!   token
//! - `writes NAME BALANCES ROW=CENTS..`: the root that a tree gives at first and after each write
//! - `random NAME COUNT BALANCES`: after how many of COUNT random writes the root is that of a new tree
//! - `workload read NAME TEXT`: the text read as a workload, or its first bad line; `workload cut NAME TEXT`: the same
//!   of each prefix of it; `workload mix NAME TEXT`: its batches cut by both mixers, by the numbers of their requests.
//!   In a text `/` stands for a line feed
//! - `workload greatest`: texts with the greatest numbers of customers, requests and batches, and more
//! - `stamps CASE`: stripes, schedules, recorders and tickets; src/stamps.rt has the cases
//!
//! Where a word isn't as it must be, or memory is refused, nothing is printed of the line, and the program ends there.
//! What must be printed is what table.py, beside the input, answers to the same lines; of workloads it follows from
//! docs/TRACE.md, "Workload", and of stamps it is that all is as it is due.
#![tactic(auto)]

mod buffer;
mod cases;
mod device;
mod followed;
mod money;
mod names;
mod roots;
mod stamps;
mod streams;
mod workloads;

use crate::cases::word_at;
use eve_testing::Text;
use std::io;

/// Tells what came of a line with these words.
fn tell(rt: &HostRuntime, line: &str, words: &[&str], said: &mut Text) {
    let alloc = rt.alloc();
    let what = word_at(words, 0, said);
    if roots::tell(rt, what, words, said) {
        return;
    }
    said.words(line);
    said.words(":");
    let is_told = names::tell(rt, what, words, said)
        || money::tell(alloc, what, words, said)
        || streams::tell(alloc, line, what, words, said)
        || device::tell(alloc, what, words, said)
        || buffer::tell(alloc, what, words, said);
    said.needs(is_told);
}

/// Tells what came of a line.
fn tell_line(rt: &HostRuntime, line: &str, said: &mut Text) {
    match line.split(' ').collect::<Vec<&str>>(rt.alloc()) {
        Ok(words) => tell(rt, line, words.as_slice(), said),
        Err(_) => said.refused(),
    }
    said.words("\n");
}

fn main(rt: HostRuntime) -> io::Result<()> {
    for line in rt.lines(rt.alloc()) {
        let line = line?;
        let mut said = Text::new(rt.alloc());
        match line.as_str().split_once(' ') {
            Some(("workload", asked)) => workloads::tell(&rt, asked, &mut said),
            Some(("stamps", case)) => stamps::tell(&rt, case, &mut said),
            _ => tell_line(&rt, line.as_str(), &mut said),
        }
        said.print(&rt)?;
    }
    Ok(())
}
