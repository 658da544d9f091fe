//! Reads worked traces, and writes them again from parts of their own. A line of the input names the file of a trace.
//! It is printed again, with the number of bytes and what came of the copy. That is whether `gather` writes the same
//! bytes, refuses a limit one byte lower and parts that have no spelling, and stops where the sink fails: at each byte,
//! and not at the call after the last. A name that ends in `.transfer` is that of a frame that is to be a Transfer of
//! one customer: it is read row by row and written again. The last line is that of a Transfer of the most rows that
//! there may be.
#![tactic(auto)]

mod copy;
mod transfers;

use copy::parts_of;
use eve_grammar::{MOST_BYTES, MOST_ROWS};
use eve_streams::failing::FailsAt;
use eve_streams::one_byte::OneByte;
use eve_streams::{Buffered, SinkOf};
use eve_views::{CheckFault, Trace};
use eve_write::{ChoiceData, GatherFault, Parts, VoteData, gather};
use std::alloc::{AllocError, Global};
use std::io::{ErrorKind, Write};
use std::{fs, io};
use transfers::{came_of_largest, came_of_transfer};

/// How many bytes a trace has at most.
const LONGEST: u64 = MOST_BYTES as u64;

/// A sink in memory with room for `room` bytes: it fails for lack of memory here, and not where it is written to.
pub(crate) fn memory(alloc: Global, room: usize) -> io::Result<SinkOf<Vec<u8>>> {
    Ok(SinkOf::new(Vec::with_capacity(alloc, room)?))
}

/// Whether the parts are written as these bytes, after a buffer too, and only within the limit.
fn is_written(alloc: Global, parts: &Parts, bytes: &[u8]) -> io::Result<bool> {
    let mut out = memory(alloc, bytes.len())?;
    let written = gather(parts, LONGEST, &mut out);
    let mut buffered = Buffered::new(alloc, memory(alloc, bytes.len())?)?;
    let held = gather(parts, LONGEST, &mut buffered);
    let flushed = buffered.flush();
    Ok(
        written == Ok(bytes.len() as u64)
            && held == written
            && flushed.is_ok()
            && out.writer().as_slice() == bytes
            && buffered.sink().writer().as_slice() == bytes,
    )
}

/// Whether the parts are written within this limit, and not within one that is a byte lower.
fn is_limited(alloc: Global, parts: &Parts, limit: usize) -> io::Result<bool> {
    let mut out = memory(alloc, limit)?;
    let limit = limit as u64;
    let beyond = gather(parts, limit.saturating_sub(1).min(LONGEST), &mut out);
    let is_empty = out.writer().is_empty();
    let within = gather(parts, limit.min(LONGEST), &mut out);
    Ok(within == Ok(limit) && beyond == Err(GatherFault::TooLong) && is_empty)
}

/// Whether a sink that fails at one byte has those before it, and no more.
fn stops_at_each_byte(alloc: Global, parts: &Parts, bytes: &[u8]) -> io::Result<bool> {
    for call in 1..=bytes.len() {
        let sink = memory(alloc, call)?;
        let mut out = FailsAt::new(OneByte::new(sink), call as u64);
        let stopped = gather(parts, LONGEST, &mut out);
        let sent = out.stream().stream().writer().as_slice();
        if stopped != Err(GatherFault::Write)
            || sent.len() + 1 != call
            || !bytes.starts_with(sent)
        {
            return Ok(false);
        }
    }
    Ok(true)
}

/// Whether a sink that takes one byte a call and fails at the call after the last byte has all of them: no further call
/// is made.
fn ends_at_the_last_byte(alloc: Global, parts: &Parts, bytes: &[u8]) -> io::Result<bool> {
    let sink = memory(alloc, bytes.len())?;
    let behind = bytes.len() as u64 + 1;
    let mut out = FailsAt::new(OneByte::new(sink), behind);
    let written = gather(parts, LONGEST, &mut out);
    Ok(written == Ok(bytes.len() as u64) && out.stream().stream().writer().as_slice() == bytes)
}

/// Whether the parts are refused, before a byte is written, once a vote for a rollback has a token.
fn is_shaped(alloc: Global, mut parts: Parts) -> io::Result<bool> {
    let mut votes = Vec::new(alloc);
    votes.push(VoteData {
        seq: 1,
        view: 0,
        choice: ChoiceData::ForRollback,
        token: [1; 32],
    })?;
    parts.quorum = parts.verifiers.len().min(16) as u8 + 1;
    parts.verifiers.push(votes)?;
    let mut out = memory(alloc, 0)?;
    Ok(gather(&parts, 0, &mut out) == Err(GatherFault::Shape) && out.writer().is_empty())
}

/// What is wrong with the writing of these parts, if it isn't that of these bytes.
fn wrong_of(alloc: Global, parts: &Parts, bytes: &[u8]) -> io::Result<Option<&'static str>> {
    if !is_written(alloc, parts, bytes)? {
        Ok(Some("other bytes"))
    } else if !is_limited(alloc, parts, bytes.len())? {
        Ok(Some("another limit"))
    } else if !stops_at_each_byte(alloc, parts, bytes)? {
        Ok(Some("goes on where the sink failed"))
    } else if !ends_at_the_last_byte(alloc, parts, bytes)? {
        Ok(Some("calls the sink after the last byte"))
    } else {
        Ok(None)
    }
}

/// What comes of a shape that has no spelling, made of these parts.
fn came_of_shape(alloc: Global, parts: Parts) -> io::Result<&'static str> {
    Ok(if is_shaped(alloc, parts)? {
        "the same"
    } else {
        "a shape that has no spelling is written"
    })
}

/// What came of the copy of a trace that was read from these bytes.
fn came_of_trace(alloc: Global, trace: &Trace, bytes: &[u8]) -> io::Result<&'static str> {
    let parts = parts_of(alloc, trace)?;
    match wrong_of(alloc, &parts, bytes)? {
        Some(wrong) => Ok(wrong),
        None => came_of_shape(alloc, parts),
    }
}

/// What came of the copy of a trace.
fn came_of(alloc: Global, bytes: &[u8]) -> io::Result<&'static str> {
    match Trace::read(alloc, bytes) {
        Ok(trace) => came_of_trace(alloc, &trace, bytes),
        Err(CheckFault::Memory) => Err(AllocError)?,
        Err(CheckFault::Found(_)) => Ok("no trace"),
    }
}

fn main(rt: HostRuntime) -> io::Result<()> {
    for line in rt.lines(rt.alloc()) {
        let line = line?;
        let bytes = fs::read(&rt, line.as_str())?;
        let came = if line.ends_with(".transfer") {
            came_of_transfer(rt.alloc(), 2, bytes.as_slice())?
        } else {
            came_of(rt.alloc(), bytes.as_slice())?
        };
        let len = bytes.len();
        println!(rt; "{line}: {len} bytes, {came}")?;
    }
    let (len, came) = came_of_largest(rt.alloc())?;
    println!(rt; "{MOST_ROWS} rows: {len} bytes, {came}")?;
    Ok(())
}
