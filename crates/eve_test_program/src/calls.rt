//! Calls of the program, and what they come to.

use crate::bytes::Bytes;
use crate::fault::Fault;
use eve_streams::failing::FailsAt;
use eve_streams::one_byte::OneByte;
use eve_streams::{Sink, SinkOf, Source, SourceOf};
use eve_tool::eve_tool_arguments::Format;
use eve_tool::{run_within, serve, stop};
use eve_workload::Mixer;
use std::alloc::Global;
use std::io;
use std::io::ErrorKind;
use std::random::RandomSource;
use std::sync::Wait;
use std::thread::Threads;

/// A runtime that may have no random words. All calls are made by one, so that what they call is compiled once.
#[derive(Drop)]
pub(crate) struct Host<'a, R> {
    runtime: &'a R,
    has_random: bool,
}

impl<'a, R> Host<'a, R> {
    /// This runtime, which has them.
    pub(crate) fn of(runtime: &'a R) -> Host<'a, R> {
        Host {
            runtime,
            has_random: true,
        }
    }
}

impl<R: Threads> Threads for Host<'_, R> {}

impl<R: Wait> Wait for Host<'_, R> {}

impl<R: AllocGlobal> Alloc for Host<'_, R> {
    type A = Global;

    fn alloc(&self) -> Global {
        self.runtime.alloc()
    }
}

impl<R: RandomSource> RandomSource for Host<'_, R> {
    fn fill_bytes(&self, buf: &mut [u8]) -> io::Result<()> {
        if self.has_random {
            self.runtime.fill_bytes(buf)
        } else {
            Err(io::Error::from(ErrorKind::Other))
        }
    }
}

/// What a call meets.
#[derive(Clone, Copy)]
pub(crate) struct Terms {
    /// Which read, write, or write to the error stream fails, counted from 1; 0 where none does.
    pub(crate) read: u64,
    pub(crate) write: u64,
    pub(crate) word: u64,
    /// Whether there are random words.
    pub(crate) has_random: bool,
    /// How many bytes a workload and its trace may have, where that is asked of `eve run`, in place of what the
    /// arguments ask for.
    pub(crate) limit: Option<u32>,
}

impl Terms {
    /// Terms on which nothing fails.
    pub(crate) fn fine() -> Terms {
        Terms {
            read: 0,
            write: 0,
            word: 0,
            has_random: true,
            limit: None,
        }
    }
}

/// Memory that takes one byte a call, and fails at this call.
type Memory = FailsAt<OneByte<SinkOf<Vec<u8>>>>;

fn memory(alloc: Global, call: u64) -> Memory {
    FailsAt::new(OneByte::new(SinkOf::new(Vec::new(alloc))), call)
}

fn bytes_of(memory: &Memory) -> &[u8] {
    memory.stream().stream().writer().as_slice()
}

/// What a call came to: its exit status, and what stands on out and on the error stream.
#[derive(Drop)]
pub(crate) struct Answer {
    status: u8,
    out: Memory,
    err: Memory,
}

impl Answer {
    pub(crate) fn status(&self) -> u8 {
        self.status
    }

    pub(crate) fn out(&self) -> &[u8] {
        bytes_of(&self.out)
    }

    pub(crate) fn err(&self) -> &[u8] {
        bytes_of(&self.err)
    }
}

/// How many bytes a workload and its trace may have at most, where there is a limit.
const MOST_LIMIT: u32 = 10_000;

/// The exit status of a call over these streams.
fn served<R: AllocGlobal + RandomSource + Threads + Wait + Sync, I: Source, O: Sink, E: Sink>(
    rt: &R,
    arguments: &[&str],
    limit: Option<u32>,
    input: &mut I,
    out: &mut O,
    err: &mut E,
) -> u8 {
    let Some(limit) = limit else {
        return serve(rt, arguments, input, out, err);
    };
    match run_within(
        rt,
        Mixer::First,
        Format::One,
        limit.min(MOST_LIMIT),
        input,
        out,
    ) {
        Ok(status) => status,
        Err(fault) => stop(fault, err),
    }
}

/// What `eve` answers on these terms, by streams that move one byte a call.
pub(crate) fn said<R: AllocGlobal + RandomSource + Threads + Wait + Sync>(
    rt: &R,
    arguments: &[&str],
    bytes: &[u8],
    terms: Terms,
) -> Answer {
    let host = Host {
        runtime: rt,
        has_random: terms.has_random,
    };
    let mut input = FailsAt::new(OneByte::new(SourceOf::new(bytes)), terms.read);
    let mut out = memory(rt.alloc(), terms.write);
    let mut err = memory(rt.alloc(), terms.word);
    let status = served(
        &host,
        arguments,
        terms.limit,
        &mut input,
        &mut out,
        &mut err,
    );
    Answer { status, out, err }
}

/// What `eve` writes for these arguments and this input, by streams that move as much as they are asked to.
pub(crate) fn out_of<R: AllocGlobal + RandomSource + Threads + Wait + Sync>(
    rt: &R,
    arguments: &[&str],
    bytes: &[u8],
) -> Bytes {
    let mut input = SourceOf::new(bytes);
    let mut out = SinkOf::new(Vec::new(rt.alloc()));
    let mut err = SinkOf::new(Vec::new(rt.alloc()));
    served(rt, arguments, None, &mut input, &mut out, &mut err);
    let mut bytes = Bytes::none(rt.alloc());
    bytes.append(out.writer().as_slice());
    bytes
}

/// The arguments of a call: these, and then the words of a text.
pub(crate) fn arguments_of<'a>(
    alloc: Global,
    page: &mut Bytes,
    first: &[&'a str],
    words: &'a str,
) -> Vec<&'a str> {
    let mut arguments = Vec::new(alloc);
    if arguments.extend_from_slice(first).is_err() {
        page.fail(Fault::Memory);
    }
    for word in words.split_whitespace() {
        if arguments.push(word).is_err() {
            page.fail(Fault::Memory);
        }
    }
    arguments
}
