//! The call `run`: a deployment serves a workload, and the trace of the run is written.

ghost use Rattle.std.specs.Prelude.{◌≡◌, ◌≢◌, ◌≤◌, ◌<◌, ◌⊎◌, Some, Err};
ghost use Rattle.std.specs.Prelude.{IfOk, IfErr, OnOk};
ghost use Rattle.eve_grammar.specs.Spelling.{length_of, spelling};
ghost use Rattle.eve_streams.specs.Failures.{after_failure};
ghost use Rattle.eve_write.specs.Data.{trace};
ghost use Rattle.eve_write.specs.Writable.{HasSpelling};
ghost use Rattle.eve_write.specs.Writes.{Wrote, Stopped};
ghost use Rattle.eve_tool.specs.Calls.{WasRead, Leaves};
ghost use Rattle.eve_tool.specs.Run.{Runs, IsRunOfText, StopsRun};
ghost use Rattle.eve_tool_arguments.specs.Arguments.{Run};
ghost use Rattle.eve_tool.specs.Writes.{WritesAll, WritesAllOf};

use crate::fault::ToolFault;
use crate::random::random_words;
use eve_grammar::MOST_BYTES;
use eve_recorder::OpenGate;
use eve_replica::eve_workload::{Mixer, Workload};
use eve_replica::run_consuming;
use eve_streams::{Sink, Source, read_all};
use eve_tool_arguments::Format;
use eve_write::{GatherFault, Parts, gather_spelled};
use std::random::RandomSource;
use std::sync::Wait;
use std::thread::Threads;

/// How a run is asked for.
#[derive(Clone, Copy)]
pub(crate) struct RunOptions {
    /// Which mixer cuts the batches.
    pub(crate) mixer: Mixer,
    /// Which format the trace has.
    pub(crate) format: Format,
    /// How many bytes the workload has at most, and the trace too.
    pub(crate) limit: u32,
}

/// Sends the trace of the parts, if it has at most `limit` bytes.
fn send_trace<O: Sink>(parts: &Parts, limit: u32, out: &mut O) -> Result<(), ToolFault>
    requires spelled { HasSpelling parts.now }
    requires limit { limit ≤ MOST_BYTES }
    ensures sent { OnOk result ((length_of (trace parts.now) ≤ limit)
        × Wrote O.written O.failures out.old out.new (spelling (trace parts.now))) }
    ensures long { result ≡ Err ToolFault.TooLong → (limit < length_of (trace parts.now))
        × (out.new ≡ out.old) }
    ensures stopped { result ≡ Err ToolFault.Write → (length_of (trace parts.now) ≤ limit)
        × Stopped O.written O.failures out.old out.new (spelling (trace parts.now)) }
    ensures why { IfErr result (λ e. (e ≡ ToolFault.TooLong) ⊎ (e ≡ ToolFault.Write)) }
{
    match gather_spelled(parts, limit as u64, out) {
        Ok(_) => Ok(()),
        Err(GatherFault::Write) => Err(ToolFault::Write),
        Err(GatherFault::TooLong) => Err(ToolFault::TooLong),
        Err(GatherFault::Shape) => unreachable!(),
    }
}

/// Runs the workload that these bytes are, as it is asked for, and returns the parts of its trace. The bytes go once it
/// is read.
fn parts_of<R: AllocGlobal + RandomSource + Threads + Wait + Sync>(
    rt: &R,
    options: RunOptions,
    bytes: Vec<u8>,
) -> Result<Parts, ToolFault>
    ensures run { IfOk result (IsRunOfText options.mixer options.format bytes.items) }
    ensures stopped { IfErr result (StopsRun options.mixer options.format bytes.items) }
{
    let alloc = rt.alloc();
    let workload = Workload::read(alloc, bytes.as_slice(), options.format.version())?;
    drop(bytes);
    let random = random_words(rt)?;
    match run_consuming(rt, alloc, workload, options.mixer, random, &OpenGate) {
        Ok(parts) => Ok(parts),
        Err(why) => Err(ToolFault::from(why)),
    }
}

/// Runs the workload that these bytes are, as it is asked for, sends the trace, and returns the exit status. Bytes or a
/// trace past the limit are too long.
pub(crate) fn run_bytes<R: AllocGlobal + RandomSource + Threads + Wait + Sync, O: Sink>(
    rt: &R,
    options: RunOptions,
    bytes: Vec<u8>,
    out: &mut O,
) -> Result<u8, ToolFault>
    requires { options.limit ≤ MOST_BYTES }
    ensures said { IfOk result (WritesAll (Runs options.limit options.mixer options.format) bytes.items
        (O.written out.old) (O.written out.new)) }
    ensures status { IfOk result (λ status. status ≡ 0) }
    ensures fine { OnOk result (O.failures out.new ≡ O.failures out.old) }
    ensures left { IfErr result (Leaves options.limit O.written O.failures (Run options.mixer options.format)
        (Some bytes.items) ⊥ out.old out.new) }
    ensures wrote { IfErr result (λ why. why ≢ ToolFault.Write → O.failures out.new ≡ O.failures out.old) }
{
    let is_long = bytes.len() > options.limit as usize;
    if is_long {
        return Err(ToolFault::TooLong);
    }
    let parts = parts_of(rt, options, bytes)?;
    send_trace(&parts, options.limit, out)?;
    Ok(0)
}

/// Reads a workload in this format, asks for random words once it is accepted, runs it, and sends the trace, with the
/// answer 0: as `eve run` does, but of a workload and a trace of at most `limit` bytes.
///
/// docs/TRACE.md, "Workload" and "The deployment's procedure". A workload of more bytes is too long, and so is one
/// whose trace would be; nothing is sent then, nor where a line of it is bad. So what is too long can be tried with
/// little; for `eve run` the limit is 2^30. Refused, in the order of the tests: `Read`; `TooLong` of the workload;
/// `Line`; `Random`; `Broken`, or `TooLong` of the run; `TooLong` of the trace; `Write`; and `Memory` where it is met.
/// Then nothing is sent, but a prefix of the trace after `Write`.
pub fn run_within<R: AllocGlobal + RandomSource + Threads + Wait + Sync, I: Source, O: Sink>(
    rt: &R,
    mixer: Mixer,
    format: Format,
    limit: u32,
    input: &mut I,
    out: &mut O,
) -> Result<u8, ToolFault>
    requires { limit ≤ MOST_BYTES }
    ensures all { IfOk result (WritesAllOf (Runs limit mixer format) (I.remaining input.old) (O.written out.old)
        (O.written out.new)) }
    ensures status { IfOk result (λ status. status ≡ 0) }
    ensures fine { OnOk result ((I.failures input.new ≡ I.failures input.old)
        × (O.failures out.new ≡ O.failures out.old)) }
    ensures left { IfErr result (Leaves limit O.written O.failures (Run mixer format) (I.remaining input.old)
        (I.failures input.new ≡ after_failure (I.failures input.old)) out.old out.new) }
    ensures read { IfErr result (λ why. why ≢ ToolFault.Read → I.failures input.new ≡ I.failures input.old) }
    ensures ended { IfErr result (λ why. why ≢ ToolFault.Read → why ≢ ToolFault.Memory
        → WasRead limit (I.remaining input.old) (I.remaining input.new)) }
    ensures consumed { OnOk result (WasRead limit (I.remaining input.old) (I.remaining input.new)) }
    ensures wrote { IfErr result (λ why. why ≢ ToolFault.Write → O.failures out.new ≡ O.failures out.old) }
{
    let bytes = read_all(rt.alloc(), input, limit)?;
    let options = RunOptions {
        mixer,
        format,
        limit,
    };
    run_bytes(rt, options, bytes, out)
}
