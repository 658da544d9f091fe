//! The call `audit`: the verdict on a trace.

ghost use Rattle.std.specs.Prelude.{◌≡◌, ◌≢◌, ◌<◌, IfOk, IfErr, OnOk, Some};
ghost use Rattle.std.specs.Io.KnownBytes.{Appends};
ghost use Rattle.eve_tool.specs.Audit.{AuditsAs, Judges, StopsJudging, verdict_text};
ghost use Rattle.eve_tool.specs.Calls.{Leaves, StopsSending};
ghost use Rattle.eve_tool.specs.Lines.{status_of_verdict};
ghost use Rattle.eve_tool.specs.Writes.{WritesAll};
ghost use Rattle.eve_tool_arguments.specs.Arguments.{Audit};

use crate::fault::ToolFault;
use crate::lines::verdict_text;
use crate::random::random_words;
use eve_audit::Verdict;
use eve_grammar::MOST_BYTES;
use eve_recorder::OpenGate;
use eve_streams::{Sink, send_all};
use eve_tool_arguments::{Style, WorkerCount};
use std::alloc::Global;
use std::random::RandomSource;
use std::sync::Wait;
use std::thread::Threads;

/// How a verdict is asked for.
#[derive(Clone, Copy)]
pub(crate) struct AuditOptions {
    /// How many workers find it.
    pub(crate) workers: WorkerCount,
    /// How it is written.
    pub(crate) style: Style,
}

/// The exit status of a verdict.
pub(crate) fn status_of(verdict: &Verdict) -> u8
    ensures { result ≡ status_of_verdict verdict.now }
{
    match verdict {
        Verdict::Yes(_) => 0,
        Verdict::No(_) => 1,
    }
}

/// Sends a verdict in this style, and returns the exit status.
pub(crate) fn send_verdict<O: Sink>(
    alloc: Global,
    style: Style,
    verdict: &Verdict,
    out: &mut O,
) -> Result<u8, ToolFault>
    ensures sent { OnOk result (Appends (O.written out.old) (O.written out.new)
        (verdict_text style verdict.now)) }
    ensures status { IfOk result (λ status. status ≡ status_of_verdict verdict.now) }
    ensures fine { OnOk result (O.failures out.new ≡ O.failures out.old) }
    ensures stopped { IfErr result (StopsSending O.written O.failures out.old out.new
        (verdict_text style verdict.now)) }
{
    let text = verdict_text(alloc, style, verdict)?;
    send_all(out, text.as_slice())?;
    Ok(status_of(verdict))
}

/// Asks for random words, and returns the verdict on the bytes, which `workers` workers find.
pub(crate) fn verdict_on<R: AllocGlobal + RandomSource + Threads + Wait + Sync>(
    rt: &R,
    workers: WorkerCount,
    bytes: &[u8],
) -> Result<Verdict, ToolFault>
    ensures verdict { IfOk result (Judges bytes.now) }
    ensures stopped { IfErr result (StopsJudging ⊥) }
{
    let random = random_words(rt)?;
    let verdict = eve_audit::audit(rt, rt.alloc(), bytes, workers.get(), random, &OpenGate)?;
    Ok(verdict)
}

/// Sends the verdict on the bytes, as it is asked for. Returns 0 where it is yes, and 1 where it is the first fault.
pub(crate) fn audit<R: AllocGlobal + RandomSource + Threads + Wait + Sync, O: Sink>(
    rt: &R,
    options: &AuditOptions,
    bytes: &[u8],
    out: &mut O,
) -> Result<u8, ToolFault>
    ensures said { IfOk result (WritesAll (AuditsAs (verdict_text options.now.style)) bytes.now (O.written out.old)
        (O.written out.new)) }
    ensures status { IfOk result (λ status. status < 2) }
    ensures fine { OnOk result (O.failures out.new ≡ O.failures out.old) }
    ensures left { IfErr result (Leaves MOST_BYTES O.written O.failures (Audit options.now.style) (Some bytes.now) ⊥
        out.old out.new) }
    ensures wrote { IfErr result (λ why. why ≢ ToolFault.Write → O.failures out.new ≡ O.failures out.old) }
{
    let verdict = verdict_on(rt, options.workers, bytes)?;
    let status = send_verdict(rt.alloc(), options.style, &verdict, out)?;
    Ok(status)
}
