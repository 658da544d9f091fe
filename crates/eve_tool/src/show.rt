//! The calls `show` and `show --long`: the frames of a trace, a line or an object for each.

ghost use Rattle.std.specs.Prelude.{◌≡◌, ◌≢◌, ◌<◌, ◌≤◌, length, Some, IfOk, IfErr, OnOk};
ghost use Rattle.eve_audit.specs.declared.verdict.Verdict.TheVariants.{No};
ghost use Rattle.eve_tool.specs.Audit.{verdict_text};
ghost use Rattle.eve_tool.specs.Calls.{Leaves, StopsListing, StopsLong};
ghost use Rattle.eve_tool.specs.Show.{AreLinesBefore, AreLinesOf, AreLinesTo, SendsLines, SendsUpTo, Shows, ShowsLong};
ghost use Rattle.eve_tool.specs.Show.{with_total};
ghost use Rattle.eve_tool.specs.Writes.{WritesAll};
ghost use Rattle.eve_tool_arguments.specs.Arguments.{Show, ShowLong};
ghost use Rattle.eve_views.specs.Form.{IsFaultOutside, StandsInForm};

use crate::audit::send_verdict;
use crate::fault::ToolFault;
use crate::lines::verdict_text;
use crate::listing::{Listing, send_lines};
use eve_audit::Verdict;
use eve_grammar::{HEADER_LEN, MOST_BYTES};
use eve_streams::{Sink, send_all};
use eve_tool_arguments::Style;
use eve_views::{CheckFault, Code, Fault, Trace};
use std::alloc::Global;

/// Sends the lines of a trace and returns 0; or sends the line of the first fault of form and returns 1.
pub(crate) fn show<O: Sink>(alloc: Global, bytes: &[u8], out: &mut O) -> Result<u8, ToolFault>
    ensures said { IfOk result (WritesAll Shows bytes.now (O.written out.old) (O.written out.new)) }
    ensures status { IfOk result (λ status. status < 2) }
    ensures fine { OnOk result (O.failures out.new ≡ O.failures out.old) }
    ensures left { IfErr result (Leaves MOST_BYTES O.written O.failures Show (Some bytes.now) ⊥ out.old out.new) }
    ensures wrote { IfErr result (λ why. why ≢ ToolFault.Write → O.failures out.new ≡ O.failures out.old) }
{
    match Trace::read(alloc, bytes) {
        Ok(trace) => {
            send_lines(alloc, Listing::Short, trace.bytes(), out)?;
            Ok(0)
        }
        Err(CheckFault::Found(fault)) => {
            let status = send_verdict(alloc, Style::Plain, &Verdict::No(fault), out)?;
            Ok(status)
        }
        Err(CheckFault::Memory) => Err(ToolFault::Memory),
    }
}

/// Sends the lines of the header and of the frames before a fault of form; none where the fault is the header's.
fn send_before<O: Sink>(
    alloc: Global,
    style: Style,
    bytes: &[u8],
    fault: &Fault,
    out: &mut O,
) -> Result<(), ToolFault>
    requires within { fault.now.offset ≤ length bytes.now }
    requires stands { IsFaultOutside StandsInForm bytes.now fault.now }
    ensures sent { OnOk result (SendsLines (O.written out.old) (O.written out.new)
        (AreLinesTo style fault.now.code bytes.now fault.now.offset)) }
    ensures fine { OnOk result (O.failures out.new ≡ O.failures out.old) }
    ensures stopped { IfErr result (StopsListing style O.written O.failures out.old out.new
        (AreLinesTo style fault.now.code bytes.now fault.now.offset)) }
{
    let at = fault.offset as usize;
    if at < HEADER_LEN {
        return Ok(());
    }
    send_lines(alloc, Listing::Full(style), &bytes[..at], out)
}

/// Sends the lines that there are of bytes: of a trace all, else those before the first fault of form.
fn send_there<O: Sink>(
    alloc: Global,
    style: Style,
    bytes: &[u8],
    out: &mut O,
) -> Result<(), ToolFault>
    ensures sent { OnOk result (SendsLines (O.written out.old) (O.written out.new) (AreLinesOf style bytes.now)) }
    ensures fine { OnOk result (O.failures out.new ≡ O.failures out.old) }
    ensures stopped { IfErr result (StopsListing style O.written O.failures out.old out.new
        (AreLinesOf style bytes.now)) }
{
    match Trace::read(alloc, bytes) {
        Ok(trace) => send_lines(alloc, Listing::Full(style), trace.bytes(), out),
        Err(CheckFault::Found(fault)) => send_before(alloc, style, bytes, &fault, out),
        Err(CheckFault::Memory) => Err(ToolFault::Memory),
    }
}

/// Writes their number into bytes, where a header has its total.
fn set_total(bytes: &mut [u8])
    requires { HEADER_LEN ≤ length bytes.old }
    ensures { bytes.new ≡ with_total bytes.old }
{
    let total = bytes.len() as u64;
    bytes[24..HEADER_LEN].copy_from_slice(&total.to_be_bytes());
}

/// Sends the lines before a fault of form. Where it is that there are more or fewer bytes than the header says, the
/// header then says how many there are.
fn send_listed<O: Sink>(
    alloc: Global,
    style: Style,
    bytes: &mut [u8],
    fault: &Fault,
    out: &mut O,
) -> Result<(), ToolFault>
    requires within { fault.now.offset ≤ length bytes.old }
    requires stands { IsFaultOutside StandsInForm bytes.old fault.now }
    ensures sent { OnOk result (SendsLines (O.written out.old) (O.written out.new)
        (AreLinesBefore style fault.now.code bytes.old fault.now.offset)) }
    ensures fine { OnOk result (O.failures out.new ≡ O.failures out.old) }
    ensures stopped { IfErr result (StopsListing style O.written O.failures out.old out.new
        (AreLinesBefore style fault.now.code bytes.old fault.now.offset)) }
{
    match fault.code {
        Code::Length => {
            if bytes.len() < HEADER_LEN || bytes.len() > MOST_BYTES {
                return Ok(());
            }
            set_total(bytes);
            send_there(alloc, style, bytes, out)
        }
        _ => send_before(alloc, style, bytes, fault, out),
    }
}

/// Sends the lines of the header and of the frames before a fault, and then the line of the fault.
fn send_faulty<O: Sink>(
    alloc: Global,
    style: Style,
    bytes: &mut [u8],
    fault: &Fault,
    out: &mut O,
) -> Result<(), ToolFault>
    requires within { fault.now.offset ≤ length bytes.old }
    requires stands { IsFaultOutside StandsInForm bytes.old fault.now }
    ensures sent { OnOk result (SendsUpTo (O.written out.old) (O.written out.new)
        (AreLinesBefore style fault.now.code bytes.old fault.now.offset) (verdict_text style (No fault.now))) }
    ensures fine { OnOk result (O.failures out.new ≡ O.failures out.old) }
    ensures stopped { IfErr result (StopsLong style O.written O.failures out.old out.new
        (AreLinesBefore style fault.now.code bytes.old fault.now.offset) (verdict_text style (No fault.now))) }
{
    let text = verdict_text(alloc, style, &Verdict::No(*fault))?;
    send_listed(alloc, style, bytes, fault, out)?;
    send_all(out, text.as_slice())?;
    Ok(())
}

/// Sends the lines of a trace with the fields of each frame, in this style, and returns 0; or sends those of the frames
/// before the first fault of form, and then the line of that fault, and returns 1.
pub(crate) fn show_long<O: Sink>(
    alloc: Global,
    style: Style,
    bytes: &mut [u8],
    out: &mut O,
) -> Result<u8, ToolFault>
    ensures said { IfOk result (WritesAll (ShowsLong style) bytes.old (O.written out.old) (O.written out.new)) }
    ensures status { IfOk result (λ status. status < 2) }
    ensures fine { OnOk result (O.failures out.new ≡ O.failures out.old) }
    ensures left { IfErr result (Leaves MOST_BYTES O.written O.failures (ShowLong style) (Some bytes.old) ⊥ out.old
        out.new) }
    ensures wrote { IfErr result (λ why. why ≢ ToolFault.Write → O.failures out.new ≡ O.failures out.old) }
{
    let fault = match Trace::read(alloc, bytes) {
        Ok(trace) => {
            send_lines(alloc, Listing::Full(style), trace.bytes(), out)?;
            return Ok(0);
        }
        Err(CheckFault::Found(fault)) => fault,
        Err(CheckFault::Memory) => return Err(ToolFault::Memory),
    };
    send_faulty(alloc, style, bytes, &fault, out)?;
    Ok(1)
}
