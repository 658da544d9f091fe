//! Whole traces.

ghost use Rattle.std.specs.Prelude.{◌≡◌, ◌≢◌, ◌≤◌, ◌<◌, IfOk, Err};
ghost use Rattle.eve_grammar.specs.Trace.{head_of};
ghost use Rattle.eve_grammar.specs.Spelling.{length_of, spelling};
ghost use Rattle.eve_write.specs.Data.{trace};
ghost use Rattle.eve_write.specs.Writable.{HasSpelling};
ghost use Rattle.eve_write.specs.Passes.{prefix_text, rest_text};
ghost use Rattle.eve_write.specs.Writes.{Writes, Wrote, Stopped};

use crate::head::write_header;
use crate::marks::write_end;
use crate::parts::Parts;
use crate::sections::{write_batches, write_sections, write_verifiers};
use crate::short::write_short;
use crate::spell::write_each;
use eve_grammar::{Head, MOST_BYTES};
use eve_streams::{SendFault, Sink};

/// Why parts were not written.
#[derive(Clone, Copy, Debug, PartialEq, Eq)]
pub enum GatherFault {
    /// The sink failed.
    Write,
    /// The trace is longer than the limit.
    TooLong,
    /// The parts have no spelling.
    Shape,
}

fn write_prefix<W: Sink>(
    out: &mut W,
    parts: &Parts,
    head: &Head,
    total: u64,
) -> Result<(), SendFault>
    requires right { HasSpelling parts.now }
    requires head { head.now ≡ head_of (trace parts.now) }
    ensures { Writes W.written W.failures out.old out.new result (prefix_text parts.now total) }
{
    write_header(out, head, total)?;
    write_each(out, parts.customers.as_slice())?;
    write_batches(out, parts.batches.as_slice())
}

fn write_rest<W: Sink>(out: &mut W, parts: &Parts) -> Result<(), SendFault>
    requires { HasSpelling parts.now }
    ensures { Writes W.written W.failures out.old out.new result (rest_text parts.now) }
{
    write_sections(out, parts.sections.as_slice())?;
    write_verifiers(out, parts.verifiers.as_slice())?;
    write_short(out, parts.sent.as_slice())?;
    write_end(out)
}

fn write_parts<W: Sink>(
    out: &mut W,
    parts: &Parts,
    head: &Head,
    total: u64,
) -> Result<(), SendFault>
    requires right { HasSpelling parts.now }
    requires head { head.now ≡ head_of (trace parts.now) }
    requires total { total ≡ length_of (trace parts.now) }
    ensures { Writes W.written W.failures out.old out.new result (spelling (trace parts.now)) }
{
    write_prefix(out, parts, head, total)?;
    write_rest(out, parts)
}

/// Writes the trace of the parts and answers how many bytes it has, at most `limit`.
///
/// docs/TRACE.md. `Shape` comes before `TooLong`, and both before the first byte is written. After `Write` a prefix of
/// the trace has been taken, and not all of it. The sink gets many small sends: `eve_streams::Buffered` gathers them.
pub fn gather<W: Sink>(parts: &Parts, limit: u64, out: &mut W) -> Result<u64, GatherFault>
    requires { limit ≤ MOST_BYTES }
    ensures length { IfOk result (λ n. (n ≡ length_of (trace parts.now)) × (n ≤ limit)) }
    ensures right { IfOk result (λ _. HasSpelling parts.now) }
    ensures written { IfOk result
        (λ _. Wrote W.written W.failures out.old out.new (spelling (trace parts.now))) }
    ensures shape { result ≡ Err GatherFault.Shape → (¬ (HasSpelling parts.now)) × (out.new ≡ out.old) }
    ensures too_long { result ≡ Err GatherFault.TooLong
        → HasSpelling parts.now × (limit < length_of (trace parts.now)) × (out.new ≡ out.old) }
    ensures stopped { result ≡ Err GatherFault.Write → HasSpelling parts.now
        × (length_of (trace parts.now) ≤ limit)
        × Stopped W.written W.failures out.old out.new (spelling (trace parts.now)) }
{
    if !parts.has_spelling() {
        return Err(GatherFault::Shape);
    }
    gather_spelled(parts, limit, out)
}

/// Writes the trace of parts that have a spelling, and answers how many bytes it has, at most `limit`.
///
/// docs/TRACE.md. As `gather`, but that the parts aren't tested: who knows of them saves a pass over them, and never
/// gets `Shape`. `TooLong` comes before the first byte is written. After `Write` a prefix of the trace has been taken,
/// and not all of it.
pub fn gather_spelled<W: Sink>(parts: &Parts, limit: u64, out: &mut W) -> Result<u64, GatherFault>
    requires limit { limit ≤ MOST_BYTES }
    requires spelled { HasSpelling parts.now }
    ensures length { IfOk result (λ n. (n ≡ length_of (trace parts.now)) × (n ≤ limit)) }
    ensures written { IfOk result
        (λ _. Wrote W.written W.failures out.old out.new (spelling (trace parts.now))) }
    ensures shape { result ≢ Err GatherFault.Shape }
    ensures too_long { result ≡ Err GatherFault.TooLong
        → (limit < length_of (trace parts.now)) × (out.new ≡ out.old) }
    ensures stopped { result ≡ Err GatherFault.Write → (length_of (trace parts.now) ≤ limit)
        × Stopped W.written W.failures out.old out.new (spelling (trace parts.now)) }
{
    let Some(head) = parts.head() else {
        unreachable!()
    };
    let total = parts.text_len();
    if total > limit {
        return Err(GatherFault::TooLong);
    }
    match write_parts(out, parts, &head, total) {
        Ok(()) => Ok(total),
        Err(_) => Err(GatherFault::Write),
    }
}
