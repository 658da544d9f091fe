//! The call `explain`: the verdict on a trace, and why it is so.

ghost use Rattle.std.specs.Prelude.{◌≡◌, ◌≢◌, ◌+◌, ◌-◌, ◌<◌, ◌≤◌, ◌++◌, length, map, slice_get, take, Some, IfOk};
ghost use Rattle.std.specs.Prelude.{IfErr, OnOk, OnErr};
ghost use Rattle.std.specs.List.{flat_map};
ghost use Rattle.std.specs.Option.{option_map};
ghost use Rattle.std.specs.Io.KnownBytes.{Appends};
ghost use Rattle.eve_reasons.specs.Lines.{ended};
ghost use Rattle.eve_streams.specs.Failures.{after_failure};
ghost use Rattle.eve_streams.specs.Prefix.{AppendsPrefix};
ghost use Rattle.eve_explain.specs.Explained.{verdict_in};
ghost use Rattle.eve_objects.specs.Evidence.{line_object};
ghost use Rattle.eve_tool.specs.Calls.{Leaves, StopsSending};
ghost use Rattle.eve_tool.specs.Explain.{Explains, explained_object, explained_text, has_numbers, lines_behind};
ghost use Rattle.eve_tool.specs.Explain.{text_behind};
ghost use Rattle.eve_tool.specs.Lines.{status_of_verdict};
ghost use Rattle.eve_tool.specs.Writes.{WritesAll};
ghost use Rattle.eve_tool_arguments.specs.Arguments.{Explain};

use crate::audit::{AuditOptions, send_verdict, status_of};
use crate::fault::ToolFault;
use crate::objects::put_verdict;
use crate::random::random_words;
use eve_evidence::Evidence;
use eve_explain::Explained;
use eve_grammar::MOST_BYTES;
use eve_lines::Line;
use eve_objects::{begin_line, end_line, put_line_object};
use eve_reasons::{MOST_LINES, count_line, reason_line};
use eve_recorder::OpenGate;
use eve_streams::{SendFault, Sink, send_all};
use eve_tool_arguments::Style;
use json::Writer;
use std::alloc::{AllocError, Global};
use std::random::RandomSource;
use std::sync::Wait;
use std::thread::Threads;

/// Line `i`, from 0, of those behind the verdict's, with its line feed; none, where there is no such line.
fn line_behind<'e>(i: usize, explained: &'e Explained<'e>) -> Option<Line>
    ensures { option_map (λ line. line.items) result ≡ slice_get (map ended (lines_behind explained.now)) i }
{
    match explained {
        Explained::Yes(_, counts) => count_line(i, counts),
        Explained::No(_, evidence) => reason_line(i, evidence),
    }
}

/// Sends the lines behind the verdict's.
fn send_reasons<'e, O: Sink>(explained: &'e Explained<'e>, out: &mut O) -> Result<(), SendFault>
    ensures sent { OnOk result (Appends (O.written out.old) (O.written out.new) (text_behind explained.now)) }
    ensures prefix { OnErr result (AppendsPrefix (O.written out.old) (O.written out.new) (text_behind explained.now)) }
    ensures fine { OnOk result (O.failures out.new ≡ O.failures out.old) }
    ensures counted { OnErr result (O.failures out.new ≡ after_failure (O.failures out.old)) }
{
    'lines: for i in 0..MOST_LINES {
        let Some(line) = line_behind(i, explained) else {
            return Ok(());
        };
        send_all(out, line.as_slice())?;
    }
    Ok(())
}

/// Whether what is a number in the lines behind the verdict's is told as one: not where it may be a name or hexadecimal
/// digits.
fn has_numbers(explained: &Explained<'_>) -> bool
    ensures { result ≡ has_numbers explained.now }
{
    match explained {
        Explained::No(_, Evidence::Magic { .. } | Evidence::SameName { .. }) => false,
        _ => true,
    }
}

/// The words of a line, without its line feed.
fn words_of(line: &[u8]) -> &[u8]
    ensures { result.now ≡ take (length line.now - 1) line.now }
{
    &line[..line.len().saturating_sub(1)]
}

/// Appends an object for each line behind the verdict's.
fn put_evidence<'e>(writer: &mut Writer, explained: &'e Explained<'e>) -> Result<(), AllocError>
    ensures tokens { OnOk result (writer.new.tokens ≡ writer.old.tokens
        ++ flat_map (line_object (has_numbers explained.now)) (lines_behind explained.now)) }
    ensures before { OnOk result (writer.new.before ≡ writer.old.before) }
{
    let numbers = has_numbers(explained);
    'objects: for i in 0..MOST_LINES {
        let Some(line) = line_behind(i, explained) else {
            return Ok(());
        };
        put_line_object(writer, numbers, words_of(line.as_slice()))?;
    }
    Ok(())
}

/// The object of an explanation, with its line feed.
#[tactic(auto, unfolding(eve_objects::specs::Members::array_member))]
fn explained_object<'e>(alloc: Global, explained: &'e Explained<'e>) -> Result<Vec<u8>, AllocError>
    ensures { IfOk result (λ line. line.items ≡ explained_object explained.now) }
{
    let mut writer = begin_line(Vec::new(alloc))?;
    put_verdict(alloc, &mut writer, &explained.verdict())?;
    writer.key("evidence")?;
    writer.begin_array()?;
    put_evidence(&mut writer, explained)?;
    writer.end_array()?;
    end_line(writer)
}

/// Sends what is printed of an explanation in this style, and returns the exit status.
fn send_explained<'e, O: Sink>(
    alloc: Global,
    style: Style,
    explained: &'e Explained<'e>,
    out: &mut O,
) -> Result<u8, ToolFault>
    ensures sent { OnOk result (Appends (O.written out.old) (O.written out.new)
        (explained_text style explained.now)) }
    ensures status { IfOk result (λ status. status ≡ status_of_verdict (verdict_in explained.now)) }
    ensures fine { OnOk result (O.failures out.new ≡ O.failures out.old) }
    ensures stopped { IfErr result (StopsSending O.written O.failures out.old out.new
        (explained_text style explained.now)) }
{
    match style {
        Style::Plain => {
            let status = send_verdict(alloc, Style::Plain, &explained.verdict(), out)?;
            send_reasons(explained, out)?;
            Ok(status)
        }
        Style::Json => {
            let object = explained_object(alloc, explained)?;
            send_all(out, object.as_slice())?;
            Ok(status_of(&explained.verdict()))
        }
    }
}

/// Asks for random words, and sends the verdict on the bytes and why it is so, as it is asked for. Returns 0 where the
/// verdict is yes, and 1 where it is the first fault.
pub(crate) fn explain<R: AllocGlobal + RandomSource + Threads + Wait + Sync, O: Sink>(
    rt: &R,
    options: &AuditOptions,
    bytes: &[u8],
    out: &mut O,
) -> Result<u8, ToolFault>
    requires read { length bytes.now ≤ MOST_BYTES + 1 }
    ensures said { IfOk result (WritesAll (Explains (explained_text options.now.style)) bytes.now (O.written out.old)
        (O.written out.new)) }
    ensures status { IfOk result (λ status. status < 2) }
    ensures fine { OnOk result (O.failures out.new ≡ O.failures out.old) }
    ensures left { IfErr result (Leaves MOST_BYTES O.written O.failures (Explain options.now.style) (Some bytes.now) ⊥
        out.old out.new) }
    ensures wrote { IfErr result (λ why. why ≢ ToolFault.Write → O.failures out.new ≡ O.failures out.old) }
{
    let alloc = rt.alloc();
    let random = random_words(rt)?;
    let workers = options.workers.get();
    let Ok(explained) = eve_explain::explain(rt, alloc, bytes, workers, random, &OpenGate) else {
        return Err(ToolFault::Memory);
    };
    let status = send_explained(alloc, options.style, &explained, out)?;
    Ok(status)
}
