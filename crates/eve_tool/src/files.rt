//! The program over the files that its arguments name.

ghost use Rattle.std.specs.Prelude.{◌≡◌, ◌≢◌, ◌≤◌, ◌<◌, ◌⊎◌, ℕ, [], ◌∷◌, List, Option, Some, map, take, length};
ghost use Rattle.std.specs.Prelude.{IfErr, IfOk, IfSome, IsNone, OnErr, OnOk};
ghost use Rattle.std.specs.Io.KnownBytes.{Appends};
ghost use Rattle.std.specs.String.{string_bytes};
ghost use Rattle.eve_audit.specs.Verdict.{SpellsAudited};
ghost use Rattle.eve_streams.specs.Buffers.{held_bytes};
ghost use Rattle.eve_streams.specs.Failures.{after_failure};
ghost use Rattle.eve_tool.specs.Audit.{AuditsAs, StopsJudging, named_text};
ghost use Rattle.eve_tool.specs.Calls.{Calls, StopsHelp, Tells, TellsLine};
ghost use Rattle.eve_tool.specs.Fault.{status_of};
ghost use Rattle.eve_tool.specs.Files.{AllSpellAudited, BeginsNext, FailsAmong, HoldsBack, JudgesAll, JudgesFile};
ghost use Rattle.eve_tool.specs.Files.{RunsOut, ServesCall, ServesFile, all_bytes, all_failures, first_named};
ghost use Rattle.eve_tool.specs.Files.{named_fault, open_line, open_text};
ghost use Rattle.eve_tool.specs.declared.files.OpenFault.{OpenFault};
ghost use Rattle.eve_tool_arguments.specs.Arguments.{AsksForHelp, Audit, CallsAudit, CallsExplain, CallsNothing};
ghost use Rattle.eve_tool_arguments.specs.Arguments.{IsRefused, Subcommand, files_of, subcommand_of_call};
ghost use Rattle.eve_tool_arguments.specs.declared.style.Style.{Style};

use crate::audit::{AuditOptions, status_of, verdict_on};
use crate::fault::ToolFault;
use crate::lines::push_verdict_line;
use crate::objects::verdict_object;
use crate::program::{refuse, serve_call, serve_help, stop, tell};
use eve_audit::Verdict;
use eve_grammar::MOST_BYTES;
use eve_streams::{Buffered, Sink, Source, read_all, send_all};
use eve_tool_arguments::{Asked, Call, Style, read_arguments};
use std::alloc::{AllocError, Global};
use std::convert::AsStr;
use std::random::RandomSource;
use std::sync::Wait;
use std::thread::Threads;

/// Why a file is not opened.
#[derive(Clone, Copy, Debug)]
pub enum OpenFault {
    /// There is none of its name.
    Missing,
    /// It may not be read.
    Denied,
    /// It is a folder.
    IsFolder,
    /// The system gave another reason.
    Unknown,
}

impl OpenFault {
    /// What is said of it behind the file's name.
    fn text(self) -> &'static str
        ensures { result.now ≡ open_text self }
    {
        match self {
            OpenFault::Missing => ": no such file",
            OpenFault::Denied => ": permission denied",
            OpenFault::IsFolder => ": is a directory",
            OpenFault::Unknown => "",
        }
    }
}

/// Where files lie.
pub trait Folder {
    type Input: Source + Drop;

    // The bytes of the file of this name, where they are known.
    ghost bytes: { Self → List ℕ → Option (List ℕ) };

    // Why the file of this name may be refused.
    ghost refuses: { Self → List ℕ → OpenFault → Type 0 };

    /// Opens the file of this name. `-` names standard input. Refused with `Missing`, `Denied` or `IsFolder`, where
    /// that is why, else with `Unknown`.
    fn open(&self, name: &str) -> Result<Self::Input, OpenFault>
        ensures bytes { IfOk result (λ input. IfSome (bytes self.now name.now)
            (λ known. Self.Input.remaining input ≡ Some known)) }
        ensures refused { IfErr result (refuses self.now name.now) };
}

/// What is said on the error stream of a file that is not opened.
#[tactic(auto, unfolding(crate::specs::Files::open_line))]
fn open_line(alloc: Global, name: &str, why: OpenFault) -> Result<String, AllocError>
    ensures { IfOk result (λ line. string_bytes line ≡ open_line name.now why) }
{
    let mut line = String::new(alloc);
    let why = why.text();
    writeln!(line, "eve: cannot open {name}{why}")?;
    Ok(line)
}

/// Says on `err` why a file is not opened, and returns the exit status. What can't be said is lost.
fn stop_unopened<E: Sink>(alloc: Global, name: &str, why: OpenFault, err: &mut E) -> u8
    ensures { ((result ≡ 2) × TellsLine E.written E.failures err.old err.new (open_line name.now why))
        ⊎ ((result ≡ 3) × Tells E.written E.failures err.old err.new ToolFault.Memory) }
{
    match open_line(alloc, name, why) {
        Ok(line) => {
            tell(err, line.as_str().as_bytes());
            2
        }
        Err(_) => stop(ToolFault::Memory, err),
    }
}

/// What is said on the error stream of a file of several that has no verdict.
#[tactic(auto, unfolding(crate::specs::Files::named_fault))]
fn named_fault(alloc: Global, name: &str, why: ToolFault) -> Result<String, AllocError>
    ensures { IfOk result (λ line. string_bytes line ≡ named_fault name.now why) }
{
    let mut line = String::new(alloc);
    let text = why.text();
    let text = text.as_str();
    writeln!(line, "eve: {name}: {text}")?;
    Ok(line)
}

/// Says on `err` why a file of several has no verdict, and returns the exit status. What can't be said is lost.
fn stop_named<E: Sink>(alloc: Global, name: &str, why: ToolFault, err: &mut E) -> u8
    ensures status { result ≡ status_of why }
    ensures told { TellsLine E.written E.failures err.old err.new (named_fault name.now why)
        ⊎ Tells E.written E.failures err.old err.new why }
{
    match named_fault(alloc, name, why) {
        Ok(line) => {
            tell(err, line.as_str().as_bytes());
            why.status()
        }
        Err(_) => stop(why, err),
    }
}

/// What is printed of the verdict on a file of several, in this style.
fn named_text(
    alloc: Global,
    style: Style,
    name: &str,
    verdict: &Verdict,
) -> Result<Vec<u8>, AllocError>
    ensures { IfOk result (λ line. line.items ≡ named_text style name.now verdict.now) }
{
    match style {
        Style::Plain => {
            let mut line = String::new(alloc);
            write!(line, "{name}: ")?;
            push_verdict_line(&mut line, verdict)?;
            Ok(line.into_bytes())
        }
        Style::Json => verdict_object(alloc, Some(name), verdict),
    }
}

/// The line of a file of several, and the exit status.
fn judged<R: AllocGlobal + RandomSource + Threads + Wait + Sync, I: Source>(
    rt: &R,
    options: &AuditOptions,
    name: &str,
    input: &mut I,
) -> Result<(Vec<u8>, u8), ToolFault>
    ensures status { IfOk result (λ said. said.1 < 2) }
    ensures said { IfOk result (λ said. IfSome (I.remaining input.old)
        (λ bytes. AuditsAs (named_text options.now.style name.now) bytes said.0.items said.1)) }
    ensures stopped { IfErr result (StopsJudging (I.failures input.new ≡ after_failure (I.failures input.old))) }
    ensures read { IfErr result (λ why. why ≢ ToolFault.Read → I.failures input.new ≡ I.failures input.old) }
{
    let bytes = read_all(rt.alloc(), input, MOST_BYTES as u32)?;
    let verdict = verdict_on(rt, options.workers, bytes.as_slice())?;
    let line = named_text(rt.alloc(), options.style, name, &verdict)?;
    Ok((line, status_of(&verdict)))
}

/// Sends all that is held.
fn flush<O: Sink + Drop>(out: &mut Buffered<O>) -> Result<(), ToolFault>
    ensures kept { Appends (all_bytes O.written out.old) (all_bytes O.written out.new) [] }
    ensures empty { OnOk result (held_bytes out.new ≡ []) }
    ensures fine { OnOk result (all_failures O.failures out.new ≡ all_failures O.failures out.old) }
    ensures held { OnErr result (held_bytes out.new ≢ []) }
    ensures failed { OnErr result (all_failures O.failures out.new ≡ after_failure (all_failures O.failures out.old)) }
    ensures why { IfErr result (λ why. why ≡ ToolFault.Write) }
{
    out.flush()?;
    Ok(())
}

/// Sends a line, and then all that is held.
fn send_on<O: Sink + Drop>(line: &[u8], out: &mut Buffered<O>) -> Result<(), ToolFault>
    ensures sent { OnOk result (Appends (all_bytes O.written out.old) (all_bytes O.written out.new) line.now) }
    ensures empty { OnOk result (held_bytes out.new ≡ []) }
    ensures fine { OnOk result (all_failures O.failures out.new ≡ all_failures O.failures out.old) }
    ensures part { OnErr result ((count : ℕ)
        × Appends (all_bytes O.written out.old) (all_bytes O.written out.new) (take count line.now)) }
    ensures failed { OnErr result (all_failures O.failures out.new ≡ after_failure (all_failures O.failures out.old)) }
    ensures why { IfErr result (λ why. why ≡ ToolFault.Write) }
{
    send_all(out, line)?;
    flush(out)
}

/// Judges one file of several, and sends its line, or says on `err` why it has none. Returns its status.
fn audit_one<
    R: AllocGlobal + RandomSource + Threads + Wait + Sync,
    F: Folder,
    O: Sink + Drop,
    E: Sink,
>(
    rt: &R,
    options: &AuditOptions,
    name: &str,
    folder: &F,
    out: &mut Buffered<O>,
    err: &mut E,
) -> Result<u8, ToolFault>
    ensures said { IfOk result (λ status. (text : List ℕ)
        × JudgesFile F.Input.remaining F.Input.failures E.written E.failures (F.bytes folder.now)
        (F.refuses folder.now) options.now.style name.now err.old err.new text status
        × Appends (all_bytes O.written out.old) (all_bytes O.written out.new) text) }
    ensures empty { held_bytes out.old ≡ [] → OnOk result (held_bytes out.new ≡ []) }
    ensures fine { OnOk result (all_failures O.failures out.new ≡ all_failures O.failures out.old) }
    ensures part { OnErr result ((part : List ℕ)
        × BeginsNext (F.bytes folder.now) options.now.style (name.now ∷ []) part
        × Appends (all_bytes O.written out.old) (all_bytes O.written out.new) part) }
    ensures failed { OnErr result ((err.new ≡ err.old)
        × (all_failures O.failures out.new ≡ after_failure (all_failures O.failures out.old))) }
    ensures why { IfErr result (λ why. why ≡ ToolFault.Write) }
{
    let mut input = match folder.open(name) {
        Ok(input) => input,
        Err(why) => return Ok(stop_unopened(rt.alloc(), name, why, err)),
    };
    let (line, status) = match judged(rt, options, name, &mut input) {
        Ok(said) => said,
        Err(why) => return Ok(stop_named(rt.alloc(), name, why, err)),
    };
    send_on(line.as_slice(), out)?;
    Ok(status)
}

/// Judges the files of these names one after the other. Sends the line of each as soon as it is judged, and says on
/// `err` why a file has none. Returns the greatest of their statuses.
fn audit_files<
    R: AllocGlobal + RandomSource + Threads + Wait + Sync,
    F: Folder,
    O: Sink + Drop,
    E: Sink,
>(
    rt: &R,
    options: &AuditOptions,
    files: &[String],
    folder: &F,
    out: &mut Buffered<O>,
    err: &mut E,
) -> Result<u8, ToolFault>
    ensures said { IfOk result (JudgesAll F.Input.remaining F.Input.failures E.written E.failures O.written O.failures
        (F.bytes folder.now) (F.refuses folder.now) options.now.style (map string_bytes files.now) err.old err.new
        out.old out.new) }
    ensures status { IfOk result (λ status. status ≤ 3) }
    ensures stopped { OnErr result (FailsAmong F.Input.remaining F.Input.failures E.written E.failures O.written
        O.failures (F.bytes folder.now) (F.refuses folder.now) options.now.style (map string_bytes files.now) err.old
        err.new out.old out.new) }
    ensures why { IfErr result (λ why. why ≡ ToolFault.Write) }
{
    flush(out)?;
    let mut status: u8 = 0;
    'files: for file in files {
        let one = audit_one(rt, options, file.as_str(), folder, out, err)?;
        status = status.max(one);
    }
    Ok(status)
}

/// Sends on what was said and is still held, where the call came to its end with this status.
fn finish<O: Sink + Drop, E: Sink>(status: u8, out: &mut Buffered<O>, err: &mut E) -> u8
    ensures ended { 2 ≤ status → (result ≡ status) × (out.new ≡ out.old) × (err.new ≡ err.old) }
    ensures sent { status < 2 → result < 2 → (result ≡ status) × (held_bytes out.new ≡ []) × (err.new ≡ err.old)
        × (all_failures O.failures out.new ≡ all_failures O.failures out.old)
        × Appends (all_bytes O.written out.old) (all_bytes O.written out.new) [] }
    ensures failed { status < 2 → 2 ≤ result
        → HoldsBack E.written E.failures O.written O.failures err.old err.new out.old out.new result }
{
    if status >= 2 {
        return status;
    }
    match flush(out) {
        Ok(()) => status,
        Err(why) => stop(why, err),
    }
}

/// Serves the call over the file of this name, and sends on what was said.
fn serve_file<
    R: AllocGlobal + RandomSource + Threads + Wait + Sync,
    F: Folder,
    O: Sink + Drop,
    E: Sink,
>(rt: &R, call: Call, name: &str, folder: &F, out: &mut Buffered<O>, err: &mut E) -> u8
    ensures serves { ServesFile F.Input.remaining F.Input.failures E.written E.failures O.written O.failures
        (F.bytes folder.now) (F.refuses folder.now) (subcommand_of_call call) name.now err.old err.new out.old out.new
        result }
    ensures status { result ≤ 3 }
{
    let mut input = match folder.open(name) {
        Ok(input) => input,
        Err(why) => return stop_unopened(rt.alloc(), name, why, err),
    };
    let status = serve_call(rt, call, &mut input, out, err);
    finish(status, out, err)
}

/// How each file is audited, where the call is `audit` and there are several.
fn several(call: &Call, files: &[String]) -> Option<AuditOptions>
    ensures several { IfSome result (λ options. (2 ≤ length files.now)
        × (subcommand_of_call call.now ≡ Audit options.style)) }
    ensures none { IsNone result → (style : Style) → subcommand_of_call call.now ≡ Audit style
        → length files.now < 2 }
{
    match *call {
        Call::Audit(workers, style) => {
            if files.len() > 1 {
                Some(AuditOptions { workers, style })
            } else {
                None
            }
        }
        Call::Explain(_, _) | Call::Run(_, _) | Call::Show | Call::ShowLong(_) => None,
    }
}

/// The name of the first file, or of standard input where there is none.
fn first_name(files: &[String]) -> &str
    ensures { result.now ≡ first_named (map string_bytes files.now) }
{
    match files.first() {
        Some(file) => file.as_str(),
        None => "-",
    }
}

/// Serves the call over the files of these names, and sends on what was said.
fn serve_named<
    R: AllocGlobal + RandomSource + Threads + Wait + Sync,
    F: Folder,
    O: Sink + Drop,
    E: Sink,
>(rt: &R, call: Call, files: &[String], folder: &F, out: &mut Buffered<O>, err: &mut E) -> u8
    ensures serves { ServesCall F.Input.remaining F.Input.failures E.written E.failures O.written O.failures
        (F.bytes folder.now) (F.refuses folder.now) (subcommand_of_call call) (map string_bytes files.now) err.old
        err.new out.old out.new result }
    ensures status { result ≤ 3 }
{
    match several(&call, files) {
        Some(options) => match audit_files(rt, &options, files, folder, out, err) {
            Ok(status) => status,
            Err(why) => stop(why, err),
        },
        None => serve_file(rt, call, first_name(files), folder, out, err),
    }
}

/// Prints the help that was asked for, and sends it on.
fn print_help<O: Sink + Drop, E: Sink>(text: &str, out: &mut Buffered<O>, err: &mut E) -> u8
    ensures helped { result < 2 → (result ≡ 0) × (held_bytes out.new ≡ []) }
    ensures unhelped { 2 ≤ result → (result ≡ 3) × StopsHelp E.written E.failures (all_failures O.failures) err.old
        err.new out.old out.new result }
{
    let status = serve_help(text, out, err);
    finish(status, out, err)
}

/// Runs the program over the files that its arguments name, which lie in `folder`, as `serve` does over one input.
/// `audit` of several judges each, sends a line for each as soon as it is judged, and returns the greatest of their
/// statuses; what has no verdict is told on `err`, and the others go on. All that was said is sent on at the end.
///
/// docs/USING.md, "Lines and statuses", has each line and status.
pub fn serve_files<
    R: AllocGlobal + RandomSource + Threads + Wait + Sync,
    S: AsStr,
    F: Folder,
    O: Sink + Drop,
    E: Sink,
>(rt: &R, arguments: &[S], folder: &F, out: &mut Buffered<O>, err: &mut E) -> u8
    // A call over one file says what it says of the bytes of that file, or ends by a fault, which is told. `audit` of
    // several says of each what it says of its bytes, in the order in which they are named, or tells why it doesn't.
    ensures serves { (call : Subcommand) → Calls call (map S.text arguments.now)
        → ServesCall F.Input.remaining F.Input.failures E.written E.failures O.written O.failures
        (F.bytes folder.now) (F.refuses folder.now) call (files_of (map S.text arguments.now)) err.old err.new out.old
        out.new result ⊎ RunsOut E.written E.failures err.old err.new out.old out.new result }

    // A yes is said where each file spells a trace that is audited.
    ensures yes { (style : Style) → CallsAudit style (map S.text arguments.now) → result ≡ 0
        → AllSpellAudited (F.bytes folder.now) (files_of (map S.text arguments.now)) }
    ensures explained { (style : Style) → CallsExplain style (map S.text arguments.now) → (name : List ℕ)
        → files_of (map S.text arguments.now) ≡ name ∷ [] → result ≡ 0
        → IfSome (F.bytes folder.now name) SpellsAudited }

    // The arguments are no call.
    ensures helped { CallsNothing (map S.text arguments.now) → result ≡ 0
        → AsksForHelp (map S.text arguments.now) }
    ensures refused { CallsNothing (map S.text arguments.now) → result ≢ 1 }
    ensures wrong { CallsNothing (map S.text arguments.now) → result ≡ 2
        → IsRefused (map S.text arguments.now) × (out.new ≡ out.old) }
    ensures unhelped { CallsNothing (map S.text arguments.now) → result ≡ 3
        → StopsHelp E.written E.failures (all_failures O.failures) err.old err.new out.old out.new result }

    ensures empty { result < 2 → held_bytes out.new ≡ [] }
    ensures status { result ≤ 3 }
{
    match read_arguments(rt.alloc(), arguments) {
        Ok(Asked::Call(call, files)) => {
            serve_named(rt, call, files.as_slice(), folder, out, err)
        }
        Ok(Asked::Help(text)) => print_help(text.as_str(), out, err),
        Ok(Asked::Refused(text)) => refuse(text.as_str(), err),
        Err(_) => stop(ToolFault::Memory, err),
    }
}
