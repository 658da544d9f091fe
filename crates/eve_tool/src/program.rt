//! The program over any streams.

ghost use Rattle.std.specs.Prelude.{◌≡◌, ◌≢◌, ◌+◌, ◌≤◌, ◌<◌, map, vec_len, IfOk, IfErr, IfSome, OnOk, Some};
ghost use Rattle.eve_audit.specs.Verdict.{SpellsAudited};
ghost use Rattle.eve_streams.specs.Failures.{after_failure};
ghost use Rattle.eve_tool.specs.Calls.{Calls, WasRead, Leaves, Stops, StopsHelp, Tells, TellsLine, CallSays};
ghost use Rattle.eve_tool.specs.Fault.{status_of};
ghost use Rattle.eve_tool_arguments.specs.Arguments.{AsksForHelp, AsksForVerdict, CallsNothing, CallsSome};
ghost use Rattle.eve_tool_arguments.specs.Arguments.{IsRefused, Subcommand, subcommand_of_call};
ghost use Rattle.eve_tool.specs.Words.{WordsAreCalls};
ghost use Rattle.eve_tool.specs.Writes.{WritesAll, WritesAllOf};

use crate::audit::{AuditOptions, audit};
use crate::explain::explain;
use crate::fault::ToolFault;
use crate::run::{RunOptions, run_bytes};
use crate::show::{show, show_long};
use eve_grammar::MOST_BYTES;
use eve_streams::{Sink, Source, read_all, send_all};
use eve_tool_arguments::{Asked, Call, read_arguments};
use std::convert::AsStr;
use std::random::RandomSource;
use std::sync::Wait;
use std::thread::Threads;

/// Says a line on the error stream. What can't be said is lost.
pub(crate) fn tell<E: Sink>(err: &mut E, line: &[u8])
    ensures { TellsLine E.written E.failures err.old err.new line.now }
{
    let _ = send_all(err, line);
}

/// Says on `err` why the program ends without an answer, and returns the exit status. What can't be said is lost.
pub fn stop<E: Sink>(fault: ToolFault, err: &mut E) -> u8
    ensures status { result ≡ status_of fault }
    ensures told { Tells E.written E.failures err.old err.new fault }
{
    tell(err, fault.line().as_str().as_bytes());
    fault.status()
}

/// Says on `err` why the arguments are no call, and returns the exit status.
pub(crate) fn refuse<E: Sink>(text: &str, err: &mut E) -> u8
    ensures { result ≡ 2 }
{
    tell(err, text.as_bytes());
    2
}

/// Answers the call about these bytes, and returns the exit status.
fn answer_bytes<R: AllocGlobal + RandomSource + Threads + Wait + Sync, O: Sink>(
    rt: &R,
    call: Call,
    mut bytes: Vec<u8>,
    out: &mut O,
) -> Result<u8, ToolFault>
    requires { vec_len bytes ≤ MOST_BYTES + 1 }
    ensures said { IfOk result (WritesAll (CallSays MOST_BYTES (subcommand_of_call call)) bytes.items
        (O.written out.old) (O.written out.new)) }
    ensures status { IfOk result (λ status. status < 2) }
    ensures fine { OnOk result (O.failures out.new ≡ O.failures out.old) }
    ensures left { IfErr result (Leaves MOST_BYTES O.written O.failures (subcommand_of_call call) (Some bytes.items) ⊥
        out.old out.new) }
    ensures wrote { IfErr result (λ why. why ≢ ToolFault.Write → O.failures out.new ≡ O.failures out.old) }
{
    match call {
        Call::Audit(workers, style) => {
            audit(rt, &AuditOptions { workers, style }, bytes.as_slice(), out)
        }
        Call::Explain(workers, style) => {
            explain(rt, &AuditOptions { workers, style }, bytes.as_slice(), out)
        }
        Call::Run(mixer, format) => {
            let options = RunOptions {
                mixer,
                format,
                limit: MOST_BYTES as u32,
            };
            run_bytes(rt, options, bytes, out)
        }
        Call::Show => show(rt.alloc(), bytes.as_slice(), out),
        Call::ShowLong(style) => show_long(rt.alloc(), style, bytes.as_mut_slice(), out),
    }
}

/// Reads the input, and answers the call about it. Returns the exit status. It reads at most one byte more than a trace
/// or a workload may have.
fn answer_call<R: AllocGlobal + RandomSource + Threads + Wait + Sync, I: Source, O: Sink>(
    rt: &R,
    call: Call,
    input: &mut I,
    out: &mut O,
) -> Result<u8, ToolFault>
    ensures said { IfOk result (WritesAllOf (CallSays MOST_BYTES (subcommand_of_call call)) (I.remaining input.old)
        (O.written out.old) (O.written out.new)) }
    ensures status { IfOk result (λ status. status < 2) }
    ensures fine { OnOk result ((I.failures input.new ≡ I.failures input.old)
        × (O.failures out.new ≡ O.failures out.old)) }
    ensures left { IfErr result (Leaves MOST_BYTES O.written O.failures (subcommand_of_call call)
        (I.remaining input.old) (I.failures input.new ≡ after_failure (I.failures input.old)) out.old out.new) }
    ensures read { IfErr result (λ why. why ≢ ToolFault.Read → I.failures input.new ≡ I.failures input.old) }
    ensures ended { IfErr result (λ why. why ≢ ToolFault.Read → why ≢ ToolFault.Memory
        → WasRead MOST_BYTES (I.remaining input.old) (I.remaining input.new)) }
    ensures consumed { OnOk result (WasRead MOST_BYTES (I.remaining input.old) (I.remaining input.new)) }
    ensures wrote { IfErr result (λ why. why ≢ ToolFault.Write → O.failures out.new ≡ O.failures out.old) }
{
    let bytes = read_all(rt.alloc(), input, MOST_BYTES as u32)?;
    answer_bytes(rt, call, bytes, out)
}

/// Answers the call about this input, or says on `err` why it doesn't. Returns the exit status.
pub(crate) fn serve_call<
    R: AllocGlobal + RandomSource + Threads + Wait + Sync,
    I: Source,
    O: Sink,
    E: Sink,
>(rt: &R, call: Call, input: &mut I, out: &mut O, err: &mut E) -> u8
    ensures said { result < 2 → WritesAllOf (CallSays MOST_BYTES (subcommand_of_call call)) (I.remaining input.old)
        (O.written out.old) (O.written out.new) result }
    ensures fine { result < 2 → (I.failures input.new ≡ I.failures input.old)
        × (O.failures out.new ≡ O.failures out.old) × (err.new ≡ err.old) }
    ensures consumed { result < 2 → WasRead MOST_BYTES (I.remaining input.old) (I.remaining input.new) }
    ensures stopped { 2 ≤ result → Stops E.written E.failures O.written O.failures (subcommand_of_call call)
        (I.remaining input.old) (I.failures input.new ≡ after_failure (I.failures input.old))
        (I.failures input.new ≡ I.failures input.old)
        (WasRead MOST_BYTES (I.remaining input.old) (I.remaining input.new)) err.old err.new out.old out.new result }
    ensures status { result ≤ 3 }
    ensures silent { result ≡ 2 → out.new ≡ out.old }
{
    match answer_call(rt, call, input, out) {
        Ok(status) => status,
        Err(why) => stop(why, err),
    }
}

/// Prints the help that was asked for, or says on `err` why it can't. Returns the exit status.
pub(crate) fn serve_help<O: Sink, E: Sink>(text: &str, out: &mut O, err: &mut E) -> u8
    ensures heard { result < 2 → (result ≡ 0) × (O.failures out.new ≡ O.failures out.old) × (err.new ≡ err.old) }
    ensures unhelped { 2 ≤ result → (result ≡ 3)
        × StopsHelp E.written E.failures O.failures err.old err.new out.old out.new result }
{
    match send_all(out, text.as_bytes()) {
        Ok(()) => 0,
        Err(_) => stop(ToolFault::Write, err),
    }
}

/// Runs the program: does what the arguments of the command line ask for, the first of which is the program's name, and
/// returns the exit status. Memory, the random words and the threads of `audit`, `explain` and `run` come from `rt`;
/// random words are asked for once the input is read. The number of workers changes nothing of what is said. It returns
/// where the threads that it started do.
///
/// docs/USING.md, "Lines and statuses", has each line and status.
pub fn serve<
    R: AllocGlobal + RandomSource + Threads + Wait + Sync,
    S: AsStr,
    I: Source,
    O: Sink,
    E: Sink,
>(rt: &R, arguments: &[S], input: &mut I, out: &mut O, err: &mut E) -> u8
    // Which words are calls and ask for help, how many workers they ask for, and which format.
    ensures calls { WordsAreCalls }

    // A call that ends well: all is said, on `out`, nothing failed, and the input was read. A yes of `audit` or
    // `explain` is said of bytes alone that spell a trace that is audited.
    ensures said { (call : Subcommand) → Calls call (map S.text arguments.now) → result < 2
        → WritesAllOf (CallSays MOST_BYTES call) (I.remaining input.old) (O.written out.old) (O.written out.new)
        result }
    ensures fine { CallsSome (map S.text arguments.now) → result < 2
        → (I.failures input.new ≡ I.failures input.old)
        × (O.failures out.new ≡ O.failures out.old) × (err.new ≡ err.old) }
    ensures consumed { CallsSome (map S.text arguments.now) → result < 2
        → WasRead MOST_BYTES (I.remaining input.old) (I.remaining input.new) }
    ensures yes { AsksForVerdict (map S.text arguments.now) → result ≡ 0
        → IfSome (I.remaining input.old) SpellsAudited }

    // A call that ends by a fault: which one, what was left, and its line on `err`.
    ensures stopped { (call : Subcommand) → Calls call (map S.text arguments.now) → 2 ≤ result
        → Stops E.written E.failures O.written O.failures call (I.remaining input.old)
        (I.failures input.new ≡ after_failure (I.failures input.old)) (I.failures input.new ≡ I.failures input.old)
        (WasRead MOST_BYTES (I.remaining input.old) (I.remaining input.new)) err.old err.new out.old out.new result }

    // The arguments are no call.
    ensures unread { CallsNothing (map S.text arguments.now) → input.new ≡ input.old }
    ensures helped { CallsNothing (map S.text arguments.now) → result ≡ 0
        → AsksForHelp (map S.text arguments.now) }
    ensures heard { CallsNothing (map S.text arguments.now) → result ≡ 0
        → (O.failures out.new ≡ O.failures out.old) × (err.new ≡ err.old) }
    ensures refused { CallsNothing (map S.text arguments.now) → result ≢ 1 }
    ensures wrong { CallsNothing (map S.text arguments.now) → result ≡ 2
        → IsRefused (map S.text arguments.now) }
    ensures unhelped { CallsNothing (map S.text arguments.now) → result ≡ 3
        → StopsHelp E.written E.failures O.failures err.old err.new out.old out.new result }

    ensures status { result ≤ 3 }
    ensures silent { result ≡ 2 → out.new ≡ out.old }
{
    match read_arguments(rt.alloc(), arguments) {
        Ok(Asked::Call(call, files)) => {
            drop(files);
            serve_call(rt, call, input, out, err)
        }
        Ok(Asked::Help(text)) => serve_help(text.as_str(), out, err),
        Ok(Asked::Refused(text)) => refuse(text.as_str(), err),
        Err(_) => stop(ToolFault::Memory, err),
    }
}
