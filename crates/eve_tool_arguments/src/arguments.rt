//! What the arguments of a command line ask for.

ghost use Rattle.std.specs.Prelude.{◌≡◌, ℕ, Option, false, IfOk, IfSome, Some, map, option_and_then};
ghost use Rattle.std.specs.Prelude.{option_map, pos};
ghost use Rattle.std.specs.String.{string_bytes};
ghost use Rattle.clap.specs.Words.{app_of, found_of, kind_of, rule_of, shape_of, subcommand_rows_of};
ghost use Rattle.clap.specs.Walk.{rows_of};
ghost use Rattle.eve_tool_arguments.specs.Arguments.{Answers, HasWorkers, SaysOf, audit, audit_options, eve};
ghost use Rattle.eve_tool_arguments.specs.Arguments.{explain, explain_options, show_options};
ghost use Rattle.eve_tool_arguments.specs.Arguments.{file, files, files_behind, format, format_in, is_long, is_set};
ghost use Rattle.eve_tool_arguments.specs.Arguments.{json, listing, long, mixer, mixer_in};
ghost use Rattle.eve_tool_arguments.specs.Arguments.{program, run_in, run_options, run_shape, show, style_in};
ghost use Rattle.eve_tool_arguments.specs.Arguments.{subcommand_named};
ghost use Rattle.eve_tool_arguments.specs.Arguments.{subcommand_of_call, workers, workers_behind, workers_in};

use crate::format::Format;
use crate::style::Style;
use clap::builder::ValueParser;
use clap::error::ErrorKind;
use clap::{Arg, ArgAction, ArgMatches, Command, Error, value_parser};
use eve_grammar::{MOST_AUDIT_WORKERS, WorkerCount};
use eve_workload::Mixer;
use std::alloc::{AllocError, Global};
use std::convert::AsStr;

/// A call of the program, one for each subcommand.
#[derive(Clone, Copy)]
pub enum Call {
    /// Prints the verdict on each trace, found by this many workers, in this style.
    Audit(WorkerCount, Style),
    /// Prints the verdict on a trace, found by this many workers, and why it is so, in this style.
    Explain(WorkerCount, Style),
    /// Runs a workload of this format, whose batches this mixer cuts, and prints the trace.
    Run(Mixer, Format),
    /// Prints the frames of a trace.
    Show,
    /// Prints the frames of a trace with their fields, in this style.
    ShowLong(Style),
}

/// What the arguments of a command line come to.
#[derive(Drop)]
pub enum Asked {
    /// They are a call over the files of these names, of which `-` is standard input.
    Call(Call, Vec<String>),
    /// They ask for help, or for the version, which is this text.
    Help(String),
    /// They are no call, and this text says why.
    Refused(String),
}

/// The version, and what it reads.
const VERSION: &str = "2.0.0, traces of versions 1 and 2";

/// What is said where another mixer is named.
const NO_MIXER: &str =
    "error: invalid value for '--mixer <MIXER>': it has to be 'first' or 'whole'\n\n\
    For more information, try '--help'.\n";

/// What is said where another format is named.
const NO_FORMAT: &str = "error: invalid value for '--format <FORMAT>': it has to be '1' or '2'\n\n\
    For more information, try '--help'.\n";

/// What is said where the number of workers isn't one from 1 to 16.
const NO_WORKERS: &str =
    "error: invalid value for '--workers <N>': it has to be a number from 1 to 16\n\n\
    For more information, try '--help'.\n";

const EXAMPLES: &str = "Statuses:\n\
    \x20 0  yes, or done\n\
    \x20 1  no: there is a fault\n\
    \x20 2  what was given can't be used: arguments, input, a workload\n\
    \x20 3  this machine failed: memory, output, random words, a run\n\n\
    Examples:\n\
    \x20 eve audit examples/deposit-committed.trace\n\
    \x20 eve run examples/two-deposits.workload | eve audit\n\
    \x20 eve explain examples/two-deposits-in-frame-order.trace\n\
    \x20 eve show --long examples/rollback-and-serial-rerun.trace";

const AUDIT_EXAMPLES: &str = "Of several files each has a line, which begins with its name.\n\n\
    Statuses: of several files the greatest\n\
    \x20 0  yes\n\
    \x20 1  no\n\
    \x20 2  wrong arguments, or a file can't be opened or read\n\
    \x20 3  no memory, no random words, or the output can't be written\n\n\
    Examples:\n\
    \x20 eve audit examples/deposit-committed.trace\n\
    \x20 eve audit --workers 2 < examples/two-orders-agree.trace\n\
    \x20 eve audit examples/*.trace\n\
    \x20 eve audit --json examples/*.trace";

const EXPLAIN_EXAMPLES: &str = "Statuses:\n\
    \x20 0  yes\n\
    \x20 1  no\n\
    \x20 2  wrong arguments, or the file can't be opened or read\n\
    \x20 3  no memory, no random words, or the output can't be written\n\n\
    Examples:\n\
    \x20 eve explain examples/two-deposits-in-frame-order.trace\n\
    \x20 eve explain --workers 2 < examples/two-orders-agree.trace\n\
    \x20 eve explain --json examples/two-deposits-in-frame-order.trace";

const RUN_EXAMPLES: &str = "Statuses:\n\
    \x20 0  the trace is written\n\
    \x20 2  wrong arguments, a bad workload, or the file can't be opened or read\n\
    \x20 3  no memory, no random words, a broken run, or the output can't be written\n\n\
    Examples:\n\
    \x20 eve run examples/two-deposits.workload > run.trace\n\
    \x20 eve run --format 2 --mixer whole examples/two-deposits.workload > w.trace";

const SHOW_EXAMPLES: &str = "Statuses:\n\
    \x20 0  all frames are listed\n\
    \x20 1  it is no trace: the last line is the first fault of form\n\
    \x20 2  wrong arguments, or the file can't be opened or read\n\
    \x20 3  no memory, or the output can't be written\n\n\
    Examples:\n\
    \x20 eve show < examples/empty-run.trace\n\
    \x20 eve show --long examples/rollback-and-serial-rerun.trace\n\
    \x20 eve show --json examples/rollback-and-serial-rerun.trace";

/// The numbers of workers that may be named.
fn worker_counts<'a>() -> ValueParser<'a>
    ensures { result ≡ ValueParser.Signed (pos 1) (pos MOST_AUDIT_WORKERS) }
{
    value_parser!(u8).range(1..=MOST_AUDIT_WORKERS as i64)
}

/// How many workers audit.
fn workers_argument<'a>(alloc: Global) -> Arg<'a>
    ensures rule { rule_of result ≡ workers }
    ensures local { result.global ≡ false }
{
    Arg::new(alloc, "workers")
        .long("workers")
        .value_name("N")
        .help("How many threads judge, 1 to 16")
        .default_value("1")
        .value_parser(worker_counts())
}

/// Which mixer cuts the batches of a workload.
fn mixer_argument<'a>(alloc: Global) -> Arg<'a>
    ensures rule { rule_of result ≡ mixer }
    ensures local { result.global ≡ false }
{
    Arg::new(alloc, "mixer")
        .long("mixer")
        .value_name("MIXER")
        .help("How to cut batches: 'first' or 'whole'")
        .default_value("first")
}

/// Which format the trace has.
fn format_argument<'a>(alloc: Global) -> Arg<'a>
    ensures rule { rule_of result ≡ format }
    ensures local { result.global ≡ false }
{
    Arg::new(alloc, "format")
        .long("format")
        .value_name("FORMAT")
        .help("The format of the trace: '1' or '2'")
        .default_value("1")
}

/// Whether the fields of each frame are listed.
fn long_argument<'a>(alloc: Global) -> Arg<'a>
    ensures rule { rule_of result ≡ long }
    ensures local { result.global ≡ false }
{
    Arg::new(alloc, "long")
        .long("long")
        .help("Prints what each frame says, too")
        .action(ArgAction::SetTrue)
}

/// Whether JSON is printed.
fn json_argument<'a>(alloc: Global) -> Arg<'a>
    ensures rule { rule_of result ≡ json }
    ensures local { result.global ≡ false }
{
    Arg::new(alloc, "json")
        .long("json")
        .help("Prints JSON, an object a line")
        .action(ArgAction::SetTrue)
}

/// Which file is read.
fn file_argument<'a>(alloc: Global) -> Arg<'a>
    ensures rule { rule_of result ≡ file }
    ensures local { result.global ≡ false }
{
    Arg::new(alloc, "file")
        .value_name("FILE")
        .help("What is read; '-' is standard input")
        .default_value("-")
}

/// Which files are read, one after the other.
fn files_argument<'a>(alloc: Global) -> Arg<'a>
    ensures rule { rule_of result ≡ files }
    ensures local { result.global ≡ false }
{
    file_argument(alloc).action(ArgAction::Append)
}

/// The subcommand that audits, with no files yet.
fn audit_options<'a>(alloc: Global) -> Result<Command<'a>, AllocError>
    ensures { IfOk result (λ c. app_of c ≡ audit_options) }
{
    let Ok(command) = Command::new(alloc, "audit")
        .about("Prints the verdict on each trace: yes, or the first fault")
        .after_help(AUDIT_EXAMPLES)
        .arg(workers_argument(alloc))
    else {
        return Err(AllocError);
    };
    command.arg(json_argument(alloc))
}

/// The subcommand that audits.
fn audit_command<'a>(alloc: Global) -> Result<Command<'a>, AllocError>
    ensures { IfOk result (λ c. shape_of c ≡ audit) }
{
    let Ok(command) = audit_options(alloc) else {
        return Err(AllocError);
    };
    command.arg(files_argument(alloc))
}

/// The subcommand that audits and says why, with no file yet.
fn explain_options<'a>(alloc: Global) -> Result<Command<'a>, AllocError>
    ensures { IfOk result (λ c. app_of c ≡ explain_options) }
{
    let Ok(command) = Command::new(alloc, "explain")
        .about("Prints the verdict on a trace, and why it is so")
        .after_help(EXPLAIN_EXAMPLES)
        .arg(workers_argument(alloc))
    else {
        return Err(AllocError);
    };
    command.arg(json_argument(alloc))
}

/// The subcommand that audits, and says why.
fn explain_command<'a>(alloc: Global) -> Result<Command<'a>, AllocError>
    ensures { IfOk result (λ c. shape_of c ≡ explain) }
{
    let Ok(command) = explain_options(alloc) else {
        return Err(AllocError);
    };
    command.arg(file_argument(alloc))
}

/// The subcommand that runs a workload, with no file yet.
fn run_options<'a>(alloc: Global) -> Result<Command<'a>, AllocError>
    ensures { IfOk result (λ c. app_of c ≡ run_options) }
{
    let Ok(command) = Command::new(alloc, "run")
        .about("Runs a workload on replicas, and prints the trace of the run")
        .after_help(RUN_EXAMPLES)
        .arg(mixer_argument(alloc))
    else {
        return Err(AllocError);
    };
    command.arg(format_argument(alloc))
}

/// The subcommand that runs a workload.
fn run_command<'a>(alloc: Global) -> Result<Command<'a>, AllocError>
    ensures { IfOk result (λ c. shape_of c ≡ run_shape) }
{
    let Ok(command) = run_options(alloc) else {
        return Err(AllocError);
    };
    command.arg(file_argument(alloc))
}

/// The subcommand that prints the frames of a trace, with no file yet.
fn show_options<'a>(alloc: Global) -> Result<Command<'a>, AllocError>
    ensures { IfOk result (λ c. app_of c ≡ show_options) }
{
    let Ok(command) = Command::new(alloc, "show")
        .about("Prints the frames of a trace, a line for each")
        .after_help(SHOW_EXAMPLES)
        .arg(long_argument(alloc))
    else {
        return Err(AllocError);
    };
    command.arg(json_argument(alloc))
}

/// The subcommand that prints the frames of a trace.
fn show_command<'a>(alloc: Global) -> Result<Command<'a>, AllocError>
    ensures { IfOk result (λ c. shape_of c ≡ show) }
{
    let Ok(command) = show_options(alloc) else {
        return Err(AllocError);
    };
    command.arg(file_argument(alloc))
}

/// The program, which wants a subcommand, and has none yet.
fn program<'a>(alloc: Global) -> Command<'a>
    ensures { app_of result ≡ program }
{
    Command::new(alloc, "eve")
        .version(VERSION)
        .about("Records runs of replicated SmallBank servers, and audits their traces")
        .after_help(EXAMPLES)
        .subcommand_required(true)
}

/// The command line of the program.
fn command<'a>(alloc: Global) -> Result<Command<'a>, AllocError>
    ensures { IfOk result (λ c. app_of c ≡ eve) }
{
    let Ok(audit) = audit_command(alloc) else {
        return Err(AllocError);
    };
    let Ok(audits) = program(alloc).subcommand(audit) else {
        return Err(AllocError);
    };
    let Ok(explain) = explain_command(alloc) else {
        return Err(AllocError);
    };
    let Ok(explains) = audits.subcommand(explain) else {
        return Err(AllocError);
    };
    let Ok(run) = run_command(alloc) else {
        return Err(AllocError);
    };
    let Ok(runs) = explains.subcommand(run) else {
        return Err(AllocError);
    };
    let Ok(show) = show_command(alloc) else {
        return Err(AllocError);
    };
    runs.subcommand(show)
}

/// How many workers were named.
fn workers_of(found: &ArgMatches<'_>) -> WorkerCount
    ensures { result ≡ workers_in (rows_of (found_of found.now)) }
{
    let named = match found.get_str("workers") {
        Some(text) => text.parse::<u8>().unwrap_or(0),
        None => 0,
    };
    WorkerCount::nearest(named)
}

/// The mixer that was named.
fn mixer_of(found: &ArgMatches<'_>) -> Option<Mixer>
    ensures { result ≡ mixer_in (rows_of (found_of found.now)) }
{
    match found.get_str("mixer") {
        Some(name) => Mixer::named(name),
        None => None,
    }
}

/// The format that was named.
fn format_of(found: &ArgMatches<'_>) -> Option<Format>
    ensures { result ≡ format_in (rows_of (found_of found.now)) }
{
    match found.get_str("format") {
        Some(name) => Format::named(name),
        None => None,
    }
}

/// Whether the option of this name was given, which takes no value.
fn is_set(found: &ArgMatches<'_>, name: &str) -> bool
    ensures { result ≡ is_set name.now (rows_of (found_of found.now)) }
{
    match found.get_str(name) {
        Some(text) => text == "true",
        None => false,
    }
}

/// The style that was asked for.
fn style_of(found: &ArgMatches<'_>) -> Style
    ensures { result ≡ style_in (rows_of (found_of found.now)) }
{
    if is_set(found, "json") {
        Style::Json
    } else {
        Style::Plain
    }
}

/// The call `show`, with the fields of each frame or without: JSON has them.
fn show_of(found: &ArgMatches<'_>) -> Call
    ensures call { subcommand_of_call result
        ≡ listing (is_long (rows_of (found_of found.now))) (style_in (rows_of (found_of found.now))) }
    ensures workers { (n : Option ℕ) → HasWorkers n result }
{
    match style_of(found) {
        Style::Json => Call::ShowLong(Style::Json),
        Style::Plain => {
            if is_set(found, "long") {
                Call::ShowLong(Style::Plain)
            } else {
                Call::Show
            }
        }
    }
}

/// The call `run`, with the mixer and the format that were named.
fn run_of(found: &ArgMatches<'_>) -> Option<Call>
    ensures call { option_map subcommand_of_call result ≡ run_in (rows_of (found_of found.now)) }
    ensures workers { (n : Option ℕ) → IfSome result (HasWorkers n) }
{
    let mixer = mixer_of(found)?;
    let format = format_of(found)?;
    Some(Call::Run(mixer, format))
}

/// Copies of names.
fn copies_of(alloc: Global, names: &[&str]) -> Result<Vec<String>, AllocError>
    ensures { IfOk result (λ copies. map string_bytes copies.items ≡ map (λ s. s.now) names.now) }
{
    let mut copies = Vec::new(alloc);
    'names: for name in names {
        let copy = String::from_str(alloc, name)?;
        copies.push(copy)?;
    }
    Ok(copies)
}

/// The files that were named.
fn files_in(alloc: Global, matches: &ArgMatches<'_>) -> Result<Vec<String>, AllocError>
    ensures { IfOk result (λ copies. map string_bytes copies.items ≡ files_behind (subcommand_rows_of matches.now)) }
{
    match matches.subcommand() {
        Some((_, found)) => match found.get_strs("file") {
            Some(names) => copies_of(alloc, names),
            None => Ok(Vec::new(alloc)),
        },
        None => Ok(Vec::new(alloc)),
    }
}

/// The call of the subcommand that was met.
fn call_in(matches: &ArgMatches<'_>) -> Option<Call>
    ensures call { option_map subcommand_of_call result
        ≡ option_and_then subcommand_named (subcommand_rows_of matches.now) }
    ensures workers { IfSome result (HasWorkers (workers_behind (subcommand_rows_of matches.now))) }
{
    match matches.subcommand() {
        Some((name, found)) => call_named(name, found),
        None => None,
    }
}

/// The call of this name, where this was found behind it.
fn call_named(name: &str, found: &ArgMatches<'_>) -> Option<Call>
    ensures call { option_map subcommand_of_call result ≡ subcommand_named (name.now, rows_of (found_of found.now)) }
    ensures workers { IfSome result (HasWorkers (Some (workers_in (rows_of (found_of found.now))))) }
{
    match name {
        "audit" => Some(Call::Audit(workers_of(found), style_of(found))),
        "explain" => Some(Call::Explain(workers_of(found), style_of(found))),
        "run" => run_of(found),
        "show" => Some(show_of(found)),
        _ => None,
    }
}

/// What is said where these matches are no call: which argument of `run` names nothing that is there.
fn unknown_in(matches: &ArgMatches<'_>) -> &'static str {
    match matches.subcommand() {
        Some((_, found)) => {
            if mixer_of(found).is_some() {
                NO_FORMAT
            } else {
                NO_MIXER
            }
        }
        None => NO_MIXER,
    }
}

/// What clap returns where there are no matches.
fn answer_of(alloc: Global, error: &Error) -> Result<Asked, AllocError>
    ensures { IfOk result (SaysOf (kind_of error.now)) }
{
    match error.kind() {
        ErrorKind::OutOfMemory => Err(AllocError),
        ErrorKind::DisplayHelp | ErrorKind::DisplayVersion => {
            Ok(Asked::Help(error.to_string(alloc)?))
        }
        ErrorKind::ValueValidation => Ok(Asked::Refused(String::from_str(alloc, NO_WORKERS)?)),
        _ => Ok(Asked::Refused(error.to_string(alloc)?)),
    }
}

/// Reads the arguments of a command line. The first is the program's name.
pub fn read_arguments<S: AsStr>(alloc: Global, arguments: &[S]) -> Result<Asked, AllocError>
    ensures { IfOk result (Answers (map S.text arguments.now)) }
{
    let command = command(alloc)?;
    match command.try_get_matches_from(arguments) {
        Ok(matches) => match call_in(&matches) {
            Some(call) => Ok(Asked::Call(call, files_in(alloc, &matches)?)),
            None => Ok(Asked::Refused(String::from_str(alloc, unknown_in(&matches))?)),
        },
        Err(error) => answer_of(alloc, &error),
    }
}
