//! Replicas and whole runs whose threads are held by gates. The line of a case says, of calls of a replica, what isn't
//! as it is due; of a run what each replica did and the verdict on its trace, or the verdict alone where what they did
//! hangs on the schedule. What is printed hangs on no schedule.

ghost use Rattle.std.specs.Prelude.{◌≤◌, IfOk};

mod cases;
mod gates;
mod misses;
mod replicas;
mod runs;
mod states;
mod taking;
mod world;

use crate::replica::cases::{Case, Doing, FREE_RUN, Running, case_of, format_of};
use crate::replica::replicas::{Setting, Want, first_miss};
use crate::replica::runs::{run_held, tell_sections, verdict_on};
use crate::replica::world::workload_of;
use eve_audit::Verdict;
use eve_grammar::NEWEST_VERSION;
use eve_replica::eve_workload::Workload;
use eve_testing::Text;
use eve_write::Parts;
use std::alloc::Global;
use std::fs::Files;
use std::random::RandomSource;
use std::sync::Wait;
use std::thread::Threads;
use std::{fs, io};

/// The workload of the file with this name, in a format, 1 or 2.
fn workload_in<R: AllocGlobal + Files>(rt: &R, file: &str, format: u16) -> io::Result<Workload>
    ensures { IfOk result (λ w. (1 ≤ w.format) × (w.format ≤ NEWEST_VERSION)) }
{
    let path = format!(in rt.alloc(); "{file}.in")?;
    let text = fs::read(rt, path.as_str());
    drop(path);
    workload_of(rt.alloc(), text?, format)
}

/// Tells what of the calls of replicas isn't as it is due.
fn tell_calls<R: AllocGlobal + Files + RandomSource + Threads + Wait + Sync>(
    rt: &R,
    setting: Setting,
    lists: &[&[Want]],
    workload: &Workload,
    line: &mut Text,
) {
    match fs::read(rt, "deposit-committed.trace") {
        Ok(trace) => {
            let miss = first_miss(rt, rt.alloc(), workload, setting, trace.as_slice(), lists);
            drop(trace);
            tell_miss(miss, line);
        }
        Err(why) => line.fail(why),
    }
}

fn tell_miss(miss: io::Result<Option<&'static str>>, line: &mut Text) {
    match miss {
        Ok(None) => line.words("as it is due"),
        Ok(Some(what)) => {
            line.words("wanted: ");
            line.words(what);
        }
        Err(why) => line.fail(why),
    }
}

/// Tells what a run came to: what each replica did, too, where that hangs on no schedule or the verdict isn't yes.
fn tell_run<R: RandomSource + Threads + Wait + Sync>(
    rt: &R,
    alloc: Global,
    running: Running,
    workload: &Workload,
    line: &mut Text,
)
    requires { (1 ≤ workload.now.format) × (workload.now.format ≤ NEWEST_VERSION) }
{
    match run_held(rt, alloc, workload, running.turns) {
        Ok(parts) => {
            match verdict_on(rt, alloc, &parts) {
                Ok(verdict) => tell_verdict(&parts, verdict, running, line),
                Err(why) => line.fail(why),
            }
            drop(parts);
        }
        Err(why) => line.fail(why),
    }
}

/// Tells the verdict, of a run in format 2 always with the numbers that a yes has: all replicas reach each batch there.
fn tell_verdict(parts: &Parts, verdict: Verdict, running: Running, line: &mut Text) {
    match verdict {
        Verdict::Yes(summary) if !running.has_sections => match running.format {
            1 => line.words("accepted"),
            _ => line.answer("accepted, ", summary),
        },
        _ => {
            tell_sections(parts, line);
            line.answer("", verdict);
        }
    }
}

/// Tells the case with this workload; a run of the workload where it is none that is listed.
fn tell_case<R: AllocGlobal + Files + RandomSource + Threads + Wait + Sync>(
    rt: &R,
    case: Option<&'static Case>,
    workload: &Workload,
    line: &mut Text,
)
    requires { (1 ≤ workload.now.format) × (workload.now.format ≤ NEWEST_VERSION) }
{
    match case {
        None => tell_run(rt, rt.alloc(), FREE_RUN, workload, line),
        Some(case) => match case.doing {
            Doing::Calls(setting, lists) => tell_calls(rt, setting, lists, workload, line),
            Doing::Run(running) => tell_run(rt, rt.alloc(), running, workload, line),
        },
    }
}

/// Tells the case with this name, on its line.
pub fn tell<R: AllocGlobal + Files + RandomSource + Threads + Wait + Sync>(
    rt: &R,
    name: &str,
    line: &mut Text,
) {
    line.words(name);
    line.words(": ");
    let case = case_of(name);
    let file = match case {
        Some(case) => case.file,
        None => name,
    };
    match workload_in(rt, file, format_of(case)) {
        Ok(workload) => {
            tell_case(rt, case, &workload, line);
            drop(workload);
        }
        Err(why) => line.fail(why),
    }
    line.words("\n");
}
