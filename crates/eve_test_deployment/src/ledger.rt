//! Sections of worked traces, replayed on ledgers: a case names a trace, a workload with its customers and batches, the
//! mixer that cuts these, and, if any, a change.
//!
//! What the access frames of an attempt say becomes records again, at ticks in the order of the certificate. The ledger
//! closes them, commits and rolls back as the steps say, and what it answers is compared, byte by byte, with the frames
//! of the trace. With a change the records of a section's first attempt are handed in with that change; where they are
//! refused, the ledger is compared with what it was, and then they are handed in as they are. After the steps the last
//! batch is committed once more, and all is rolled back.
//!
//! With `merkle` the ledger is of version 2: the token of an attempt is compared with one made from nothing, and after
//! each step the root with that of a new tree. With `taken-over` a second ledger goes along, which gets by a transfer
//! what the first has committed where that commits.

mod changing;
mod comparing;
mod framed;
mod meeting;
mod opening;
mod replaying;
mod taking;

use crate::ledger::opening::names_of;
use crate::ledger::replaying::{Asked, Case, has_its_batches, replay};
use eve_testing::Text;
use eve_views::{CheckFault, Trace};
use eve_workload::{Mixer, Workload, WorkloadFault};
use std::alloc::Global;
use std::fs;
use std::hash::RandomState;

/// The bytes of the file with this name and this ending; none where it can't be read.
fn file_of(rt: &HostRuntime, name: &str, ending: &str, said: &mut Text) -> Vec<u8> {
    let mut path = String::new(rt.alloc());
    said.stored(path.push_str(name));
    said.stored(path.push_str(ending));
    match fs::read(rt, path.as_str()) {
        Ok(bytes) => bytes,
        Err(why) => {
            said.fail(why);
            Vec::new(rt.alloc())
        }
    }
}

/// Replays what a case names.
fn replay_case(rt: &HostRuntime, keys: RandomState, case: &str, said: &mut Text) {
    let mut words = case.splitn(4, ' ');
    let trace = file_of(rt, words.next().unwrap_or(""), ".trace", said);
    let workload = file_of(rt, words.next().unwrap_or(""), ".in", said);
    let mixer = match words.next() {
        Some("first") => Mixer::First,
        _ => Mixer::Whole,
    };
    let asked = Asked {
        keys,
        mixer,
        changes: words.next().unwrap_or(""),
    };
    replay_files(
        rt.alloc(),
        asked,
        trace.as_slice(),
        workload.as_slice(),
        said,
    );
}

/// Replays the trace of these bytes, by the workload of this text.
fn replay_files(alloc: Global, asked: Asked, trace: &[u8], workload: &[u8], said: &mut Text) {
    let trace = match Trace::read(alloc, trace) {
        Ok(trace) => trace,
        Err(CheckFault::Memory) => return said.refused(),
        Err(CheckFault::Found(_)) => return said.words(" no trace"),
    };
    match Workload::read(alloc, workload, 1) {
        Ok(workload) => replay_all(alloc, asked, &trace, &workload, said),
        Err(WorkloadFault::Memory) => said.refused(),
        Err(WorkloadFault::Line(_)) => said.words(" no workload"),
    }
}

/// Replays all sections of the trace.
fn replay_all(alloc: Global, asked: Asked, trace: &Trace, workload: &Workload, said: &mut Text) {
    let names = names_of(alloc, workload.customers(), asked.keys, said);
    let case = Case {
        alloc,
        trace,
        workload,
        names: &names,
        mixer: asked.mixer,
        changes: asked.changes,
    };
    if !has_its_batches(&case, said) {
        said.words(" (other batches)");
    }
    for section in 0..trace.section_count() {
        replay(&case, section, said);
    }
}

/// Tells what came of a case, on its line.
pub fn tell(rt: &HostRuntime, case: &str, said: &mut Text) {
    said.words(case);
    said.words(":");
    match RandomState::new(rt) {
        Ok(keys) => replay_case(rt, keys, case, said),
        Err(why) => said.fail(why),
    }
    said.words("\n");
}
