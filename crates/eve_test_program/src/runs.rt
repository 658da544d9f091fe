//! Workloads that are run.

use crate::bytes::Bytes;
use crate::calls::{Terms, said};
use crate::trials::{Trial, tried};
use crate::{file_of, first_word};
use std::fs::Files;
use std::random::RandomSource;
use std::sync::Wait;
use std::thread::Threads;

/// How a trace compares with the one that is wanted, where a run has one trace alone.
fn compared<R: AllocGlobal + Files>(rt: &R, name: &str, trace: &[u8]) -> &'static str {
    let Ok(wanted) = file_of(rt, name, ".trace") else {
        return "";
    };
    if wanted.as_slice() == trace {
        "the trace that is wanted, "
    } else {
        "another trace, "
    }
}

/// Tells what came of the audit of a trace.
fn tell_audit<R: AllocGlobal + RandomSource + Threads + Wait + Sync>(
    rt: &R,
    trace: &[u8],
    page: &mut Bytes,
) {
    let audited = said(rt, &["eve", "audit"], trace, Terms::fine());
    page.append(audited.out());
    drop(audited);
}

/// Tells what came of the run of a workload, behind what its line names, and of the audit of its trace.
pub(crate) fn tell_run<R: AllocGlobal + Files + RandomSource + Threads + Wait + Sync>(
    rt: &R,
    run: &Trial<'_>,
    page: &mut Bytes,
) {
    let (_, named) = first_word(run.line);
    page.words(named);
    let ran = tried(rt, run, 1);
    page.number(": ", u64::from(ran.status()));
    page.words(" ");
    page.append(ran.err());
    if ran.status() == 0 {
        page.words(compared(rt, run.file, ran.out()));
        tell_audit(rt, ran.out(), page);
    }
    drop(ran);
}
