//! All that the libraries lend and find of a trace.

use crate::audits::keys;
use crate::frames::push_frames;
use crate::histories::{agreement, push_findings};
use crate::one_thread::push_run;
use eve_history::orders;
use eve_testing::Text;
use eve_views::{CheckFault, Fault, Trace};
use std::hash::RandomState;
use std::random::RandomSource;
use std::thread::Threads;

/// All of it, up to the first fault.
fn push_all<R: AllocGlobal + Threads + Sync>(
    text: &mut Text,
    rt: &R,
    bytes: &[u8],
    random: RandomState,
) -> Result<(), CheckFault> {
    let trace = Trace::read(rt.alloc(), bytes)?;
    push_frames(text, &trace);
    let names = orders(rt.alloc(), &trace, random)?;
    push_findings(text, rt, &trace, &names)?;
    push_run(text, rt.alloc(), &trace, &names);
    Ok(())
}

fn push_fault(text: &mut Text, fault: Fault) {
    text.words("\n ");
    text.words(fault.code.name());
    text.value(" of phase ", u64::from(fault.code.phase()));
    text.value(" at ", fault.offset);
}

/// The fault that was found, if any.
pub fn push_found(text: &mut Text, found: Result<(), CheckFault>) {
    match found {
        Ok(()) => {}
        Err(CheckFault::Found(fault)) => push_fault(text, fault),
        Err(CheckFault::Memory) => text.refused(),
    }
}

/// What the libraries lend and find of a trace.
pub fn push_told<R: AllocGlobal + RandomSource + Threads + Sync>(
    text: &mut Text,
    rt: &R,
    bytes: &[u8],
) {
    text.words("what is lent and found");
    if let Some(random) = keys(text, rt) {
        let found = push_all(text, rt, bytes, random);
        push_found(text, found);
    }
}

/// What two replicas come to together.
pub fn push_agreed<R: AllocGlobal + RandomSource + Threads + Sync>(
    text: &mut Text,
    rt: &R,
    bytes: &[u8],
) {
    text.words("two replicas");
    if let Some(random) = keys(text, rt) {
        let found = agreement(rt, bytes, random);
        push_found(text, found);
    }
}
