//! What the rollbacks and the tokens of each replica come to, each phase by itself: where an audit would end at the
//! first fault.

ghost use Rattle.std.specs.Prelude.{◌≡◌, ◌<◌, length};
ghost use Rattle.eve_history.specs.SectionHistory.{names_of};

use crate::audits::keys;
use crate::findings::push_found;
use eve_accounts::Names;
use eve_agree::{rollbacks, tokens};
use eve_chains::check;
use eve_history::{History, orders};
use eve_testing::Text;
use eve_views::{CheckFault, Trace};
use std::hash::RandomState;
use std::random::RandomSource;
use std::thread::Threads;

/// Says of a phase whether it is right, or its fault.
fn push_phase(text: &mut Text, words: &str, found: Result<(), CheckFault>) {
    text.words(words);
    if found.is_ok() {
        text.words(" right");
    }
    push_found(text, found);
}

/// What a replica's rollbacks and tokens come to, where its records and chains are right.
fn push_replica<R: AllocGlobal + Threads + Sync>(
    text: &mut Text,
    rt: &R,
    trace: &Trace,
    names: &Names,
    e: u8,
) -> Result<(), CheckFault>
    requires there { e < length trace.now.sections }
    requires names { names.now.items ≡ names_of trace.now }
{
    let alloc = rt.alloc();
    let history = History::of(alloc, trace, e)?;
    let settled = check(rt, alloc, &history, trace, names, 1)?;
    text.value("\n replica ", e);
    let found = rollbacks(alloc, trace, &history, &settled);
    push_phase(text, ": rollbacks", found);
    let found = tokens(rt, alloc, trace, &history, &settled, 1);
    push_phase(text, ", tokens", found);
    Ok(())
}

/// The same of each replica, up to the first that has another fault.
fn push_replicas<R: AllocGlobal + Threads + Sync>(
    text: &mut Text,
    rt: &R,
    bytes: &[u8],
    random: RandomState,
) -> Result<(), CheckFault> {
    let trace = Trace::read(rt.alloc(), bytes)?;
    let names = orders(rt.alloc(), &trace, random)?;
    for e in 0..trace.section_count() {
        push_replica(text, rt, &trace, &names, e)?;
    }
    Ok(())
}

/// What the rollbacks and the tokens of each replica of a trace come to.
pub fn push_alone<R: AllocGlobal + RandomSource + Threads + Sync>(
    text: &mut Text,
    rt: &R,
    bytes: &[u8],
) {
    text.words("phases by themselves");
    if let Some(random) = keys(text, rt) {
        let found = push_replicas(text, rt, bytes, random);
        push_found(text, found);
    }
}
