//! What `check` and its `Settled` come to, beside what a walk along the section comes to.

ghost use Rattle.std.specs.Prelude.{◌≡◌, ◌≤◌, ◌<◌, length};
ghost use Rattle.eve_history.specs.SectionHistory.{names_of, section_history};

use crate::audits::keys;
use crate::draws::{draw, histories};
use crate::one_thread::opening_of;
use crate::texts::Missing;
use crate::walk::Walk;
use eve_accounts::{Balances, Names};
use eve_chains::{Settled, check};
use eve_history::{History, orders};
use eve_testing::{Draws, Text};
use eve_views::{CheckFault, Fault, Trace};
use std::alloc::Global;
use std::hash::RandomState;
use std::random::RandomSource;
use std::thread::Threads;

/// How sections were judged.
#[derive(Clone, Copy)]
struct Judged {
    /// How many have no fault.
    right: u64,
    /// How many have a fault.
    wrong: u64,
    /// How many were judged in one way by the walk, and in another way otherwise.
    apart: u64,
}

impl Judged {
    fn none() -> Judged {
        Judged {
            right: 0,
            wrong: 0,
            apart: 0,
        }
    }

    fn count(&mut self, first: Option<Fault>, alike: bool) {
        if first.is_none() {
            self.right = self.right.saturating_add(1);
        } else {
            self.wrong = self.wrong.saturating_add(1);
        }
        if !alike {
            self.apart = self.apart.saturating_add(1);
        }
    }

    fn push(self, text: &mut Text) {
        text.value("", self.right);
        text.value(" right, ", self.wrong);
        text.value(" wrong, ", self.apart);
        text.words(" judged otherwise");
    }

    /// The same of drawn traces, of which only that many have faults is known beforehand.
    fn push_drawn(self, text: &mut Text, count: u32) {
        text.value("more than half wrong ", self.wrong > u64::from(count / 2));
        text.value(", ", self.apart);
        text.words(" judged otherwise");
    }
}

/// Whether the balances after n batches are those of the walk, at once and from those after the batch before.
fn has_balances(text: &mut Text, alloc: Global, settled: &Settled, walk: &Walk, n: u32) -> bool
    requires { n ≤ length settled.now.numbers }
{
    let Ok(balances) = settled.balances_after(alloc, n) else {
        text.refused();
        return false;
    };
    if n == 0 {
        return walk.has_balances(0, &balances);
    }
    let Ok(mut advanced) = settled.balances_after(alloc, n - 1) else {
        text.refused();
        return false;
    };
    settled.advance(n, &mut advanced);
    walk.has_balances(n as usize, &balances) && walk.has_balances(n as usize, &advanced)
}

/// Whether all balances are those of the walk.
fn has_all_balances(text: &mut Text, alloc: Global, settled: &Settled, walk: &Walk) -> bool {
    let mut all = settled.committed() as usize == walk.committed();
    for n in 0..=settled.committed() {
        all = all & has_balances(text, alloc, settled, walk, n);
    }
    all
}

/// Whether `check`, with `jobs` jobs, answers as the walk does, with its balances where all is right.
fn is_checked<R: AllocGlobal + Threads + Sync>(
    text: &mut Text,
    rt: &R,
    trace: &Trace,
    history: &History,
    names: &Names,
    walk: &Walk,
    jobs: u8,
) -> bool
    requires history { history.now ≡ section_history trace.now history.now.replica }
    requires names { names.now.items ≡ names_of trace.now }
    requires jobs { 1 ≤ jobs }
{
    match check(rt, rt.alloc(), history, trace, names, jobs) {
        Ok(settled) => {
            walk.first().is_none() & has_all_balances(text, rt.alloc(), &settled, walk)
        }
        Err(CheckFault::Found(fault)) => walk.first() == Some(fault),
        Err(CheckFault::Memory) => {
            text.refused();
            false
        }
    }
}

/// Whether `check`, with one job and with more, comes to what the walk comes to.
fn is_alike<R: AllocGlobal + Threads + Sync>(
    text: &mut Text,
    rt: &R,
    trace: &Trace,
    history: &History,
    names: &Names,
    walk: &Walk,
) -> bool
    requires history { history.now ≡ section_history trace.now history.now.replica }
    requires names { names.now.items ≡ names_of trace.now }
{
    let mut alike = true;
    for jobs in [1u8, 2, 3, 8] {
        alike = alike & is_checked(text, rt, trace, history, names, walk, jobs);
    }
    alike
}

/// Judges a replica's section in both ways, from the balances at the opening, where its structure is right.
fn judge_section<R: AllocGlobal + Threads + Sync>(
    text: &mut Text,
    rt: &R,
    trace: &Trace,
    names: &Names,
    opening: &Balances,
    e: u8,
    judged: &mut Judged,
)
    requires there { e < length trace.now.sections }
    requires names { names.now.items ≡ names_of trace.now }
{
    let Ok(history) = History::of(rt.alloc(), trace, e) else {
        return;
    };
    let walk = Walk::along(rt.alloc(), trace, &history, names, opening);
    if !walk.is_whole() {
        text.refused();
    }
    let alike = is_alike(text, rt, trace, &history, names, &walk);
    judged.count(walk.first(), alike);
}

/// Judges all sections of a trace in both ways, where its orders are right.
fn judge_sections<R: AllocGlobal + Threads + Sync>(
    text: &mut Text,
    rt: &R,
    trace: &Trace,
    keys: RandomState,
    judged: &mut Judged,
) {
    let Ok(names) = orders(rt.alloc(), trace, keys) else {
        return;
    };
    let Some(opening) = text.made(opening_of(rt.alloc(), trace)) else {
        return;
    };
    trace.recall_limits();
    for e in 0..trace.section_count() {
        judge_section(text, rt, trace, &names, &opening, e, judged);
    }
}

/// Judges all sections of a trace in both ways, where it can be read and its orders are right.
fn judge_all<R: AllocGlobal + RandomSource + Threads + Sync>(
    text: &mut Text,
    rt: &R,
    bytes: &[u8],
    judged: &mut Judged,
) {
    if let Some(keys) = keys(text, rt) {
        if let Ok(trace) = Trace::read(rt.alloc(), bytes) {
            judge_sections(text, rt, &trace, keys, judged);
        }
    }
}

/// The sections of a trace, judged in both ways.
pub fn push_walked<R: AllocGlobal + RandomSource + Threads + Sync>(
    text: &mut Text,
    rt: &R,
    bytes: &[u8],
) {
    let mut judged = Judged::none();
    judge_all(text, rt, bytes, &mut judged);
    judged.push(text);
}

/// The sections of traces that are drawn of a trace, judged in both ways.
pub fn push_drawn<R: AllocGlobal + RandomSource + Threads + Sync>(
    text: &mut Text,
    rt: &R,
    bytes: &[u8],
    count: Option<&str>,
) {
    let mut judged = Judged::none();
    let count: u32 = count
        .and_then(|count: &str| -> Option<u32> { count.parse().ok() })
        .unwrap_or(1);
    let Ok(trace) = Trace::read(rt.alloc(), bytes) else {
        text.fail(Missing::Trace.error());
        return;
    };
    let histories = histories(text, rt.alloc(), &trace);
    let mut random = Draws::new(bytes.len() as u64);
    for _ in 0..count {
        match draw(rt.alloc(), &trace, &histories, &mut random) {
            Some(drawn) => judge_all(text, rt, &drawn, &mut judged),
            None => text.refused(),
        }
    }
    judged.push_drawn(text, count);
}
