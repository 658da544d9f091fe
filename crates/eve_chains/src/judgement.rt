//! The judgement of a replica's settled attempts.

ghost use Rattle.std.specs.Prelude.{◌≡◌, ◌≤◌, IfOk, IfErr};
ghost use Rattle.eve_grammar.specs.Trace.{head_of};
ghost use Rattle.eve_grammar.specs.Limits.{row_count};
ghost use Rattle.eve_views.specs.Form.{IfFound, IsLeast, IsFaultIn};
ghost use Rattle.eve_history.specs.SectionHistory.{section_history, names_of};
ghost use Rattle.eve_chains.specs.Sound.{RecordsFit, SettledAreSound};
ghost use Rattle.eve_chains.specs.Faults.{HasNoFault, IsLeastFault, StandsInChains};
ghost use Rattle.eve_chains.specs.inner.Judged.{AreFoundIn};
ghost use Rattle.eve_chains.specs.inner.Sections.{IsTold, AreRowsOf};
ghost use Rattle.eve_chains.specs.CommittedValues.{settling};
ghost use Rattle.eve_chains.specs.inner.Walked.{IsFirstOnRows, AreWalked};

use crate::laws::{rows_are_judged_by_themselves, sound_sections_have_no_fault};
use crate::opening::opening_balances;
use crate::records::records;
use crate::rows::{WalkedRange, changed_ranges, first_of_all, walk_all};
use crate::section::{Section, SectionRows};
use crate::settled::Settled;
use crate::side_by_side::{Judged, all_parts, judge_all, least_mismatch};
use crate::stretch::Stretch;
use eve_accounts::Names;
use eve_history::History;
use eve_views::{CheckFault, Fault, Trace};
use std::alloc::{AllocError, Global};
use std::thread::Threads;

/// The fewest attempts or rows that are worth a thread: an attempt has up to 256 records, and a row mostly has many
/// entries.
const LEAST_ITEMS: usize = 16;

/// The records of all attempts judged, each by itself, and their entries gathered, in as many stretches as there are
/// jobs at most.
fn judge_attempts<R: Threads + Sync>(
    rt: &R,
    alloc: Global,
    section: Section<'_, '_, '_>,
    names: &Names<'_>,
    jobs: u8,
) -> Result<Vec<Judged>, AllocError>
    requires told { IsTold section }
    requires names { names.now.items ≡ names_of section.trace.now }
    requires jobs { 1 ≤ jobs }
    ensures { IfOk result (λ judged. AreFoundIn section.entry.trace.now section.entry.history.now judged.items) }
{
    let all = Stretch {
        from: 0,
        to: section.history.attempts(),
    };
    let stretches = all.cut(alloc, jobs, LEAST_ITEMS)?;
    judge_all(rt, alloc, section, names, &stretches)
}

/// All rows walked, each by itself along its own entries, in as many ranges as there are jobs at most.
fn walk<R: Threads + Sync>(
    rt: &R,
    alloc: Global,
    rows: SectionRows<'_, '_, '_>,
    jobs: u8,
) -> Result<Vec<WalkedRange>, AllocError>
    requires rows { AreRowsOf rows }
    requires jobs { 1 ≤ jobs }
    ensures { IfOk result (λ walked.
        AreWalked rows.entry.section.trace.now rows.entry.section.history.now.replica walked.items) }
{
    let all = Stretch {
        from: 0,
        to: rows.opening.len(),
    };
    let ranges = all.cut(alloc, jobs, LEAST_ITEMS)?;
    walk_all(rt, alloc, rows, &ranges)
}

/// Judges the chains of a section whose records fit, by the first fault that was found on its rows.
fn chains(section: Section<'_, '_, '_>, first: Option<Fault>) -> Result<(), CheckFault>
    requires told { IsTold section }
    requires fit { RecordsFit section.trace.now section.history.now.replica }
    requires first { IsFirstOnRows section.trace.now section.history.now.replica 0
        (row_count (head_of section.trace.now)) first }
    ensures sound { IfOk result (λ _. SettledAreSound section.entry.trace.now section.entry.history.now.replica) }
    ensures least { IfErr result (λ why. IfFound why
        (IsLeast (IsFaultIn StandsInChains section.entry.trace.now section.entry.history.now.replica))) }
{
    section.trace.recall_limits();
    section.history.recall_right();
    rows_are_judged_by_themselves();
    match first {
        None => Ok(()),
        Some(fault) => Err(CheckFault::Found(fault)),
    }
}

/// Judges a replica's settled attempts: each record fits its request by itself, and each entry sees what its path left;
/// else `Found`, the first fault, those of records before those of chains, then by offset, then by number.
///
/// docs/MODEL.md, "A record fits its request", "What an entry must see" and "Faults". Each record is judged by itself,
/// by what its request touches and what is decided on the values that it saw. Then the entries of each row are gathered
/// along the section, and each row is walked by itself along its own entries. Records, and then rows, are worked
/// through in as many threads as there are jobs, at most; with one job none is started. What is found doesn't depend on
/// which ends first. Refused memory decides nothing. The time is linear in the entries, and so is the memory: 48 bytes
/// for each entry, until all rows are walked.
pub fn check<'a, R: Threads + Sync>(
    rt: &R,
    alloc: Global,
    history: &History<'a>,
    trace: &Trace<'_>,
    names: &Names<'_>,
    jobs: u8,
) -> Result<Settled<'a>, CheckFault>
    requires history { history.now ≡ section_history trace.now history.now.replica }
    requires names { names.now.items ≡ names_of trace.now }
    requires jobs { 1 ≤ jobs }
    ensures settled { IfOk result (λ settled. settled ≡ settling trace.now history.now.replica) }
    ensures sound { IfOk result (λ _. SettledAreSound trace.now history.now.replica) }
    ensures none { IfOk result (λ _. HasNoFault trace.now history.now.replica) }
    ensures least { IfErr result (λ why. IfFound why (IsLeastFault trace.now history.now.replica)) }
{
    history.recall_right();
    let section = Section { trace, history };
    let opening = opening_balances(alloc, trace)?;
    let judged = judge_attempts(rt, alloc, section, names, jobs)?;
    if let Err(why) = records(section, least_mismatch(&judged)) {
        return Err(why);
    }
    let parts = all_parts(alloc, judged)?;
    let rows = SectionRows {
        section,
        opening: &opening,
        parts: &parts,
    };
    let walked = walk(rt, alloc, rows, jobs)?;
    drop(parts);
    if let Err(why) = chains(section, first_of_all(&walked)) {
        return Err(why);
    }
    sound_sections_have_no_fault();
    let ranges = changed_ranges(alloc, walked)?;
    let settled = Settled::of(alloc, section, opening, ranges)?;
    Ok(settled)
}
