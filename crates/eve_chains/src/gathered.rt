//! The entries of attempts, gathered row by row along the section.

ghost use Rattle.std.specs.Prelude.{◌≡◌, ◌≤◌, ◌<◌, ◌++◌, ◌^◌, ℕ, List, Some, All, IsTrue, IfOk, OnOk, length, map};
ghost use Rattle.std.specs.Prelude.{slice_get};
ghost use Rattle.std.specs.List.{list_all};
ghost use Rattle.eve_frames.specs.Decoded.{access_decoded};
ghost use Rattle.eve_grammar.specs.Limits.{is_entry, row_count};
ghost use Rattle.eve_grammar.specs.Trace.{head_of};
ghost use Rattle.eve_history.specs.declared.fate.Fate.{Fate as FateValue};
ghost use Rattle.eve_history.specs.SectionHistory.{ExecutedAttempt, is_committed};
ghost use Rattle.eve_chains.specs.Along.{AreWithin};
ghost use Rattle.eve_chains.specs.inner.Gathered.{as_noted, noted_of_entry, noted_if_settled, notes_between};
ghost use Rattle.eve_chains.specs.inner.Gathered.{HasGathered, AreGathered};
ghost use Rattle.eve_chains.specs.Rows.{Noted, noted_by};
ghost use Rattle.eve_chains.specs.inner.Sections.{IsTold};
ghost use Rattle.eve_chains.specs.inner.Stretches.{IsWithin};

use crate::grouped::Grouped;
use crate::note::Note;
use crate::opening::row_count;
use crate::records::is_settled;
use crate::section::Section;
use crate::stretch::Stretch;
use eve_frames::AccessView;
use eve_history::Fate;
use eve_smallbank::Entry;
use std::alloc::{AllocError, Global};

/// How many entries are put in order at a time, at least: most rows have some among them, and all of them stay in a
/// processor's own memory.
const LEAST_ENTRIES: usize = 4096;

/// What all entries of an attempt have.
#[derive(Clone, Copy)]
struct Noting {
    transferred: u32,
    view: u32,
    number: u32,
    commits: bool,
}

/// Gathers the entries of a stretch's settled attempts, in their order along the section: in parts, one behind another,
/// each of them in order by row. A part has as many entries as there are rows, or more, so that to go through all rows
/// of all parts takes no longer than to go through the entries.
pub(crate) fn gather(
    alloc: Global,
    section: Section<'_, '_, '_>,
    stretch: Stretch,
) -> Result<Vec<Grouped<Note>>, AllocError>
    requires told { IsTold section }
    requires within { IsWithin (length section.history.now.attempts) stretch }
    ensures { IfOk result (λ parts. AreGathered (row_count (head_of section.entry.trace.now))
        (notes_between section.entry.history.now stretch.from stretch.to) parts.items) }
{
    section.trace.recall_limits();
    let rows = row_count(section.trace);
    let to = stretch.to;
    prove!(to <= section.history.attempts());
    let many = (rows as usize).max(LEAST_ENTRIES);
    let mut parts = Vec::new(alloc);
    let mut notes = Vec::new(alloc);
    for i in stretch.from..to {
        note_attempt(&mut notes, section, i)?;
        put_by_row(alloc, rows, many, &mut notes, &mut parts)?;
    }
    put_by_row(alloc, rows, 1, &mut notes, &mut parts)?;
    Ok(parts)
}

/// Puts the notes behind the parts before them, in order by row, where there are that many.
fn put_by_row(
    alloc: Global,
    rows: u32,
    many: usize,
    notes: &mut Vec<Note>,
    parts: &mut Vec<Grouped<Note>>,
) -> Result<(), AllocError>
    requires many { 1 ≤ many }
    requires below { All (λ n. n.row < rows) notes.old.items }
    ensures few { OnOk result (length notes.new.items < many) }
    ensures below { OnOk result (All (λ n. n.row < rows) notes.new.items) }
    ensures gathered { OnOk result ((ns : List Noted) → HasGathered rows ns parts.old.items notes.old.items
        → HasGathered rows ns parts.new.items notes.new.items) }
{
    if notes.len() < many {
        return Ok(());
    }
    let part = Grouped::of(alloc, rows, notes.as_slice())?;
    parts.push(part)?;
    notes.clear();
    Ok(())
}

/// Notes the entries of an attempt's records, in its certificate's order; of an open attempt none.
fn note_attempt(
    notes: &mut Vec<Note>,
    section: Section<'_, '_, '_>,
    i: usize,
) -> Result<(), AllocError>
    requires told { IsTold section }
    requires attempt { i < length section.history.now.attempts }
    requires fate { i < length section.history.now.fates }
    requires within { (r : ExecutedAttempt) → slice_get section.history.now.attempts i ≡ Some r
        → AreWithin (row_count (head_of section.trace.now)) r.ordered }
    ensures { OnOk result ((r : ExecutedAttempt) (transferred : ℕ) (fate : FateValue)
        → slice_get section.entry.history.now.attempts i ≡ Some r
        → slice_get section.entry.history.now.transferred i ≡ Some transferred
        → slice_get section.entry.history.now.fates i ≡ Some fate
        → map as_noted notes.new.items ≡ map as_noted notes.old.items ++ noted_if_settled (r, transferred) fate) }
{
    let Section { trace, history } = section;
    let _bytes = trace.bytes();
    let fate = history.fate(i);
    if !is_settled(fate) {
        return Ok(());
    }
    let attempt = history.attempt(i);
    let noting = Noting {
        transferred: history.transferred_before(i),
        view: attempt.view(),
        number: attempt.seq(),
        commits: is_committed(fate),
    };
    for place in 0..attempt.len() {
        let access = history.ordered(i, place);
        note_record(notes, noting, &access)?;
    }
    Ok(())
}

/// Whether the attempt is committed.
fn is_committed(fate: Fate) -> bool
    ensures { result ≡ is_committed fate }
{
    match fate {
        Fate::Committed => true,
        Fate::Discarded => false,
        Fate::Open => false,
    }
}

/// Notes the entries of a record.
fn note_record(
    notes: &mut Vec<Note>,
    noting: Noting,
    access: &AccessView<'_>,
) -> Result<(), AllocError>
    requires offset { access.now.offset < 2 ^ 32 }
    requires within { (count : ℕ) × IsTrue (list_all (is_entry count) (access_decoded access.now).entries) }
    ensures { OnOk result (map as_noted notes.new.items ≡ map as_noted notes.old.items
        ++ noted_by noting.transferred noting.view noting.number noting.commits
        (access.now.offset, access_decoded access.now)) }
{
    let at = access.offset() as u32;
    for place in 0..access.len() {
        notes.push(note_of(noting, at, &access.entry(place)))?;
    }
    Ok(())
}

/// What is noted of an entry of a record at this offset.
fn note_of(noting: Noting, at: u32, entry: &Entry) -> Note
    requires { (count : ℕ) × IsTrue (is_entry count entry.now) }
    ensures { as_noted result ≡ noted_of_entry noting at entry.now }
{
    Note {
        version: entry.version,
        seen: entry.seen,
        after: entry.after,
        row: entry.row,
        at,
        transferred: noting.transferred,
        view: noting.view,
        number: noting.number,
        commits: noting.commits,
        kind: entry.kind,
    }
}
