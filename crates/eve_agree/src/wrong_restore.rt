//! The first row that shows that a rollback restores something else than it must.

ghost use Rattle.std.specs.Prelude.{◌≡◌, ◌≤◌, ◌<◌, ◌*◌, ◌↔◌, IsTrue, IfOk, IfSome, IfNone, length};
ghost use Rattle.std.specs.List.{list_all, AllByRecursion};
ghost use Rattle.eve_grammar.specs.Limits.{is_restore};
ghost use Rattle.eve_frames.specs.Decoded.{rollback_decoded};
ghost use Rattle.eve_views.specs.declared.fault.Code.TheVariants as code;
ghost use Rattle.eve_history.specs.SectionHistory.{section_history};
ghost use Rattle.eve_chains.specs.Along.{AreWithin};
ghost use Rattle.eve_chains.specs.Faults.{HasNoFault};
ghost use Rattle.eve_agree.specs.Marks.{marking_of, unmarked, marked, noted_between};
ghost use Rattle.eve_agree.specs.Restores.{StandsInRestores, restores_by_row, IsFirstWrongRow, IsWrongRestore};

use crate::first_seen::FirstSeen;
use crate::restores::{Discarded, note_attempts};
use eve_accounts::Row;
use eve_chains::laws::{faults_tell_what_is_wrong, sound_attempts_fit_and_see};
use eve_frames::RollbackView;
use eve_grammar::row_of;
use eve_history::History;
use eve_smallbank::Versioned;
use eve_views::{Step, Trace};
use std::alloc::{AllocError, Global};

/// The first row that a rollback restores otherwise than it must.
#[derive(Clone, Copy)]
pub struct WrongRestore {
    /// The row.
    pub row: Row,
    /// The version and the value to which it is restored, if it is.
    pub found: Option<Versioned>,
    /// Those to which it must be, if it must be restored.
    pub due: Option<Versioned>,
}

/// Whether two rows have the same version and value, or neither has any.
fn is_same(found: &Option<Versioned>, due: &Option<Versioned>) -> bool
    ensures { IsTrue result ↔ (found.now ≡ due.now) }
{
    match (found, due) {
        (Some(found), Some(due)) => found.version == due.version && found.value == due.value,
        (None, None) => true,
        _ => false,
    }
}

/// The first row whose marks differ, if one does.
fn first_apart(trace: &Trace<'_>, found: &FirstSeen, due: &FirstSeen) -> Option<WrongRestore>
    requires found { length found.now ≡ 2 * length trace.now.customers }
    requires due { length due.now ≡ 2 * length trace.now.customers }
    ensures some { IfSome result (IsFirstWrongRow (marking_of found.now) (marking_of due.now)) }
    ensures none { IfNone result (marking_of found.now ≡ marking_of due.now) }
{
    trace.recall_limits();
    for i in 0..2 * trace.customer_count() {
        let row = row_of(i);
        let own = found.get(row);
        let its = due.get(row);
        if !is_same(&own, &its) {
            return Some(WrongRestore {
                row,
                found: own,
                due: its,
            });
        }
    }
    None
}

/// The first row that a rollback restores otherwise than to what the first write of the discarded attempts saw, if the
/// rollback begins at this byte and there is one.
fn wrong_at(
    alloc: Global,
    trace: &Trace<'_>,
    discarded: Discarded<'_, '_>,
    rollback: &RollbackView<'_>,
    at: u64,
) -> Result<Option<WrongRestore>, AllocError>
    requires rising { discarded.first ≤ discarded.end }
    requires there { discarded.end ≤ length discarded.history.now.attempts }
    requires within { AllByRecursion (λ r. AreWithin (2 * length trace.now.customers) r.ordered)
        discarded.history.now.attempts }
    requires rows { IsTrue (list_all (is_restore (2 * length trace.now.customers))
        (rollback_decoded rollback.now).restores) }
    ensures some { IfOk result (λ x. IfSome x (λ w. (rollback.now.offset ≡ at)
        × IsFirstWrongRow (restores_by_row (rollback_decoded rollback.now).restores)
        (marked unmarked (noted_between discarded.entry.history.now.attempts discarded.entry.first
        discarded.entry.end)) w)) }
    ensures none { IfOk result (λ x. IfNone x (rollback.now.offset ≡ at
        → restores_by_row (rollback_decoded rollback.now).restores
        ≡ marked unmarked (noted_between discarded.entry.history.now.attempts discarded.entry.first
        discarded.entry.end))) }
{
    if rollback.offset() != at {
        return Ok(None);
    }
    let rows = 2 * trace.customer_count() as usize;
    let mut found = FirstSeen::new(alloc, rows)?;
    found.note_restores(rollback.restores());
    let mut due = FirstSeen::new(alloc, rows)?;
    note_attempts(&mut due, discarded);
    Ok(first_apart(trace, &found, &due))
}

/// The first row that a rollback restores otherwise than it must, by the byte of its frame and by the replica's
/// history: what it restores there, and what is due.
///
/// docs/MODEL.md, "Working table, committed table" and "Evidence". It is said where no fault of records or chains
/// stands in the replica's section, and one of restores stands at this byte. It takes two marks for each row.
pub fn first_wrong_restore(
    alloc: Global,
    trace: &Trace<'_>,
    history: &History<'_>,
    at: u64,
) -> Result<WrongRestore, AllocError>
    requires history { history.now ≡ section_history trace.now history.now.replica }
    requires none { HasNoFault trace.now history.now.replica }
    requires stands { StandsInRestores code.Restore trace.now history.now.replica at }
    ensures { IfOk result (IsWrongRestore trace.now history.now.replica at) }
{
    trace.recall_limits();
    history.recall_right();
    faults_tell_what_is_wrong();
    sound_attempts_fit_and_see();
    let mut first = 0;
    let mut end = 0;
    let mut steps = trace.section(history.replica());
    while let Some(step) = steps.next() {
        match step {
            Step::Attempt(_, _) => {
                prove!(end < history.attempts());
                end += 1;
            }
            Step::Commit(_) => first += 1,
            Step::Rollback(rollback) => {
                let discarded = Discarded {
                    history,
                    first,
                    end,
                };
                if let Some(wrong) = wrong_at(alloc, trace, discarded, &rollback, at)? {
                    return Ok(wrong);
                }
                first = end;
            }
            Step::Transfer(_) => first = end,
        }
    }
    unreachable!()
}
