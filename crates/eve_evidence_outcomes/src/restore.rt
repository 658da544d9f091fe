//! The evidence of a rollback whose restores aren't those that are due.

ghost use Rattle.std.specs.Prelude.{◌≡◌, ◌≢◌, IfOk};
ghost use Rattle.eve_views.specs.declared.fault.Code.TheVariants as code;
ghost use Rattle.eve_history.specs.SectionHistory.{section_history};
ghost use Rattle.eve_chains.specs.Faults.{HasNoFault};
ghost use Rattle.eve_agree.specs.Marks.{Marking};
ghost use Rattle.eve_agree.specs.Restores.{StandsInRestores};
ghost use Rattle.eve_evidence.specs.Told.{IsToldRow};
ghost use Rattle.eve_evidence_outcomes.specs.Restore.{AreSameBefore, TellsRow, TellsRestore};

use eve_accounts::Row;
use eve_agree::first_wrong_restore;
use eve_evidence::{Evidence, RestoreFault, ToldState, told_row};
use eve_history::History;
use eve_smallbank::Versioned;
use eve_views::Trace;
use std::alloc::{AllocError, Global};

/// A row with its version and value.
fn told_state<'a>(trace: &Trace<'a>, row: Row, has: &Versioned) -> ToldState<'a>
    ensures row { IsToldRow trace.now row result.row }
    ensures has { result.has ≡ has.now }
{
    ToldState {
        row: told_row(trace, row),
        has: *has,
    }
}

/// A row of which something else is restored than is due.
fn restore_fault<'a>(
    trace: &Trace<'a>,
    row: Row,
    found: &Option<Versioned>,
    due: &Option<Versioned>,
) -> RestoreFault<'a>
    requires { found.now ≢ due.now }
    ensures { (own its : Marking) → own row ≡ found.now → its row ≡ due.now → AreSameBefore own its row
        → TellsRow trace.now own its result }
{
    match (found, due) {
        (None, Some(due)) => RestoreFault::Missing(told_state(trace, row, due)),
        (Some(found), None) => RestoreFault::Extra(told_state(trace, row, found)),
        (Some(found), Some(due)) => RestoreFault::Another {
            found: told_state(trace, row, found),
            due: told_state(trace, row, due),
        },
        (None, None) => unreachable!(),
    }
}

/// The evidence of a rollback whose restores aren't those that are due, by the byte of its frame: the first row at
/// which they differ, with what is restored there, or with what is due, or with both.
///
/// docs/MODEL.md, "Working table, committed table" and "Evidence". The history is the replica's, in whose section no
/// fault of records or chains stands. It takes two marks for each row.
pub fn restore_evidence<'a>(
    alloc: Global,
    trace: &Trace<'a>,
    history: &History<'_>,
    place: u64,
) -> Result<Evidence<'a>, AllocError>
    requires history { history.now ≡ section_history trace.now history.now.replica }
    requires none { HasNoFault trace.now history.now.replica }
    requires stands { StandsInRestores code.Restore trace.now history.now.replica place }
    ensures told { IfOk result (TellsRestore trace.now history.now.replica place) }
{
    let wrong = first_wrong_restore(alloc, trace, history, place)?;
    let fault = restore_fault(trace, wrong.row, &wrong.found, &wrong.due);
    Ok(Evidence::Restore(fault))
}
