//! A ledger that gets by a transfer what another one committed.

ghost use Rattle.std.specs.Prelude.{◌<◌, length};

use crate::ledger::comparing::Shown;
use crate::ledger::replaying::{Case, end, ledger_of, replay_step, tell_root};
use eve_attempts::Ledger;
use eve_grammar::{MOST_ROWS, TransferData};
use eve_smallbank::Versioned;
use eve_testing::Text;
use eve_views::Step;
use std::alloc::{AllocError, Global};

/// Replays a section on two new ledgers. Where the first commits, the second gets by a transfer what the first has
/// committed; all other steps are taken by both. At the end the second is ended.
pub fn replay_beside(case: &Case, section: u8, said: &mut Text)
    requires { section < length case.now.trace.now.sections }
{
    let Ok(mut first) = ledger_of(case) else {
        return said.refused();
    };
    let Ok(mut second) = ledger_of(case) else {
        return said.refused();
    };
    let mut steps = case.trace.section(section);
    for _ in 0..case.trace.frame_count() {
        let Some(step) = steps.next() else {
            break;
        };
        replay_step(case, &mut first, &step, said);
        match &step {
            Step::Commit(_) => apply_transfer(case.alloc, &first, &mut second, said),
            _ => replay_step(case, &mut second, &step, said),
        }
    }
    end(case.alloc, &mut second, said);
}

/// Transfers what the first ledger has committed, and tells what came of it. Then neither that state is due any more,
/// nor a later one of an earlier view.
fn apply_transfer(alloc: Global, first: &Ledger, second: &mut Ledger, said: &mut Text) {
    let Some(rows) = said.made(state_of(alloc, first)) else {
        return;
    };
    let mut state = TransferData {
        seq: first.committed(),
        view: first.view(),
        rows,
    };
    if !takes(second, &state) || !has_taken(alloc, second, &state, said) {
        return said.words(" not taken over,");
    }
    said.words(" taken over");
    tell_rows(state.rows.as_slice(), said);
    said.words(",");
    tell_root(alloc, second, said);
    if is_refused(alloc, second, &state, said) {
        said.words(" not due again,");
    }
    if state.view > 0 && state.seq < u32::MAX {
        state.seq += 1;
        state.view -= 1;
        if is_refused(alloc, second, &state, said) {
            said.words(" of an earlier view not due,");
        }
    }
}

/// What the ledger has committed; where memory is refused once, once more.
fn state_of(alloc: Global, ledger: &Ledger) -> Result<Vec<Versioned>, AllocError> {
    match ledger.state(alloc) {
        Err(AllocError) => ledger.state(alloc),
        made => made,
    }
}

/// Whether the ledger has the state transferred, which must have its rows.
fn takes(ledger: &mut Ledger, state: &TransferData) -> bool {
    let many = ledger.balances().len();
    many == state.rows.len() && many <= MOST_ROWS as usize && ledger.apply_transfer(state).is_ok()
}

/// Whether the ledger has the state's number, view and rows, and nothing open, so that the next attempt is parallel.
fn has_taken(alloc: Global, ledger: &Ledger, state: &TransferData, said: &mut Text) -> bool {
    let Some(rows) = said.made(state_of(alloc, ledger)) else {
        return false;
    };
    ledger.committed() == state.seq
        && ledger.view() == state.view
        && ledger.opened() == 0
        && !ledger.is_next_serial()
        && are_same(rows.as_slice(), state.rows.as_slice())
}

fn are_same(some: &[Versioned], others: &[Versioned]) -> bool {
    if some.len() != others.len() {
        return false;
    }
    for (row, other) in some.iter().zip(others) {
        if row.version != other.version || row.value != other.value {
            return false;
        }
    }
    true
}

/// Whether the ledger refuses the state, and is as it was.
fn is_refused(alloc: Global, ledger: &mut Ledger, state: &TransferData, said: &mut Text) -> bool {
    match said.made(Shown::of(alloc, ledger)) {
        Some(before) => !takes(ledger, state) && before.is_of(ledger),
        None => false,
    }
}

/// Tells the rows that were written.
fn tell_rows(rows: &[Versioned], said: &mut Text) {
    for (number, row) in rows.iter().enumerate() {
        if row.version > 0 {
            said.value(" row ", number);
            said.value(" version ", row.version);
            said.value(" value ", row.value.get());
        }
    }
}
