//! The evidence of a state that was transferred and isn't the one that was committed.

ghost use Rattle.std.specs.Prelude.{◌≡◌, ◌<◌, ◌≤◌, IfOk, IfSome, IfNone, None, Some, length};
ghost use Rattle.eve_views.specs.declared.fault.Code.TheVariants as code;
ghost use Rattle.eve_history.specs.SectionHistory.{section_histories};
ghost use Rattle.eve_chains.specs.Committed.{balances_to};
ghost use Rattle.eve_chains.specs.CommittedValues.{settling, settlings};
ghost use Rattle.eve_agree.specs.Agreement.{StandsInAgreement};
ghost use Rattle.eve_evidence_outcomes.specs.Outcomes.{IsRowFoundApart, TellsStateFault, TellsState, HasThoseOfFirst};
ghost use Rattle.eve_evidence_outcomes.specs.Outcomes.{IsRightAt};

use crate::apart::{RowApart, first_apart};
use crate::balances::balances_to;
use crate::committed::first_committed;
use crate::replicas::{Replicas, history_at, settled_at};
use eve_accounts::Balances;
use eve_agree::transferred_state;
use eve_chains::laws::states_are_the_balances;
use eve_evidence::{Evidence, StateFault, told_transfer};
use eve_history::laws::numbers_are_reached;
use eve_views::Trace;
use std::alloc::{AllocError, Global};

/// The balances that replica e has after number n, of all customers, row by row.
fn balances_of(
    alloc: Global,
    trace: &Trace<'_>,
    replicas: Replicas<'_, '_>,
    e: u8,
    n: u32,
) -> Result<Balances, AllocError>
    requires histories { replicas.histories.now ≡ section_histories trace.now }
    requires settled { replicas.settled.now ≡ settlings trace.now }
    requires there { e < length trace.now.sections }
    requires number { n ≤ length (settling trace.now e).numbers }
    ensures { IfOk result (λ balances. balances ≡ balances_to trace.now e n) }
{
    let history = history_at(trace, replicas.histories, e);
    balances_to(
        alloc,
        trace,
        history,
        settled_at(trace, replicas.settled, e),
        n,
    )
}

/// The first row in which replica e's balances after number n aren't those of replica f.
pub(crate) fn row_apart<'a>(
    alloc: Global,
    trace: &Trace<'a>,
    replicas: Replicas<'_, '_>,
    e: u8,
    f: u8,
    n: u32,
) -> Result<Option<RowApart<'a>>, AllocError>
    requires histories { replicas.histories.now ≡ section_histories trace.now }
    requires settled { replicas.settled.now ≡ settlings trace.now }
    requires there { e < length trace.now.sections }
    requires number { n ≤ length (settling trace.now e).numbers }
    requires its { f < length trace.now.sections }
    requires its_number { n ≤ length (settling trace.now f).numbers }
    ensures apart { IfOk result (λ x. IfSome x (IsRowFoundApart trace.now (balances_to trace.now e n)
        (balances_to trace.now f n))) }
    ensures none { IfOk result (λ x. IfNone x (balances_to trace.now e n ≡ balances_to trace.now f n)) }
{
    let own = balances_of(alloc, trace, replicas, e, n)?;
    let its = balances_of(alloc, trace, replicas, f, n)?;
    Ok(first_apart(trace, &own, &its))
}

/// The first thing in which replica e's balances after number n aren't those of the first that committed the batch.
fn state_fault<'a>(
    alloc: Global,
    trace: &Trace<'a>,
    replicas: Replicas<'_, '_>,
    e: u8,
    n: u32,
) -> Result<Option<StateFault<'a>>, AllocError>
    requires histories { replicas.histories.now ≡ section_histories trace.now }
    requires settled { replicas.settled.now ≡ settlings trace.now }
    requires there { e < length trace.now.sections }
    requires number { n ≤ length (settling trace.now e).numbers }
    ensures told { IfOk result (λ x. IfSome x (TellsStateFault trace.now e n)) }
    ensures none { IfOk result (λ x. IfNone x (HasThoseOfFirst trace.now e n)) }
{
    let Some(first) = first_committed(replicas.histories, n) else {
        return Ok(Some(StateFault::NoneCommitted));
    };
    match row_apart(alloc, trace, replicas, e, first.replica, n) {
        Ok(Some(apart)) => Ok(Some(StateFault::Row {
            first: first.replica,
            first_at: first.attempt.offset(),
            row: apart.row,
            found: apart.found,
            due: apart.due,
        })),
        Ok(None) => Ok(None),
        Err(why) => Err(why),
    }
}

/// What is wrong with the state of number n, if replica e had it transferred at this byte and it isn't the committed
/// one.
fn at_number<'a>(
    alloc: Global,
    trace: &Trace<'a>,
    replicas: Replicas<'_, '_>,
    e: u8,
    n: u32,
    place: u64,
) -> Result<Option<Evidence<'a>>, AllocError>
    requires histories { replicas.histories.now ≡ section_histories trace.now }
    requires settled { replicas.settled.now ≡ settlings trace.now }
    requires there { e < length trace.now.sections }
    requires one { 1 ≤ n }
    requires number { n ≤ length (settling trace.now e).numbers }
    ensures told { IfOk result (λ x. IfSome x (TellsState trace.now e place)) }
    ensures none { IfOk result (λ x. IfNone x (IsRightAt trace.now e place n)) }
{
    numbers_are_reached();
    states_are_the_balances();
    trace.recall_limits();
    let history = history_at(trace, replicas.histories, e);
    history.recall_right();
    let Some(state) = transferred_state(history, n) else {
        return Ok(None);
    };
    if state.offset() != place {
        return Ok(None);
    }
    match state_fault(alloc, trace, replicas, e, n) {
        Ok(Some(wrong)) => Ok(Some(Evidence::TransferState {
            state: told_transfer(&state),
            wrong,
        })),
        Ok(None) => Ok(None),
        Err(why) => Err(why),
    }
}

/// The evidence of a state that was transferred and isn't the one that was committed, by the replica's number from 0
/// and the byte of its frame.
///
/// It says that no replica committed the batch by an attempt, or names the lowest-numbered that did and the first row
/// whose balance differs.
///
/// docs/MODEL.md, "Agreement" and "Evidence". The histories and what they settled are those of all replicas, in their
/// order. It takes the balances of two replicas.
pub fn state_evidence<'a>(
    alloc: Global,
    trace: &Trace<'a>,
    replicas: Replicas<'_, '_>,
    e: u8,
    place: u64,
) -> Result<Evidence<'a>, AllocError>
    requires histories { replicas.histories.now ≡ section_histories trace.now }
    requires settled { replicas.settled.now ≡ settlings trace.now }
    requires there { e < length trace.now.sections }
    requires stands { StandsInAgreement code.TransferBalances trace.now e place }
    ensures told { IfOk result (TellsState trace.now e place) }
{
    let count = settled_at(trace, replicas.settled, e).committed();
    for n in 0..count {
        match at_number(alloc, trace, replicas, e, n + 1, place) {
            Ok(None) => {}
            Ok(Some(found)) => return Ok(found),
            Err(why) => return Err(why),
        }
    }
    unreachable!()
}
