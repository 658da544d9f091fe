//! Requests applied to the stripes that are lent to them.

ghost use Rattle.std.specs.Prelude.{◌≡◌, ◌<◌, ◌≤◌, ◌+◌, ℕ, Bool, List, IsTrue, IfSome, IfOk, OnOk, OnErr, ◌&&◌};
ghost use Rattle.std.specs.Prelude.{map, if◌then◌else◌, [], ◌∷◌, ◌++◌, length};
ghost use Rattle.std.specs.List.{AllByRecursion};
ghost use Rattle.std.specs.VecDeque.{deque_len, deque_capacity};
ghost use Rattle.eve_smallbank.specs.SmallBank.{plain};
ghost use Rattle.eve_smallbank.specs.Access.{Fits};
ghost use Rattle.eve_smallbank.specs.Chain.{Table, Sees};
ghost use Rattle.eve_smallbank.specs.Touch.{touched_of, rows_in};
ghost use Rattle.eve_smallbank.specs.Execution.{executed_on};
ghost use Rattle.eve_stamps.specs.Applied.{noted_of, executed_as};
ghost use Rattle.eve_stamps.specs.Stripes.{has_row, row_in, rows_now, is_above, stripe_with};
ghost use Rattle.eve_stamps.specs.Requests.{has_row_in_two, rows_in_two, entries_within, entries_outside, is_worn};
ghost use Rattle.eve_stamps.specs.Requests.{seen_of, refusal, refusal_of_two, IsRefusedFor, IsRun};
ghost use Rattle.eve_stamps.specs.HeldRows.{stripe_held, IsHeldStripe, CanBeNoted};

use crate::executing::executed;
use crate::journal::Journaled;
use crate::rows::write;
use crate::{AccessRecord, HeldRow, Stamp, StampFault, Stripe};
use eve_accounts::Row;
use eve_grammar::MOST_VERSIONS;
use eve_smallbank::{Entry, Kind, Reply, Request, Touched, UpToThree, laws};
use std::alloc::AllocError;
use std::collections::VecDeque;

/// Runs the request on the stripe's rows as they are now, and notes it in the stripe's journal.
///
/// `touched` is the answer of `touched` for this request and the customers; all its rows have to lie in the stripe. A
/// request that touches no row is noted too, with no entries. Refused, in the order of the tests: `NoRow`, where a row
/// that it touches lies in no stripe that is lent; `TickOrder`, where the tick isn't above the greatest of each;
/// `Worn`, where a row to be written is at version 2^40; `Memory`. A refusal changes nothing.
///
/// docs/DEPLOYMENT.md, "Stripe"; docs/MODEL.md, "Entries", "A record fits its request".
pub fn apply(
    stripe: &mut Stripe,
    request: &Request,
    touched: &Touched,
    stamp: Stamp,
) -> Result<AccessRecord, StampFault>
    requires touched { (names : List (List ℕ)) × (touched.now ≡ touched_of names (plain request.now)) }

    // The record is the request's, executed on the rows as they were, and fits it whoever the customers are.
    ensures exact { (names : List (List ℕ)) → touched.now ≡ touched_of names (plain request.now)
        → IfOk result (λ r. r ≡ noted_of stamp.worker stamp.place stamp.index stamp.tick
        (executed_on names (rows_now stripe.old) (plain request.now))) }
    ensures fits { (names : List (List ℕ)) → touched.now ≡ touched_of names (plain request.now)
        → IfOk result (λ r. Fits names (executed_as (plain request.now) r)) }
    ensures sees { IfOk result (λ r. AllByRecursion (Sees (rows_now stripe.old)) r.entries) }

    // The journal gains exactly the record's entries.
    ensures journal { IfOk result (λ r. stripe.new ≡ stripe_with stripe.old stamp.tick r.entries) }
    ensures refused { IsRefusedFor (refusal stripe.old stamp.tick (rows_in touched.now)) result }
    ensures kept { OnErr result (stripe.new ≡ stripe.old) }
{
    let rows = touched.rows();
    let seen = seen_in(stripe, &rows);
    let (reply, entries) = run(request, touched, &rows, seen, stripe.is_above(stamp.tick))?;
    if stripe.journal.reserve(1).is_err() {
        return Err(StampFault::Memory);
    }
    note(
        &stripe.base,
        &mut stripe.rows,
        &mut stripe.journal,
        stripe.greatest,
        stamp.tick,
        &entries,
    );
    stripe.greatest = Some(stamp.tick);
    Ok(AccessRecord::new(stamp, reply, entries))
}

/// Runs the request on the rows of both stripes as they are now. A row that lies in both is seen and written in the
/// first alone.
///
/// The first stripe's journal gains the entries of its rows, the second's the others, each at the tick, and an empty
/// item where there are none. Conditions and refusals are as those of `apply`, with both stripes. A refusal changes
/// nothing.
///
/// docs/DEPLOYMENT.md, "Stripe"; docs/MODEL.md, "Entries", "A record fits its request".
pub fn apply_two(
    first: &mut Stripe,
    second: &mut Stripe,
    request: &Request,
    touched: &Touched,
    stamp: Stamp,
) -> Result<AccessRecord, StampFault>
    requires touched { (names : List (List ℕ)) × (touched.now ≡ touched_of names (plain request.now)) }

    // The record is the request's, executed on the rows as they were, and fits it whoever the customers are.
    ensures exact { (names : List (List ℕ)) → touched.now ≡ touched_of names (plain request.now)
        → IfOk result (λ r. r ≡ noted_of stamp.worker stamp.place stamp.index stamp.tick
        (executed_on names (rows_in_two first.old second.old) (plain request.now))) }
    ensures fits { (names : List (List ℕ)) → touched.now ≡ touched_of names (plain request.now)
        → IfOk result (λ r. Fits names (executed_as (plain request.now) r)) }
    ensures sees { IfOk result (λ r. AllByRecursion (Sees (rows_in_two first.old second.old)) r.entries) }

    // The journals gain exactly the record's entries, each those of its rows.
    ensures first { IfOk result (λ r. first.new
        ≡ stripe_with first.old stamp.tick (entries_within first.old r.entries)) }
    ensures second { IfOk result (λ r. second.new
        ≡ stripe_with second.old stamp.tick (entries_outside first.old r.entries)) }
    ensures refused { IsRefusedFor (refusal_of_two first.old second.old stamp.tick (rows_in touched.now)) result }
    ensures first_kept { OnErr result (first.new ≡ first.old) }
    ensures second_kept { OnErr result (second.new ≡ second.old) }
{
    let rows = touched.rows();
    let seen = seen_in_two(first, second, &rows);
    let (reply, entries) = run(
        request,
        touched,
        &rows,
        seen,
        are_above(first, second, stamp.tick),
    )?;
    let (within, outside) = split(first, &entries);
    if reserve_in_both(&mut first.journal, &mut second.journal).is_err() {
        return Err(StampFault::Memory);
    }
    note(
        &first.base,
        &mut first.rows,
        &mut first.journal,
        first.greatest,
        stamp.tick,
        &within,
    );
    first.greatest = Some(stamp.tick);
    note(
        &second.base,
        &mut second.rows,
        &mut second.journal,
        second.greatest,
        stamp.tick,
        &outside,
    );
    second.greatest = Some(stamp.tick);
    Ok(AccessRecord::new(stamp, reply, entries))
}

/// Runs the request on the rows that were seen: its reply and its entries, or why it is refused.
fn run(
    request: &Request,
    touched: &Touched,
    rows: &UpToThree<(Row, Kind)>,
    seen: Option<UpToThree<HeldRow>>,
    is_new: bool,
) -> Result<(Reply, UpToThree<Entry>), StampFault>
    requires touched { (names : List (List ℕ)) × (touched.now ≡ touched_of names (plain request.now)) }
    requires rows { rows.now ≡ rows_in touched.now }
    requires seen { IfSome seen (λ held. length held ≡ length (rows_in touched.now)) }
    ensures new { IfOk result (λ _. IsTrue is_new) }
    ensures run { (is_there : ℕ → Bool) (now : Table) → seen ≡ seen_of is_there now (rows_in touched.now)
        → IsRun is_there now is_new (plain request.now) touched.now result }
{
    laws::requests_fit();
    let Some(seen) = seen else {
        return Err(StampFault::NoRow);
    };
    if !is_new {
        return Err(StampFault::TickOrder);
    }
    if are_worn(rows, &seen) {
        return Err(StampFault::Worn);
    }
    Ok(executed(request, touched, &seen))
}

/// Writes the entries of one more request, and journals them.
fn note(
    base: &[HeldRow],
    rows: &mut [HeldRow],
    journal: &mut VecDeque<Journaled>,
    greatest: Option<u64>,
    tick: u64,
    entries: &UpToThree<Entry>,
)
    requires held { IsHeldStripe base.now rows.old journal.old.items greatest }
    requires room { deque_len journal.old + 1 ≤ deque_capacity journal.old }
    requires above { IsTrue (is_above tick greatest) }
    requires noted { AllByRecursion (CanBeNoted (has_row (stripe_held base.now journal.old.items greatest))
        (rows_now (stripe_held base.now journal.old.items greatest))) entries.now }
    ensures held { IsHeldStripe base.now rows.new journal.new.items (Some tick) }
    ensures journal { journal.new.items ≡ journal.old.items ++ record { tick = tick; entries = entries.now } ∷ [] }
{
    write(rows, entries);
    journal.push_back_reserved(Journaled {
        tick,
        entries: *entries,
    });
}

/// The rows as they are now, where all lie in the stripe.
fn seen_in(stripe: &Stripe, rows: &UpToThree<(Row, Kind)>) -> Option<UpToThree<HeldRow>>
    ensures { result ≡ seen_of (has_row stripe.now) (rows_now stripe.now) rows.now }
{
    let count = rows.len();
    if count == 0 {
        return Some(UpToThree::new());
    }
    let Some(first) = stripe.see(rows.at(0).0) else {
        return None;
    };
    if count == 1 {
        return Some(UpToThree::one(first));
    }
    let Some(second) = stripe.see(rows.at(1).0) else {
        return None;
    };
    if count == 2 {
        return Some(UpToThree::two(first, second));
    }
    let Some(third) = stripe.see(rows.at(2).0) else {
        return None;
    };
    Some(UpToThree::three(first, second, third))
}

/// The rows as they are now, where each lies in the first stripe or in the second.
fn seen_in_two(
    first: &Stripe,
    second: &Stripe,
    rows: &UpToThree<(Row, Kind)>,
) -> Option<UpToThree<HeldRow>>
    ensures { result ≡ seen_of (has_row_in_two first.now second.now) (rows_in_two first.now second.now) rows.now }
{
    let count = rows.len();
    if count == 0 {
        return Some(UpToThree::new());
    }
    let Some(one) = see_in_two(first, second, rows.at(0).0) else {
        return None;
    };
    if count == 1 {
        return Some(UpToThree::one(one));
    }
    let Some(two) = see_in_two(first, second, rows.at(1).0) else {
        return None;
    };
    if count == 2 {
        return Some(UpToThree::two(one, two));
    }
    let Some(three) = see_in_two(first, second, rows.at(2).0) else {
        return None;
    };
    Some(UpToThree::three(one, two, three))
}

fn see_in_two(first: &Stripe, second: &Stripe, row: Row) -> Option<HeldRow>
    ensures { result ≡ (if has_row_in_two first.now second.now row then Some
        (row_in (rows_in_two first.now second.now) row) else None) }
{
    match first.see(row) {
        Some(held) => Some(held),
        None => second.see(row),
    }
}

/// Whether the tick is above all that either stripe has had.
fn are_above(first: &Stripe, second: &Stripe, tick: u64) -> bool
    ensures { result ≡ (is_above tick first.now.greatest && is_above tick second.now.greatest) }
{
    first.is_above(tick) && second.is_above(tick)
}

/// Reserves room for one more item in each.
fn reserve_in_both(
    first: &mut VecDeque<Journaled>,
    second: &mut VecDeque<Journaled>,
) -> Result<(), AllocError>
    ensures first_items { first.new.items ≡ first.old.items }
    ensures second_items { second.new.items ≡ second.old.items }
    ensures first_room { OnOk result (deque_len first.new + 1 ≤ deque_capacity first.new) }
    ensures second_room { OnOk result (deque_len second.new + 1 ≤ deque_capacity second.new) }
{
    first.reserve(1)?;
    second.reserve(1)
}

/// Whether some row that is to be written has the greatest version.
fn are_worn(rows: &UpToThree<(Row, Kind)>, seen: &UpToThree<HeldRow>) -> bool
    requires { length seen.now ≡ length rows.now }
    ensures { (now : Table) → seen.now ≡ map (λ r. row_in now r.0) rows.now → result ≡ is_worn now rows.now }
{
    for place in 0..rows.len() {
        if rows.at(place).1.is_write() && MOST_VERSIONS <= seen.at(place).version {
            return true;
        }
    }
    false
}

/// The entries of the stripe's rows, and the others.
fn split(stripe: &Stripe, entries: &UpToThree<Entry>) -> (UpToThree<Entry>, UpToThree<Entry>)
    ensures within { result.0 ≡ entries_within stripe.now entries.now }
    ensures outside { result.1 ≡ entries_outside stripe.now entries.now }
{
    match entries.len() {
        0 => (UpToThree::new(), UpToThree::new()),
        1 => split_one(stripe, entries.at(0)),
        2 => split_two(stripe, entries.at(0), entries.at(1)),
        _ => split_three(stripe, entries.at(0), entries.at(1), entries.at(2)),
    }
}

fn split_one(stripe: &Stripe, one: Entry) -> (UpToThree<Entry>, UpToThree<Entry>)
    ensures within { result.0 ≡ entries_within stripe.now (one ∷ []) }
    ensures outside { result.1 ≡ entries_outside stripe.now (one ∷ []) }
{
    if stripe.has(one.row) {
        (UpToThree::one(one), UpToThree::new())
    } else {
        (UpToThree::new(), UpToThree::one(one))
    }
}

fn split_two(stripe: &Stripe, one: Entry, two: Entry) -> (UpToThree<Entry>, UpToThree<Entry>)
    ensures within { result.0 ≡ entries_within stripe.now (one ∷ two ∷ []) }
    ensures outside { result.1 ≡ entries_outside stripe.now (one ∷ two ∷ []) }
{
    match (stripe.has(one.row), stripe.has(two.row)) {
        (true, true) => (UpToThree::two(one, two), UpToThree::new()),
        (true, false) => (UpToThree::one(one), UpToThree::one(two)),
        (false, true) => (UpToThree::one(two), UpToThree::one(one)),
        (false, false) => (UpToThree::new(), UpToThree::two(one, two)),
    }
}

fn split_three(
    stripe: &Stripe,
    one: Entry,
    two: Entry,
    three: Entry,
) -> (UpToThree<Entry>, UpToThree<Entry>)
    ensures within { result.0 ≡ entries_within stripe.now (one ∷ two ∷ three ∷ []) }
    ensures outside { result.1 ≡ entries_outside stripe.now (one ∷ two ∷ three ∷ []) }
{
    match (
        stripe.has(one.row),
        stripe.has(two.row),
        stripe.has(three.row),
    ) {
        (true, true, true) => (UpToThree::three(one, two, three), UpToThree::new()),
        (true, true, false) => (UpToThree::two(one, two), UpToThree::one(three)),
        (true, false, true) => (UpToThree::two(one, three), UpToThree::one(two)),
        (true, false, false) => (UpToThree::one(one), UpToThree::two(two, three)),
        (false, true, true) => (UpToThree::two(two, three), UpToThree::one(one)),
        (false, true, false) => (UpToThree::one(two), UpToThree::two(one, three)),
        (false, false, true) => (UpToThree::one(three), UpToThree::two(one, two)),
        (false, false, false) => (UpToThree::new(), UpToThree::three(one, two, three)),
    }
}
