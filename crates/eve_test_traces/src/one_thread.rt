//! What SmallBank on one thread makes of a trace's batches, request after request.

use crate::histories::push_balances;
use crate::texts::{push_change, push_done, push_reply, push_request};
use eve_accounts::{Balances, Cents, MOST_NAMES, Names, Row};
use eve_smallbank::{Effect, Kind, Request, Touched, UpToThree, apply, decide, touched};
use eve_testing::Text;
use eve_views::Trace;
use std::alloc::{AllocError, Global};

/// Sets the balance of a row that is there.
fn open_row(balances: &mut Balances, row: Row, cents: Cents) {
    if (row.number() as usize) < balances.len() {
        balances.set(row, cents);
    }
}

/// The balances at which a trace opens.
pub fn opening_of(alloc: Global, trace: &Trace) -> Result<Balances, AllocError> {
    let customers = trace.customer_count();
    let mut balances = Balances::new(alloc, 2 * customers as usize)?;
    for customer in 0..customers {
        let view = trace.customer(customer);
        if customer >= MOST_NAMES {
            break;
        }
        open_row(&mut balances, Row::saving(customer), view.saving());
        open_row(&mut balances, Row::checking(customer), view.checking());
    }
    Ok(balances)
}

/// The balances of the rows that are there.
fn seen_of(rows: &UpToThree<(Row, Kind)>, balances: &Balances) -> [Cents; 3] {
    let mut seen = [Cents::ZERO; 3];
    for place in 0..rows.len() {
        let (row, _) = rows.at(place);
        if (row.number() as usize) < balances.len() {
            seen[place] = balances.get(row);
        }
    }
    seen
}

fn push_effect(text: &mut Text, row: Row, seen: Cents, effect: Effect) {
    push_done(text, effect.kind, row);
    push_change(text, seen, effect.after);
}

/// What `decide` makes of the rows that a request touches: the reply, and of each row what is done, from which value to
/// which.
fn push_decision(text: &mut Text, names: &Names, balances: &Balances, request: &Request) {
    let reached = touched(request, names);
    let rows = reached.rows();
    let seen = seen_of(&rows, balances);
    let decision = decide(request, &reached, &seen[..rows.len()]);
    push_reply(text, decision.reply);
    if decision.effects.is_empty() {
        text.words(", no row");
    }
    for place in 0..rows.len() {
        let (row, _) = rows.at(place);
        push_effect(text, row, seen[place], decision.effects.at(place));
    }
}

/// One request: what is decided of it, and the reply that `apply` makes.
fn push_served(text: &mut Text, names: &Names, balances: &mut Balances, request: &Request) {
    if balances.len() != 2 * names.len() as usize {
        return;
    }
    text.words("\n  ");
    push_request(text, request);
    text.words(": ");
    push_decision(text, names, balances, request);
    let reply = apply(balances, names, request);
    text.words("; ");
    push_reply(text, reply);
}

/// All requests of all batches, one after another.
fn push_batches(text: &mut Text, trace: &Trace, names: &Names, balances: &mut Balances) {
    for n in 0..trace.batch_count() {
        for asked in trace.batch(n + 1).requests() {
            push_served(text, names, balances, &asked.request);
        }
    }
}

/// The balances at the opening, what is made of all requests of all batches, one after another, and the balances after
/// them.
pub fn push_run(text: &mut Text, alloc: Global, trace: &Trace, names: &Names) {
    match opening_of(alloc, trace) {
        Ok(mut balances) => {
            push_balances(text, "\n balances", &balances);
            push_batches(text, trace, names, &mut balances);
            push_balances(text, "\n balances", &balances);
        }
        Err(_) => text.refused(),
    }
}
