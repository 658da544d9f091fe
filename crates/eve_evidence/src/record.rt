//! A record that doesn't fit its request.

ghost use Rattle.std.specs.Prelude.{◌≡◌, ℕ, List, IfSome, IfNone, length, map, take};
ghost use Rattle.std.specs.Bool.{Decides};
ghost use Rattle.eve_smallbank.specs.SmallBank.{plain};
ghost use Rattle.eve_smallbank.specs.Access.{Executed, Fits};
ghost use Rattle.eve_smallbank.specs.Decide.{effect_in};
ghost use Rattle.eve_grammar.specs.Trace.{Trace as TraceValue};
ghost use Rattle.eve_frames.specs.Decoded.{access_decoded};
ghost use Rattle.eve_chains.specs.Records.{recorded};
ghost use Rattle.eve_evidence.specs.Record.{IsRecordFault, IsDueRecord, touched_rows, rows_noted};

use crate::evidence::RecordFault;
use crate::told::told_row;
use eve_accounts::{Cents, Names, Row};
use eve_frames::AccessView;
use eve_smallbank::{Effect, Kind, Reply, Request, UpToThree, decide, touched};
use eve_views::Trace;

/// The first entry of another row than its request touches there, if one is.
fn row_fault<'a>(
    trace: &Trace<'a>,
    access: &AccessView<'_>,
    rows: &UpToThree<(Row, Kind)>,
) -> Option<RecordFault<'a>>
    requires { length (access_decoded access.now).entries ≡ length rows.now }
    ensures told { IfSome result (λ w. (names : List (List ℕ)) (x : Executed)
        → x.entries ≡ (access_decoded access.now).entries → touched_rows names x.request ≡ map (λ r. r.0) rows.now
        → IsRecordFault trace.now names x w) }
    ensures same { IfNone result (rows_noted (access_decoded access.now).entries ≡ map (λ r. r.0) rows.now) }
{
    for i in 0..access.len() {
        let entry = access.entry(i);
        let due = rows.at(i);
        let number = entry.row.number();
        let wanted = due.0.number();
        if number != wanted {
            return Some(RecordFault::Row {
                entry: i as u8,
                found: told_row(trace, entry.row),
                due: told_row(trace, due.0),
            });
        }
    }
    None
}

/// The first entry of another kind than is due, or that leaves another value, if one does.
fn effect_fault<'a>(access: &AccessView<'_>, effects: &UpToThree<Effect>) -> Option<RecordFault<'a>>
    requires { length (access_decoded access.now).entries ≡ length effects.now }
    ensures told { IfSome result (λ w. (t : TraceValue) (names : List (List ℕ)) (x due : Executed)
        → x.entries ≡ (access_decoded access.now).entries → IsDueRecord names x due
        → map effect_in due.entries ≡ effects.now → IsRecordFault t names x w) }
    ensures same { IfNone result (map effect_in (access_decoded access.now).entries ≡ effects.now) }
{
    for i in 0..access.len() {
        let entry = access.entry(i);
        let due = effects.at(i);
        let writes = entry.kind.is_write();
        let wanted = due.kind.is_write();
        if writes != wanted {
            return Some(RecordFault::Kind {
                entry: i as u8,
                found: entry.kind,
                due: due.kind,
            });
        }
        if !is_same_value(entry.after, due.after) {
            return Some(RecordFault::After {
                entry: i as u8,
                found: entry.after,
                due: due.after,
            });
        }
    }
    None
}

/// The values that the entries saw, first in an array.
fn values_seen(access: &AccessView<'_>) -> [Cents; 3]
    ensures { take (length (access_decoded access.now).entries) result ≡ map (λ e. e.seen)
        (access_decoded access.now).entries }
{
    match access.len() {
        0 => [Cents::ZERO; 3],
        1 => {
            let only = access.entry(0);
            [only.seen, Cents::ZERO, Cents::ZERO]
        }
        2 => {
            let first = access.entry(0);
            let second = access.entry(1);
            [first.seen, second.seen, Cents::ZERO]
        }
        _ => {
            let left = access.entry(0);
            let middle = access.entry(1);
            let right = access.entry(2);
            [left.seen, middle.seen, right.seen]
        }
    }
}

/// The first thing in which a record differs from what its request must note, given what its entries saw, if it does.
///
/// docs/MODEL.md, "A record fits its request".
pub fn record_fault<'a>(
    trace: &Trace<'a>,
    names: &Names<'_>,
    request: &Request<'a>,
    reply: Reply,
    access: &AccessView<'_>,
) -> Option<RecordFault<'a>>
    ensures told { IfSome result (IsRecordFault trace.now names.now.items
        (recorded (plain request.now) reply (access_decoded access.now).entries)) }
    ensures fits { IfNone result (Fits names.now.items
        (recorded (plain request.now) reply (access_decoded access.now).entries)) }
{
    let touched = touched(request, names);
    let rows = touched.rows();
    let count = access.len();
    if count != rows.len() {
        return Some(RecordFault::Entries {
            found: count as u8,
            due: rows.len() as u8,
        });
    }
    let wrong = row_fault(trace, access, &rows);
    if wrong.is_some() {
        return wrong;
    }
    let seen = values_seen(access);
    let decision = decide(request, &touched, &seen[..count]);
    let wrong = effect_fault(access, &decision.effects);
    if wrong.is_some() {
        return wrong;
    }
    if is_same(decision.reply, reply) {
        return None;
    }
    Some(RecordFault::Reply {
        found: reply,
        due: decision.reply,
    })
}

/// Whether two values are the same.
fn is_same_value(value: Cents, other: Cents) -> bool
    ensures { Decides result (value ≡ other) }
{
    value == other
}

/// Whether two replies are the same.
fn is_same(reply: Reply, other: Reply) -> bool
    ensures { Decides result (reply ≡ other) }
{
    reply == other
}
