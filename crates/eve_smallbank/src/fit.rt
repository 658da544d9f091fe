//! Whether a reply and entries fit a request.

ghost use Rattle.std.specs.Prelude.{◌≡◌, ℕ, List, length, map, take};
ghost use Rattle.std.specs.Bool.{Decides};
ghost use Rattle.eve_smallbank.specs.SmallBank.{plain};
ghost use Rattle.eve_smallbank.specs.Access.{Fits};
ghost use Rattle.eve_smallbank.specs.Touch.{touched_of};
ghost use Rattle.eve_smallbank.specs.inner.Recorded.{noted_from, HasEffect};

use crate::{Effect, Entry, Kind, Reply, Request, Touched, UpToThree, decide};
use eve_accounts::{Cents, Row};

/// Whether the reply and the entries that were noted of a request are what it does to each bank of the
/// customers that has the values seen.
///
/// docs/MODEL.md, "A record fits its request". `touched` is the answer of `touched` for this request.
/// Decides F30 Record.
pub fn fits(request: &Request, touched: &Touched, reply: Reply, entries: &UpToThree<Entry>) -> bool
    requires { (names : List (List ℕ)) × (touched.now ≡ touched_of names (plain request.now)) }
    ensures { (names : List (List ℕ)) → touched.now ≡ touched_of names (plain request.now)
        → Decides result (Fits names (record { request = plain request.now; reply = reply; entries = entries.now })) }
{
    let rows = touched.rows();
    if entries.len() != rows.len() {
        return false;
    }
    let seen = values_seen(entries);
    let decision = decide(request, touched, &seen[..rows.len()]);
    is_same(decision.reply, reply) && are_noted(entries, &rows, &decision.effects)
}

fn is_same(reply: Reply, other: Reply) -> bool
    ensures { Decides result (reply ≡ other) }
{
    reply == other
}

/// The values that the entries saw, first in an array.
#[inline(always)]
fn values_seen(entries: &UpToThree<Entry>) -> [Cents; 3]
    ensures { take (length entries.now) result ≡ map (λ e. e.seen) entries.now }
{
    match entries.len() {
        0 => [Cents::ZERO; 3],
        1 => [entries.at(0).seen, Cents::ZERO, Cents::ZERO],
        2 => [entries.at(0).seen, entries.at(1).seen, Cents::ZERO],
        _ => [entries.at(0).seen, entries.at(1).seen, entries.at(2).seen],
    }
}

/// Whether the entries are of these rows with these effects, one for each.
#[inline(always)]
fn are_noted(
    entries: &UpToThree<Entry>,
    rows: &UpToThree<(Row, Kind)>,
    effects: &UpToThree<Effect>,
) -> bool
    requires entries { length entries.now ≡ length rows.now }
    requires effects { length effects.now ≡ length rows.now }
    ensures { Decides result (entries.now ≡ noted_from rows.now entries.now effects.now) }
{
    for place in 0..rows.len() {
        if !is_noted(&entries.at(place), rows.at(place).0, &effects.at(place)) {
            return false;
        }
    }
    true
}

#[inline(always)]
fn is_noted(entry: &Entry, row: Row, effect: &Effect) -> bool
    ensures { Decides result (HasEffect row entry.now effect.now) }
{
    entry.row == row && entry.kind == effect.kind && entry.after == effect.after
}
