//! What a request does to the rows that it sees.

ghost use Rattle.std.specs.Prelude.{◌≡◌, ◌<◌, ℕ, Bool, true, false, List, Some, length, map, take, slice_get};
ghost use Rattle.std.specs.List.{list_all, AllByRecursion};
ghost use Rattle.eve_smallbank.specs.SmallBank.{plain};
ghost use Rattle.eve_smallbank.specs.Chain.{Table};
ghost use Rattle.eve_smallbank.specs.Touch.{touched_of, rows_in};
ghost use Rattle.eve_smallbank.specs.Execution.{executed_on};
ghost use Rattle.eve_stamps.specs.Stripes.{row_in};
ghost use Rattle.eve_stamps.specs.HeldRows.{entries_on, CanBeNoted};
ghost use Rattle.eve_stamps.specs.Requests.{is_worn};

use crate::HeldRow;
use eve_accounts::Cents;
use eve_smallbank::{Effect, Entry, Reply, Request, Touched, UpToThree, decide, laws};

/// The request's reply and its entries where it sees these rows.
pub fn executed(
    request: &Request,
    touched: &Touched,
    seen: &UpToThree<HeldRow>,
) -> (Reply, UpToThree<Entry>)
    requires touched { (names : List (List ℕ)) × (touched.now ≡ touched_of names (plain request.now)) }
    requires seen { length seen.now ≡ length (rows_in touched.now) }
    ensures exact { (names : List (List ℕ)) (table : Table) → touched.now ≡ touched_of names (plain request.now)
        → seen.now ≡ map (λ r. row_in table r.0) (rows_in touched.now)
        → executed_on names table (plain request.now)
        ≡ record { request = plain request.now; reply = result.0; entries = result.1 } }
    ensures noted { (is_there : ℕ → Bool) (table : Table) → seen.now ≡ map (λ r. row_in table r.0) (rows_in touched.now)
        → list_all (λ r. is_there r.0) (rows_in touched.now) ≡ true → is_worn table (rows_in touched.now) ≡ false
        → AllByRecursion (CanBeNoted is_there table) result.1 }
{
    laws::requests_fit();
    laws::fitting_records_are_unique();
    laws::fitting_records_touch_their_rows();
    let values = values_in(seen);
    let decision = decide(request, touched, &values[..seen.len()]);
    (decision.reply, entries_of(seen, &decision.effects))
}

/// The values of the rows, at the beginning of an array.
fn values_in(seen: &UpToThree<HeldRow>) -> [Cents; 3]
    ensures { take (length seen.now) result ≡ map (λ r. r.value) seen.now }
{
    match seen.len() {
        0 => [Cents::ZERO; 3],
        1 => [seen.at(0).value, Cents::ZERO, Cents::ZERO],
        2 => [seen.at(0).value, seen.at(1).value, Cents::ZERO],
        _ => [seen.at(0).value, seen.at(1).value, seen.at(2).value],
    }
}

/// An entry for each row.
fn entries_of(seen: &UpToThree<HeldRow>, effects: &UpToThree<Effect>) -> UpToThree<Entry>
    requires { length effects.now ≡ length seen.now }
    ensures { result ≡ entries_on seen.now effects.now }
{
    match seen.len() {
        0 => UpToThree::new(),
        1 => UpToThree::one(entry_at(seen, effects, 0)),
        2 => UpToThree::two(entry_at(seen, effects, 0), entry_at(seen, effects, 1)),
        _ => UpToThree::three(
            entry_at(seen, effects, 0),
            entry_at(seen, effects, 1),
            entry_at(seen, effects, 2),
        ),
    }
}

/// The entry for the row at that place.
fn entry_at(seen: &UpToThree<HeldRow>, effects: &UpToThree<Effect>, place: usize) -> Entry
    requires each { length effects.now ≡ length seen.now }
    requires there { place < length seen.now }
    ensures { slice_get (entries_on seen.now effects.now) place ≡ Some result }
{
    let held = seen.at(place);
    let effect = effects.at(place);
    Entry {
        row: held.row,
        kind: effect.kind,
        version: held.version,
        seen: held.value,
        after: effect.after,
    }
}
