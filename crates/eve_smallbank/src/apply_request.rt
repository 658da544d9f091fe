//! A request on the balances of all customers.

ghost use Rattle.std.specs.Prelude.{◌≡◌, ◌<◌, ◌*◌, ℕ, length, map, take, All, Contains, slice_get};
ghost use Rattle.eve_smallbank.specs.SmallBank.{plain, does};
ghost use Rattle.eve_smallbank.specs.Access.{bank_of, balance_of_row, rows_of, written_rows};
ghost use Rattle.eve_smallbank.specs.inner.FromValues.{balances_after};

use crate::{Effect, Kind, Reply, Request, Touched, UpToThree, decide, touched};
use eve_accounts::{Balances, Cents, Names, Row};

/// Does the request, and returns its reply.
///
/// docs/MODEL.md, "Transactions". An abort changes nothing.
pub fn apply(balances: &mut Balances, names: &Names, request: &Request) -> Reply
    // Each name has its two rows.
    requires rows { length balances.old ≡ 2 * length names.now.items }

    // It makes the bank and the reply of SmallBank, and changes no row but those that the request writes.
    ensures does { does (bank_of names.now.items (balance_of_row balances.old)) (plain request.now)
        ≡ (bank_of names.now.items (balance_of_row balances.new), result) }
    ensures others { (row : ℕ) → ¬ Contains (written_rows (rows_of names.now.items (plain request.now))) row
        → slice_get balances.new row ≡ slice_get balances.old row }
    ensures as_many { length balances.new ≡ length balances.old }
{
    let reached = touched(request, names);
    match reached {
        Touched::Refused(_) => decide(request, &reached, &[]).reply,
        Touched::Rows(rows) => {
            let seen = values_in(balances, &rows);
            let decision = decide(request, &reached, &seen[..rows.len()]);
            write_back(balances, &rows, &decision.effects);
            decision.reply
        }
    }
}

/// The values of the rows, first in an array.
fn values_in(balances: &Balances, rows: &UpToThree<(Row, Kind)>) -> [Cents; 3]
    requires { All (λ r. r.0 < length balances.now) rows.now }
    ensures { take (length rows.now) result ≡ map (λ r. balance_of_row balances.now r.0) rows.now }
{
    let mut values = [Cents::ZERO; 3];
    for place in 0..rows.len() {
        values[place] = balances.get(rows.at(place).0);
    }
    values
}

fn write_back(balances: &mut Balances, rows: &UpToThree<(Row, Kind)>, effects: &UpToThree<Effect>)
    requires within { All (λ r. r.0 < length balances.old) rows.now }
    requires each { length effects.now ≡ length rows.now }
    ensures { balances.new ≡ balances_after balances.old rows.now effects.now }
{
    for place in 0..rows.len() {
        let effect = effects.at(place);
        match effect.kind {
            Kind::Read => {}
            Kind::Write => balances.set(rows.at(place).0, effect.after),
        }
    }
}
