//! The stripes of an opening.

ghost use Rattle.std.specs.Prelude.{◌≡◌, ◌*◌, ◌≤◌, ◌<◌, IfOk, length, None, []};
ghost use Rattle.eve_stamps.specs.OpeningRows.{opening_row, rows_of_stripe};

use crate::limits::STRIPES;
use crate::{HeldRow, Stripe};
use eve_accounts::{Balances, MOST_NAMES, Row};
use std::alloc::{AllocError, Global};

/// The stripe with this number, for the given number of customers: its rows at version 0, with their opening balances.
pub fn opening_stripe(
    alloc: Global,
    balances: &Balances,
    stripe: u32,
    customers: u32,
) -> Result<Stripe, AllocError>
    requires few { customers ≤ MOST_NAMES }
    requires rows { length balances.now ≡ 2 * customers }
    ensures { IfOk result (λ s.
        s ≡ record { base = rows_of_stripe balances.now stripe customers; journal = []; greatest = None }) }
{
    let rows = opening_rows(alloc, balances, stripe, customers)?;
    Stripe::new(alloc, rows.as_slice())
}

/// The stripe's rows for the given number of customers, at version 0 with their opening balances.
fn opening_rows(
    alloc: Global,
    balances: &Balances,
    stripe: u32,
    customers: u32,
) -> Result<Vec<HeldRow>, AllocError>
    requires few { customers ≤ MOST_NAMES }
    requires rows { length balances.now ≡ 2 * customers }
    ensures { IfOk result (λ rows. rows.items ≡ rows_of_stripe balances.now stripe customers) }
{
    let mut rows = Vec::new(alloc);
    for customer in 0..customers {
        if customer % STRIPES == stripe {
            let saving = opening_row(balances, Row::saving(customer));
            let checking = opening_row(balances, Row::checking(customer));
            rows.extend_from_slice(&[saving, checking])?;
        }
    }
    Ok(rows)
}

fn opening_row(balances: &Balances, row: Row) -> HeldRow
    requires there { row < length balances.now }
    ensures { result ≡ opening_row balances.now row }
{
    HeldRow {
        row,
        version: 0,
        value: balances.get(row),
    }
}
