//! Where a customer's balances stand.

ghost use Rattle.std.specs.Prelude.{◌≡◌, ◌<◌};
ghost use Rattle.eve_accounts.specs.Rows.{saving_row, checking_row};

use crate::limits::{MOST_NAMED_ROWS, MOST_NAMES};
use std::marker::Model;

/// The row of one balance: customer c, counted from 0, has the saving row 2c and the checking row 2c + 1.
///
/// docs/MODEL.md, "Rows". Contracts see it as its number.
#[derive(Clone, Copy, PartialEq, Eq)]
pub struct Row {
    number: u32,
}

impl Model for Row {
    ghost use Rattle.std.specs.Prelude.{ℕ, ◌<◌};
    ghost use Rattle.eve_accounts.specs.declared.limits.TheConstants.{MOST_NAMED_ROWS};

    ghost Value = { ℕ };

    ghost view = { λ r. r.number };

    ghost invariant = { λ r. r.number < MOST_NAMED_ROWS };

    ghost inverse = { λ n. record { number = n } };
}

impl Row {
    /// The row of the customer's saving balance.
    pub fn saving(customer: u32) -> Row
        requires { customer < MOST_NAMES }
        ensures { result ≡ saving_row customer }
    {
        Row {
            number: 2 * customer,
        }
    }

    /// The row of the customer's checking balance.
    pub fn checking(customer: u32) -> Row
        requires { customer < MOST_NAMES }
        ensures { result ≡ checking_row customer }
    {
        Row {
            number: 2 * customer + 1,
        }
    }

    /// Its number, from 0.
    pub fn number(self) -> u32
        ensures number { result ≡ self }
        ensures range { result < MOST_NAMED_ROWS }
    {
        self.number
    }
}
