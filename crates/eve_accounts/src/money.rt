//! Money in cents.

ghost use Rattle.std.specs.Prelude.{◌≡◌, IsTrue};
ghost use Rattle.eve_accounts.specs.Money.{is_balance, is_amount, balance_of, amount_of};

use crate::limits::{MOST_AMOUNT, MOST_BALANCE};
use std::marker::Model;

/// A balance in cents, within 10^15 of zero.
///
/// docs/MODEL.md, "Money". Contracts see it as a whole number.
#[derive(Clone, Copy, PartialEq, Eq)]
pub struct Cents {
    value: i64,
}

impl Model for Cents {
    ghost use Rattle.std.specs.Prelude.{ℤ, IsTrue};
    ghost use Rattle.eve_accounts.specs.Money.{is_balance};

    ghost Value = { ℤ };

    ghost view = { λ c. c.value };

    ghost invariant = { λ c. IsTrue (is_balance c.value) };

    ghost inverse = { λ z. record { value = z } };
}

impl Cents {
    /// No cents.
    pub const ZERO: Cents = Cents { value: 0 };

    /// The balance of this number of cents, or `None` outside the range.
    pub fn new(value: i64) -> Option<Cents>
        ensures { result ≡ balance_of value }
    {
        if -MOST_BALANCE <= value && value <= MOST_BALANCE {
            Some(Cents { value })
        } else {
            None
        }
    }

    /// The balance of this number of cents, which is within the range.
    pub fn of(value: i64) -> Cents
        requires { IsTrue (is_balance value) }
        ensures { result ≡ value }
    {
        Cents { value }
    }

    /// How many cents it is.
    pub fn get(self) -> i64
        ensures value { result ≡ self }
        ensures range { IsTrue (is_balance result) }
    {
        self.value
    }
}

/// What a transaction moves, in cents, within 10^12 of zero.
///
/// docs/MODEL.md, "Money". Contracts see it as a whole number.
#[derive(Clone, Copy)]
pub struct Amount {
    cents: i64,
}

impl Model for Amount {
    ghost use Rattle.std.specs.Prelude.{ℤ, IsTrue};
    ghost use Rattle.eve_accounts.specs.Money.{is_amount};

    ghost Value = { ℤ };

    ghost view = { λ a. a.cents };

    ghost invariant = { λ a. IsTrue (is_amount a.cents) };

    ghost inverse = { λ z. record { cents = z } };
}

impl Amount {
    /// The amount of this number of cents, or `None` outside the range.
    pub fn new(cents: i64) -> Option<Amount>
        ensures { result ≡ amount_of cents }
    {
        if -MOST_AMOUNT <= cents && cents <= MOST_AMOUNT {
            Some(Amount { cents })
        } else {
            None
        }
    }

    /// The amount of this number of cents, which is within the range.
    pub fn of(cents: i64) -> Amount
        requires { IsTrue (is_amount cents) }
        ensures { result ≡ cents }
    {
        Amount { cents }
    }

    /// How many cents it is.
    pub fn get(self) -> i64
        ensures value { result ≡ self }
        ensures range { IsTrue (is_amount result) }
    {
        self.cents
    }
}
