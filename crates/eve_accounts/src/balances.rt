//! The balances of all customers.

ghost use Rattle.std.specs.Prelude.{◌≡◌, ◌<◌, ◌↔◌, pos, length, replicate, slice_get, slice_set, All, Some, IsTrue};
ghost use Rattle.std.specs.Prelude.{IfOk};
ghost use Rattle.eve_accounts.specs.Money.{is_balance};

use crate::{Cents, Row};
use std::alloc::{AllocError, Global};
use std::marker::Model;

/// One balance for each row, by its number.
///
/// docs/MODEL.md, "Rows". Contracts see it as the list of the balances in cents.
#[derive(Drop)]
pub struct Balances {
    cents: Vec<Cents>,
}

impl Model for Balances {
    ghost use Rattle.std.specs.Prelude.{ℤ, List, All, IsTrue};
    ghost use Rattle.eve_accounts.specs.Money.{is_balance};

    ghost Value = { List ℤ };

    ghost view = { λ b. b.cents.items };

    ghost invariant = { λ b. All (λ z. IsTrue (is_balance z)) b.cents.items };
}

impl Balances {
    /// `rows` rows, with 0 in each.
    pub fn new(alloc: Global, rows: usize) -> Result<Balances, AllocError>
        ensures { IfOk result (λ balances. balances ≡ replicate rows (pos 0)) }
    {
        Ok(Balances {
            cents: vec![in alloc; Cents::ZERO; rows]?,
        })
    }

    /// The same balances, in memory of their own.
    pub fn copy(&self, alloc: Global) -> Result<Balances, AllocError>
        ensures { IfOk result (λ balances. balances ≡ self.now) }
    {
        Ok(Balances {
            cents: self.cents.to_vec(alloc)?,
        })
    }

    /// The balance of a row.
    pub fn get(&self, row: Row) -> Cents
        requires there { row < length self.now }
        ensures { slice_get self.now row ≡ Some result }
    {
        self.cents[row.number() as usize]
    }

    /// Changes the balance of a row.
    pub fn set(&mut self, row: Row, balance: Cents)
        requires there { row < length self.old }
        ensures { self.new ≡ slice_set self.old row balance }
    {
        self.cents[row.number() as usize] = balance;
    }

    /// All balances, in row order.
    pub fn as_slice(&self) -> &[Cents]
        ensures { result.now ≡ self.now }
    {
        self.cents.as_slice()
    }

    /// How many rows there are.
    pub fn len(&self) -> usize
        ensures len { result ≡ length self.now }
        ensures balances { All (λ z. IsTrue (is_balance z)) self.now }
    {
        self.cents.len()
    }

    /// Whether there are no rows.
    pub fn is_empty(&self) -> bool
        ensures { IsTrue result ↔ (length self.now ≡ 0) }
    {
        self.cents.is_empty()
    }
}
