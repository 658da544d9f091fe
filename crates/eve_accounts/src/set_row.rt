//! Rows that can be set.

ghost use Rattle.std.specs.Prelude.{◌≡◌, ◌<◌, ℤ, List, length, slice_set};

use crate::{Balances, Cents, Row};

/// Rows whose balances can be set one by one: balances, or what is kept beside them.
///
/// docs/MODEL.md, "Rows". One walk along records can write into either.
pub trait SetRow {
    // The balances in cents, in row order.
    ghost rows: { Self → List ℤ };

    /// Changes the balance of a row.
    fn set(&mut self, row: Row, balance: Cents)
        requires there { row < length (rows self.old) }
        ensures { rows self.new ≡ slice_set (rows self.old) row balance };
}

impl SetRow for Balances {
    ghost rows = { λ b. b };

    fn set(&mut self, row: Row, balance: Cents) {
        Balances::set(self, row, balance);
    }
}
