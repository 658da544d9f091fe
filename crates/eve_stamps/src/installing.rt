//! A state that is transferred to a stripe.

ghost use Rattle.std.specs.Prelude.{◌≡◌, map};
ghost use Rattle.eve_grammar.specs.Bodies.{transfer as plain};
ghost use Rattle.eve_stamps.specs.Stripes.{HaveRightVersions, row_installed, installed};

use crate::{HeldRow, Stripe};
use eve_grammar::TransferData;
use eve_smallbank::Versioned;

impl Stripe {
    /// Applies a state: each row of the stripe that the state has gets its version and its value, in the committed
    /// base and as the row is now. The journal is empty then, and the greatest tick stays. It takes no memory.
    ///
    /// docs/DEPLOYMENT.md, "Stripe". No version of the state is above `MOST_VERSIONS`.
    pub fn install(&mut self, transfer: &TransferData)
        requires versions { HaveRightVersions (plain transfer.now).rows }
        ensures { self.new ≡ installed (plain transfer.now).rows self.old }
    {
        install_rows(&mut self.base, &transfer.rows);
        self.rows.copy_from_slice(&self.base);
        self.journal.clear();
    }
}

/// Gives each row the version and the value that it has among these, which are listed by number. Other rows stay.
fn install_rows(rows: &mut [HeldRow], from: &[Versioned])
    ensures { rows.new ≡ map (row_installed from.now) rows.old }
{
    for held in rows.iter_mut() {
        *held = row_installed(*held, from);
    }
}

/// The row as it is among these, or as it was where it is none of them.
fn row_installed(held: HeldRow, from: &[Versioned]) -> HeldRow
    ensures { result ≡ row_installed from.now held }
{
    match from.get(held.row.number() as usize) {
        Some(versioned) => HeldRow {
            row: held.row,
            version: versioned.version,
            value: versioned.value,
        },
        None => held,
    }
}
