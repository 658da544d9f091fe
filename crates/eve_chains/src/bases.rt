//! What rows have at first, and after each state that was transferred.

ghost use Rattle.std.specs.Prelude.{◌≡◌, [], map, pos, slice_index_or};
ghost use Rattle.eve_smallbank.specs.Access.{balance_of_row};
ghost use Rattle.eve_frames.specs.Decoded.{transfer_decoded};
ghost use Rattle.eve_chains.specs.inner.Bases.{base_at};
ghost use Rattle.eve_chains.specs.Visible.{transferred_table};

use eve_accounts::{Balances, Cents, Row};
use eve_frames::TransferView;
use eve_history::History;
use eve_smallbank::Versioned;

/// What the rows' walks go back to where more states were transferred. Nothing is kept of it row by row: a state is
/// read where it lies.
#[derive(Clone, Copy)]
pub struct Bases<'b, 'a> {
    /// The opening balances.
    pub opening: &'b Balances,
    /// The replica's history, with the states that were transferred to it.
    pub history: &'b History<'a>,
}

impl<'b, 'a> Bases<'b, 'a> {
    /// What a row has after this many states: the opening balance after none, and else what the last of them has. Past
    /// the end it is version 0 and value 0.
    pub fn row(&self, row: Row, transferred: u32) -> Versioned
        ensures { result ≡ base_at self.now row transferred }
    {
        if transferred == 0 {
            return opening_row(self.opening, row.number() as usize);
        }
        state_row(self.history, transferred as usize - 1, row)
    }
}

/// What the row with this number has at first.
fn opening_row(opening: &Balances, number: usize) -> Versioned
    ensures { result ≡ record { version = 0; value = balance_of_row opening.now number } }
{
    let value = if number < opening.len() {
        opening.as_slice()[number]
    } else {
        Cents::ZERO
    };
    Versioned { version: 0, value }
}

/// What it has in the state at this place.
fn state_row(history: &History<'_>, k: usize, row: Row) -> Versioned
    ensures { result ≡ transferred_table (slice_index_or (map (λ x. x.1.rows) history.now.transfers) k []) row }
{
    if k < history.transfers() {
        row_in(&history.transfer(k), row)
    } else {
        nothing()
    }
}

/// What a row has in a state that was transferred: version 0 and value 0 past its end.
///
/// docs/MODEL.md, "What an entry must see".
pub fn row_in(state: &TransferView<'_>, row: Row) -> Versioned
    ensures { result ≡ transferred_table (transfer_decoded state.now).rows row }
{
    let number = row.number() as usize;
    if number < state.len() {
        state.row(number)
    } else {
        nothing()
    }
}

/// What it has past the end.
fn nothing() -> Versioned
    ensures { result ≡ record { version = 0; value = pos 0 } }
{
    Versioned {
        version: 0,
        value: Cents::ZERO,
    }
}
