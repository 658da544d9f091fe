//! Customers, their rows, and batches.

ghost use Rattle.std.specs.Prelude.{IfOk};
ghost use Rattle.eve_stamps.specs.Stripes.{HaveRightVersions};

use eve_accounts::{Amount, Balances, Cents, Name, Names, Row};
use eve_floor::Floor;
use eve_grammar::TransferData;
use eve_smallbank::Versioned;
use eve_testing::Text;
use eve_write::{BatchData, RequestData, TransactionData};
use std::alloc::{AllocError, Global};
use std::hash::RandomState;

/// Seventeen customers, `a` to `q`: the first and the last of them lie in one stripe. Those that there is memory for.
pub fn customers(alloc: Global, random: RandomState, text: &mut Text) -> Names<'static> {
    let mut names = Names::new(alloc, random, 32);
    for name in b"abcdefghijklmnopq".chunks(1) {
        if names.add(name).is_err() {
            text.refused();
        }
    }
    names
}

/// A floor where the first customer has saved 3 cents, and nobody has anything else.
pub fn floor_of<'n>(alloc: Global, names: &'n Names<'n>) -> Result<Floor<'n>, AllocError> {
    let mut balances = Balances::new(alloc, 2 * names.len())?;
    if !balances.is_empty() {
        balances.set(Row::saving(0), Cents::of(3));
    }
    Floor::new(alloc, names, &balances)
}

/// A state of seventeen customers in which each row was written three times and has 30 cents.
pub fn state_of(alloc: Global) -> Result<TransferData, AllocError>
    ensures { IfOk result (λ state. HaveRightVersions state.rows.items) }
{
    let row = Versioned {
        version: 3,
        value: Cents::of(30),
    };
    Ok(TransferData {
        seq: 2,
        view: 0,
        rows: Vec::from_slice(alloc, &[row; 34])?,
    })
}

/// What is asked for: 5 cents are deposited for a customer, or all that one has is moved to another.
#[derive(Clone, Copy)]
pub enum Ask {
    Deposit(&'static [u8]),
    Move(&'static [u8], &'static [u8]),
}

/// A batch of these requests, of those that there is memory for.
pub fn batch_of(alloc: Global, asks: &[Ask], text: &mut Text) -> BatchData {
    let mut requests = Vec::new(alloc);
    for ask in asks {
        if let Some(transaction) = transaction_of(*ask) {
            let request = RequestData {
                client: 7,
                number: 1,
                transaction,
            };
            if requests.push(request).is_err() {
                text.refused();
            }
        }
    }
    BatchData {
        sizes: Vec::new(alloc),
        requests,
    }
}

/// What is asked for, of customers whose names are names.
fn transaction_of(ask: Ask) -> Option<TransactionData> {
    match ask {
        Ask::Deposit(to) => {
            let to = Name::new(to)?;
            Some(TransactionData::DepositChecking(to, Amount::of(5)))
        }
        Ask::Move(from, to) => {
            let from = Name::new(from)?;
            let to = Name::new(to)?;
            Some(TransactionData::Amalgamate(from, to))
        }
    }
}
