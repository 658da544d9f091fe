//! Customers and batches, in few words.

use eve_accounts::{Amount, Balances, Cents, Name, Names, Row};
use eve_stamps::MOST_PLACES;
use eve_stamps_schedule::Schedule;
use eve_write::{BatchData, RequestData, TransactionData};
use std::alloc::{AllocError, Global};
use std::hash::RandomState;

/// The names of all customers, one letter each.
const LETTERS: &[u8] = b"abcdefghijklmnopqrst";

/// The name of a customer, by number; past the last customer one that nobody has.
pub(crate) fn name_of(customer: u8) -> &'static [u8] {
    let place = customer as usize;
    if place < LETTERS.len() {
        &LETTERS[place..place + 1]
    } else {
        b"nobody"
    }
}

/// So many customers; fewer where memory is refused.
pub(crate) fn names(alloc: Global, random: RandomState, customers: u8) -> Names<'static> {
    let mut names = Names::new(alloc, random, 100);
    for customer in 0..customers {
        if names.add(name_of(customer)).is_err() {
            break;
        }
    }
    names
}

/// The row with this number: each customer's saving row comes before the checking row.
pub(crate) fn row_of(number: u16) -> Row {
    let customer = u32::from(number) / 2;
    if number % 2 == 0 {
        Row::saving(customer)
    } else {
        Row::checking(customer)
    }
}

/// So many cents; none where no balance is so great.
pub(crate) fn cents(value: i64) -> Cents {
    match Cents::new(value) {
        Some(cents) => cents,
        None => Cents::ZERO,
    }
}

/// What is asked for, with customers by number.
#[derive(Clone, Copy)]
pub(crate) enum Ask {
    Deposit(u8, i64),
    Amalgamate(u8, u8),
}

/// What is asked for, as a transaction.
fn transaction(ask: &Ask) -> TransactionData {
    match *ask {
        Ask::Deposit(customer, value) => {
            TransactionData::DepositChecking(name(customer), amount(value))
        }
        Ask::Amalgamate(from, to) => TransactionData::Amalgamate(name(from), name(to)),
    }
}

fn name(customer: u8) -> Name {
    match Name::new(name_of(customer)) {
        Some(name) => name,
        None => Name::of(b"nobody"),
    }
}

/// The amount of `value` cents; none where no amount is so great.
fn amount(value: i64) -> Amount {
    match Amount::new(value) {
        Some(amount) => amount,
        None => Amount::of(0),
    }
}

/// What a schedule begins with: the customers, the balances by row, the sizes of the parallelBatches, what is asked
/// for, and how many workers there are.
#[derive(Clone, Copy)]
pub(crate) struct Given<'a> {
    pub customers: u8,
    pub workers: u8,
    pub values: &'a [i64],
    pub sizes: &'a [u16],
    pub asks: &'a [Ask],
}

/// Customers with their balances, and a batch. Where memory is refused for the batch, `is_whole` says so.
#[derive(Drop)]
pub(crate) struct Plan {
    names: Names<'static>,
    balances: Balances,
    batch: BatchData,
    is_whole: bool,
}

impl Plan {
    /// Sets these balances, by row.
    fn set_all(&mut self, values: &[i64]) {
        let mut number: u16 = 0;
        for value in values {
            let row = row_of(number);
            if (row.number() as usize) < self.balances.len() {
                self.balances.set(row, cents(*value));
            }
            number = number.wrapping_add(1);
        }
    }

    /// Sets the balances, and adds the parallelBatches and what is asked for, numbered from 0.
    fn fill(&mut self, given: &Given<'_>) {
        self.set_all(given.values);
        self.is_whole &= self.batch.sizes.extend_from_slice(given.sizes).is_ok();
        for ask in given.asks {
            let request = RequestData {
                client: 7,
                number: self.batch.requests.len() as u64,
                transaction: transaction(ask),
            };
            self.is_whole &= self.batch.requests.push(request).is_ok();
        }
    }
}

/// The customers, with their balances and their batch.
pub(crate) fn plan_of(
    alloc: Global,
    random: RandomState,
    given: &Given<'_>,
) -> Result<Plan, AllocError> {
    let balances = Balances::new(alloc, given.values.len())?;
    let mut plan = Plan {
        names: names(alloc, random, given.customers),
        balances,
        batch: BatchData {
            sizes: Vec::new(alloc),
            requests: Vec::new(alloc),
        },
        is_whole: true,
    };
    plan.fill(given);
    Ok(plan)
}

/// The plan's batch, to be executed by its workers. Where no memory was left, it is asked for once more.
pub(crate) fn opened<'s>(
    alloc: Global,
    plan: &'s Plan,
    workers: u8,
) -> Result<Schedule<'s>, AllocError> {
    let Plan {
        names,
        balances,
        batch,
        is_whole,
    } = plan;
    if !*is_whole || MOST_PLACES <= batch.requests.len() || balances.len() != 2 * names.len() {
        return Err(AllocError);
    }
    match Schedule::new(alloc, names, balances, batch, workers) {
        Err(AllocError) => Schedule::new(alloc, names, balances, batch, workers),
        schedule => schedule,
    }
}
