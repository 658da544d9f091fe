//! What a workload begins with, and its batches.

ghost use Rattle.std.specs.Prelude.{◌*◌, ◌<◌, ◌≤◌, IsTrue, IfOk, length};
ghost use Rattle.eve_grammar.specs.Limits.{is_batch};
ghost use Rattle.eve_write.specs.Data.{batch as plain};

use eve_accounts::{Balances, Names, Row};
use eve_grammar::MOST_CUSTOMERS;
use eve_testing::Text;
use eve_workload::{Mixer, Workload, mix};
use eve_write::{BatchData, CustomerData};
use std::alloc::{AllocError, Global};
use std::hash::RandomState;

/// The customers' names, in their order. They differ, so lack of memory alone keeps one out.
pub fn names_of<'w>(
    alloc: Global,
    customers: &'w [CustomerData],
    keys: RandomState,
    said: &mut Text,
) -> Names<'w> {
    let mut names = Names::new(alloc, keys, MOST_CUSTOMERS);
    for customer in customers {
        said.stored(names.add(customer.name.as_slice()));
    }
    names
}

/// The customers' opening balances, by row.
pub fn balances_of(alloc: Global, customers: &[CustomerData]) -> Result<Balances, AllocError>
    requires { length customers.now ≤ MOST_CUSTOMERS }
{
    let mut balances = Balances::new(alloc, 2 * customers.len())?;
    for place in 0..customers.len() {
        balances.set(Row::saving(place as u32), customers[place].saving);
        balances.set(Row::checking(place as u32), customers[place].checking);
    }
    Ok(balances)
}

/// The batch with this number, cut into parallelBatches.
pub fn batch_of(
    alloc: Global,
    workload: &Workload,
    number: u32,
    names: &Names,
    mixer: Mixer,
) -> Result<BatchData, AllocError>
    requires from_one { 1 ≤ number }
    requires there { number ≤ length workload.now.batches }
    ensures { IfOk result (λ b. IsTrue (is_batch (plain b))) }
{
    mix(alloc, workload.batch(number), names, mixer)
}
