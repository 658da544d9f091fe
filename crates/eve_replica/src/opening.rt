//! What a run begins with.

ghost use Rattle.std.specs.Prelude.{◌≡◌, ◌≢◌, ◌*◌, ◌≤◌, length, map};
ghost use Rattle.std.specs.Prelude.{All, AllPairs, IsTrue, IfOk};
ghost use Rattle.std.specs.List.{list_all};
ghost use Rattle.eve_grammar.specs.Trace.{opening_rows};
ghost use Rattle.eve_grammar.specs.Limits.{is_customer};
ghost use Rattle.eve_write.specs.Data.{asked, batch as plain, customer};
ghost use Rattle.eve_workload.specs.Mixers.{cut, batch_with};
ghost use Rattle.eve_workload.specs.Batches.{asked_lists};
ghost use Rattle.eve_workload.specs.Workload.{customer_names, is_listed};
ghost use Rattle.eve_replica.specs.inner.RunInvariant.{IsRightMixed};

use eve_accounts::{Balances, Names, Row};
use eve_grammar::MOST_CUSTOMERS;
use eve_workload::{MixedBatch, Mixer, MixingTable};
use eve_write::{CustomerData, RequestData};
use std::alloc::{AllocError, Global};
use std::hash::RandomState;

/// The customers' names, in their order.
pub(crate) fn names_of<'w>(
    alloc: Global,
    customers: &'w [CustomerData],
    random: RandomState,
) -> Result<Names<'w>, AllocError>
    requires few { length customers.now ≤ MOST_CUSTOMERS }
    requires right { IsTrue (list_all is_customer (map customer customers.now)) }
    requires differ { AllPairs (λ a b. a ≢ b) (customer_names (map customer customers.now)) }
    ensures { IfOk result (λ names. names.items ≡ customer_names (map customer customers.now)) }
{
    let mut names = Names::new(alloc, random, MOST_CUSTOMERS);
    for customer in customers {
        if names.add(customer.name.as_slice()).is_err() {
            return Err(AllocError);
        }
    }
    Ok(names)
}

/// The customers' opening balances, by row.
pub(crate) fn balances_of(alloc: Global, customers: &[CustomerData]) -> Result<Balances, AllocError>
    requires { length customers.now ≤ MOST_CUSTOMERS }
    ensures { IfOk result (λ balances. balances ≡ opening_rows (map customer customers.now)) }
{
    let mut balances = Balances::new(alloc, 2 * customers.len())?;
    for place in 0..customers.len() {
        balances.set(Row::saving(place as u32), customers[place].saving);
        balances.set(Row::checking(place as u32), customers[place].checking);
    }
    Ok(balances)
}

/// The batches, cut into parallelBatches. Each list is used up as it is cut. The names of the requests are looked up
/// here and nowhere else.
pub(crate) fn batches_of(
    alloc: Global,
    listed: Vec<Vec<RequestData>>,
    names: &Names,
    mixer: Mixer,
) -> Result<Vec<MixedBatch>, AllocError>
    requires { IsTrue (list_all is_listed (asked_lists listed.items)) }
    ensures cut { IfOk result (λ batches. map (λ m. plain m.batch) batches.items
        ≡ map (λ requests. batch_with (cut names.now.items mixer requests)) (asked_lists listed.items)) }
    ensures mixed { IfOk result (λ batches. All (IsRightMixed names.now.items) batches.items) }
{
    let mut batches = Vec::with_capacity(alloc, listed.len())?;
    let mut table = MixingTable::new(alloc);
    for requests in listed {
        let batch = cut_batch(alloc, &mut table, requests, names, mixer)?;
        batches.push_reserved(batch);
    }
    Ok(batches)
}

/// The batch of these requests, cut into parallelBatches.
fn cut_batch(
    alloc: Global,
    table: &mut MixingTable,
    requests: Vec<RequestData>,
    names: &Names,
    mixer: Mixer,
) -> Result<MixedBatch, AllocError>
    requires { IsTrue (is_listed (map asked requests.items)) }
    ensures cut { IfOk result (λ m.
        plain m.batch ≡ batch_with (cut names.now.items mixer (map asked requests.items))) }
    ensures mixed { IfOk result (IsRightMixed names.now.items) }
{
    table.mix_touched(alloc, requests.as_slice(), names, mixer)
}
