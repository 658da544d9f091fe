//! The rows that there are, and their balances before the first batch.

ghost use Rattle.std.specs.Prelude.{◌≡◌, IfOk};
ghost use Rattle.eve_grammar.specs.Trace.{opening_rows, head_of};
ghost use Rattle.eve_grammar.specs.Limits.{row_count};

use eve_accounts::{Balances, Row};
use eve_views::Trace;
use std::alloc::{AllocError, Global};

/// The opening balances of all customers, in row order.
pub fn opening_balances(alloc: Global, trace: &Trace<'_>) -> Result<Balances, AllocError>
    ensures { IfOk result (λ balances. balances ≡ opening_rows trace.now.customers) }
{
    trace.recall_limits();
    let count = trace.customer_count();
    let mut balances = Balances::new(alloc, 2 * count as usize)?;
    for i in 0..count {
        let customer = trace.customer(i);
        balances.set(Row::saving(i), customer.saving());
        balances.set(Row::checking(i), customer.checking());
    }
    Ok(balances)
}

/// How many rows there are: two for each customer.
pub(crate) fn row_count(trace: &Trace<'_>) -> u32
    ensures { result ≡ row_count (head_of trace.now) }
{
    trace.recall_limits();
    2 * trace.customer_count()
}
