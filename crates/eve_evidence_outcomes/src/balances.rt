//! The balances of a replica after a batch.

ghost use Rattle.std.specs.Prelude.{◌≡◌, ◌≤◌, IfOk, length};
ghost use Rattle.eve_chains.specs.Committed.{balances_to};
ghost use Rattle.eve_agree.specs.inner.Stretches.{AreOfSection};

use eve_accounts::Balances;
use eve_chains::Settled;
use eve_chains::laws::settled_values_are_the_banks;
use eve_history::History;
use eve_views::Trace;
use std::alloc::{AllocError, Global};

/// The balances that a replica has after number n, of all customers, row by row.
pub(crate) fn balances_to(
    alloc: Global,
    trace: &Trace<'_>,
    history: &History<'_>,
    settled: &Settled<'_>,
    n: u32,
) -> Result<Balances, AllocError>
    requires section { AreOfSection trace.now history.now settled.now }
    requires there { n ≤ length settled.now.numbers }
    ensures { IfOk result (λ balances. balances ≡ balances_to trace.now history.now.replica n) }
{
    trace.recall_limits();
    history.recall_right();
    settled_values_are_the_banks();
    settled.balances_after(alloc, n)
}
