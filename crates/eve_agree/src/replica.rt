//! Replicas after a number: what their sections tell, what they settled, and their balances.

ghost use Rattle.std.specs.Prelude.{◌≡◌, ◌≤◌, ◌<◌, ◌-◌, ◌↔◌, IsTrue, length};
ghost use Rattle.eve_history.specs.SectionHistory.{section_history};
ghost use Rattle.eve_chains.specs.Committed.{balances_to};
ghost use Rattle.eve_chains.specs.CommittedValues.{settling, HaveSameBalances};
ghost use Rattle.eve_agree.specs.inner.NumbersJudged.{IsAfter, ReplicasStandAt};

use eve_accounts::Balances;
use eve_chains::Settled;
use eve_history::History;
use eve_views::Trace;

/// A replica after a number.
#[derive(Clone, Copy)]
pub(crate) struct Replica<'r, 'a> {
    /// What its section tells.
    pub history: &'r History<'a>,
    /// What it settled.
    pub settled: &'r Settled<'a>,
    /// Its balances after the number.
    pub balances: &'r Balances,
}

/// All replicas after a number, in their order.
#[derive(Clone, Copy)]
pub(crate) struct Replicas<'r, 'a> {
    /// The number.
    pub number: u32,
    /// What their sections tell.
    pub histories: &'r [History<'a>],
    /// What they settled.
    pub settled: &'r [Settled<'a>],
    /// Their balances after the number.
    pub balances: &'r [Balances],
}

/// Replica e after the number, of all replicas.
pub(crate) fn replica_at<'r, 'a>(
    trace: &Trace<'_>,
    replicas: Replicas<'r, 'a>,
    e: usize,
) -> Replica<'r, 'a>
    requires there { e < length trace.now.sections }
    requires all { ReplicasStandAt trace.now replicas }
    ensures history { result.history.now ≡ section_history trace.now e }
    ensures settled { result.settled.now ≡ settling trace.now e }
    ensures after { IsAfter result.settled.now replicas.entry.number result.balances.now }
    ensures balances { result.balances.now ≡ balances_to trace.now e replicas.entry.number }
{
    let Replicas {
        histories,
        settled,
        balances,
        ..
    } = replicas;
    Replica {
        history: &histories[e],
        settled: &settled[e],
        balances: &balances[e],
    }
}

/// Whether two replicas have the same balances after number n, from 1. `before` says that those after the number before
/// are known to be the same.
pub(crate) fn have_same_balances(
    own: Replica<'_, '_>,
    its: Replica<'_, '_>,
    n: u32,
    before: bool,
) -> bool
    requires one { 1 ≤ n }
    requires there { n ≤ length own.settled.now.numbers }
    requires its_there { n ≤ length its.settled.now.numbers }
    requires after { IsAfter own.settled.now n own.balances.now }
    requires its_after { IsAfter its.settled.now n its.balances.now }
    requires before { IsTrue before → HaveSameBalances own.settled.now its.settled.now (n - 1) }
    ensures { IsTrue result ↔ (own.entry.balances.now ≡ its.entry.balances.now) }
{
    let settled = own.settled;
    settled.are_same_after(n, own.balances, its.settled, its.balances, before)
}
