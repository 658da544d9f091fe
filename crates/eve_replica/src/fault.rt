//! Why calls of a replica and of a deployment are refused.

ghost use Rattle.std.specs.Prelude.{◌≡◌};
ghost use Rattle.eve_replica.specs.Replicas.{IsOfWorkers};
ghost use Rattle.eve_replica.specs.RunFaults.{attempt_fault_of, run_fault_of};
ghost use Rattle.eve_replica.specs.declared.fault.RunFault.TheVariants as run;

use eve_floor::ExecFault;
use std::alloc::AllocError;

/// Why a batch was not attempted. Every fault but `Broken` breaks the replica.
#[derive(Clone, Copy, PartialEq, Eq)]
pub enum AttemptFault {
    /// Memory ran out.
    Memory,
    /// A tick was not above the greatest of a stripe.
    TickOrder,
    /// The recorder was full.
    Full,
    /// A row that a request writes is at version 2^40.
    Worn,
    /// A worker may draw no more ticks.
    Spent,
    /// A row that a request touches is not there.
    NoRow,
    /// What the workers noted makes no attempt of the batch.
    Mismatch,
    /// An earlier attempt failed, and no rollback has succeeded since.
    Broken,
}

/// Why records were not closed to an attempt.
#[derive(Clone, Copy, PartialEq, Eq)]
pub enum CloseFault {
    /// Memory ran out.
    Memory,
    /// The records make no attempt of the batch.
    Mismatch,
    /// An attempt failed, and no rollback has succeeded since.
    Broken,
}

/// Why nothing was committed.
#[derive(Clone, Copy, PartialEq, Eq)]
pub enum CommitFault {
    /// No attempt is open, or the first open one is of another batch.
    NotOpen,
    /// An attempt failed, and no rollback has succeeded since.
    Broken,
}

/// Why no state was transferred.
#[derive(Clone, Copy, PartialEq, Eq)]
pub enum TransferFault {
    /// Its batch isn't later than the last committed one, or its view is an earlier one than the replica's.
    NotDue,
    /// An attempt failed, and no rollback has succeeded since.
    Broken,
}

/// Why a workload was not run.
#[derive(Clone, Copy)]
pub enum RunFault {
    /// Memory ran out.
    Memory,
    /// A replica failed otherwise, or some batch wasn't committed after two windows for each batch.
    Broken,
    /// In format 2, the states that were transferred to replicas have more bytes than a trace may have.
    TooLong,
}

impl From<AllocError> for RunFault {
    ghost from_gives = { λ _ e. e ≡ run.Memory };

    fn from(_e: AllocError) -> RunFault {
        RunFault::Memory
    }
}

impl From<AttemptFault> for RunFault {
    ghost from_gives = { λ why e. e ≡ run_fault_of why };

    fn from(why: AttemptFault) -> RunFault {
        match why {
            AttemptFault::Memory => RunFault::Memory,
            _ => RunFault::Broken,
        }
    }
}

/// The attempt's fault for a worker's.
pub(crate) fn fault_of(why: ExecFault) -> AttemptFault
    ensures of_workers { IsOfWorkers result }
    ensures same { result ≡ attempt_fault_of why }
{
    match why {
        ExecFault::Memory => AttemptFault::Memory,
        ExecFault::TickOrder => AttemptFault::TickOrder,
        ExecFault::Full => AttemptFault::Full,
        ExecFault::Worn => AttemptFault::Worn,
        ExecFault::Spent => AttemptFault::Spent,
        ExecFault::NoRow => AttemptFault::NoRow,
    }
}
