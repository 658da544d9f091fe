//! Why a request isn't executed.

ghost use Rattle.std.specs.Prelude.{◌≡◌};
ghost use Rattle.eve_floor.specs.Tasks.{told};
ghost use Rattle.eve_floor.specs.declared.fault.ExecFault.TheVariants as fault;

use eve_stamps::StampFault;
use std::alloc::AllocError;

/// Why an execution notes no record. Of these `flush` returns Full alone.
#[derive(Clone, Copy)]
pub enum ExecFault {
    /// A record waits already, and nothing was done; or the queue was full at one moment, and the record waits.
    Full,
    /// The worker may draw no more numbers.
    Spent,
    /// A row that the request touches lies in no stripe that was locked.
    NoRow,
    /// The number drawn isn't above the greatest tick that a locked stripe has had.
    TickOrder,
    /// A row that the request writes is at version 2^40.
    Worn,
    /// Memory ran out.
    Memory,
}

impl From<StampFault> for ExecFault {
    ghost from_gives = { λ why e. e ≡ told why };

    fn from(why: StampFault) -> ExecFault {
        match why {
            StampFault::NoRow => ExecFault::NoRow,
            StampFault::TickOrder => ExecFault::TickOrder,
            StampFault::Worn => ExecFault::Worn,
            StampFault::Memory => ExecFault::Memory,
        }
    }
}

impl From<AllocError> for ExecFault {
    ghost from_gives = { λ _ e. e ≡ fault.Memory };

    fn from(_e: AllocError) -> ExecFault {
        ExecFault::Memory
    }
}
