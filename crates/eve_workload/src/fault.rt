//! Why a text is no workload.

ghost use Rattle.std.specs.Prelude.{◌≡◌};
ghost use Rattle.eve_workload.specs.declared.fault.WorkloadFault.TheVariants.{Memory};

use std::alloc::AllocError;
use thiserror::Error;

/// Why a text was not read.
#[derive(Clone, Copy, Debug, Error)]
pub enum WorkloadFault {
    /// The line with this number, counted from 1, is the first that isn't right.
    #[error("line {0} of the workload is not right")]
    Line(u32),
    /// Memory ran out.
    #[error("out of memory")]
    Memory,
}

impl From<AllocError> for WorkloadFault {
    ghost from_gives = { λ _ fault. fault ≡ Memory };

    fn from(_: AllocError) -> WorkloadFault {
        WorkloadFault::Memory
    }
}
