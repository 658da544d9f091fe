//! Why the program ends without an answer.

ghost use Rattle.std.specs.Prelude.{◌≡◌};
ghost use Rattle.eve_tool.specs.Fault.{error_line, fault_of_read, fault_of_run, fault_of_workload, fault_text};
ghost use Rattle.eve_tool.specs.Fault.{status_of};
ghost use Rattle.eve_tool.specs.declared.fault.ToolFault.TheVariants.{Memory, Write};

use arrayvec::ArrayString;
use eve_audit::AuditFault;
use eve_replica::RunFault;
use eve_replica::eve_workload::WorkloadFault;
use eve_streams::{ReadFault, SendFault};
use itoa::Buffer;
use std::alloc::AllocError;
use thiserror::Error;

/// What the program says of each fault.
const CANNOT_READ: &str = "cannot read input";

const WORKLOAD_LINE: &str = "workload line ";

const TOO_LONG: &str = "too long";

const RUN_BROKEN: &str = "run broken";

const CANNOT_WRITE: &str = "cannot write output";

const NO_RANDOM_SOURCE: &str = "no random source";

const OUT_OF_MEMORY: &str = "out of memory";

/// Why the program ends without an answer.
#[derive(Clone, Copy, Debug, Error)]
pub enum ToolFault {
    /// The input can't be read, or it was read 2^31 times without an end.
    #[error("{text}", text = CANNOT_READ)]
    Read,
    /// This line of the workload, counted from 1, is the first that isn't right.
    #[error("{text}{0}", text = WORKLOAD_LINE)]
    Line(u32),
    /// The workload has more than 2^30 bytes (of `run_within`, than its limit), or the trace would have.
    #[error("{text}", text = TOO_LONG)]
    TooLong,
    /// The run is broken: a replica failed, or a batch was not committed.
    #[error("{text}", text = RUN_BROKEN)]
    Broken,
    /// The output can't be written.
    #[error("{text}", text = CANNOT_WRITE)]
    Write,
    /// The system gave no random words.
    #[error("{text}", text = NO_RANDOM_SOURCE)]
    Random,
    /// Memory ran out.
    #[error("{text}", text = OUT_OF_MEMORY)]
    Memory,
}

/// How many bytes the line of a fault has at most.
const LONGEST_FAULT: usize = 64;

/// How many bytes its text has at most.
const LONGEST_TEXT: usize = 48;

impl ToolFault {
    /// The exit status: 2 where the input is at fault, 3 where the machine is.
    pub fn status(self) -> u8
        ensures { result ≡ status_of self }
    {
        match self {
            ToolFault::Read | ToolFault::Line(_) | ToolFault::TooLong => 2,
            ToolFault::Broken | ToolFault::Write | ToolFault::Random | ToolFault::Memory => 3,
        }
    }

    /// The text of `Display`. It takes no memory, of which there may be none left.
    pub fn text(self) -> ArrayString<LONGEST_TEXT>
        ensures { result.bytes ≡ fault_text self }
    {
        let mut text = ArrayString::new();
        match self {
            ToolFault::Read => text.push_str(CANNOT_READ),
            ToolFault::Line(number) => {
                text.push_str(WORKLOAD_LINE);
                text.push_str(Buffer::new().format(number));
            }
            ToolFault::TooLong => text.push_str(TOO_LONG),
            ToolFault::Broken => text.push_str(RUN_BROKEN),
            ToolFault::Write => text.push_str(CANNOT_WRITE),
            ToolFault::Random => text.push_str(NO_RANDOM_SOURCE),
            ToolFault::Memory => text.push_str(OUT_OF_MEMORY),
        }
        text
    }

    /// What the program says on the error stream: a line, with its line feed, that names the program before the text.
    pub fn line(self) -> ArrayString<LONGEST_FAULT>
        ensures { result.bytes ≡ error_line self }
    {
        let mut line = ArrayString::new();
        line.push_str("eve: ");
        line.push_str(self.text().as_str());
        line.push_str("\n");
        line
    }
}

impl From<ReadFault> for ToolFault {
    ghost from_gives = { λ why e. e ≡ fault_of_read why };

    fn from(why: ReadFault) -> ToolFault {
        match why {
            ReadFault::Read => ToolFault::Read,
            ReadFault::Memory => ToolFault::Memory,
        }
    }
}

impl From<WorkloadFault> for ToolFault {
    ghost from_gives = { λ why e. e ≡ fault_of_workload why };

    fn from(why: WorkloadFault) -> ToolFault {
        match why {
            WorkloadFault::Line(number) => ToolFault::Line(number),
            WorkloadFault::Memory => ToolFault::Memory,
        }
    }
}

impl From<RunFault> for ToolFault {
    ghost from_gives = { λ why e. e ≡ fault_of_run why };

    fn from(why: RunFault) -> ToolFault {
        match why {
            RunFault::Memory => ToolFault::Memory,
            RunFault::Broken => ToolFault::Broken,
            RunFault::TooLong => ToolFault::TooLong,
        }
    }
}

impl From<SendFault> for ToolFault {
    ghost from_gives = { λ _ e. e ≡ Write };

    fn from(_why: SendFault) -> ToolFault {
        ToolFault::Write
    }
}

impl From<AuditFault> for ToolFault {
    ghost from_gives = { λ _ e. e ≡ Memory };

    fn from(_why: AuditFault) -> ToolFault {
        ToolFault::Memory
    }
}

impl From<AllocError> for ToolFault {
    ghost from_gives = { λ _ e. e ≡ Memory };

    fn from(_why: AllocError) -> ToolFault {
        ToolFault::Memory
    }
}
