//! What an audit returns.

ghost use Rattle.std.specs.Prelude.{◌≡◌};
ghost use Rattle.eve_audit.specs.Answer.{verdict_of};

use eve_history::History;
use eve_views::{Fault, Trace};

/// The counts of a trace without a fault.
#[derive(Clone, Copy, Debug, PartialEq, Eq)]
pub struct Summary {
    /// How many replicas there are.
    pub replicas: u32,
    /// How many batches there are.
    pub batches: u32,
    /// The least last committed number over the replicas.
    pub committed: u32,
}

/// The verdict on the bytes of a trace.
///
/// docs/MODEL.md, "Verdict".
#[derive(Clone, Copy, Debug, PartialEq, Eq)]
pub enum Verdict {
    /// No fault stands.
    Yes(Summary),
    /// The first fault, by phase, then offset, then code.
    No(Fault),
}

/// A trace without a fault, and what each of its sections tells.
#[derive(Drop)]
pub struct AcceptedTrace<'a> {
    /// The counts that a yes names.
    pub summary: Summary,
    /// The trace.
    pub trace: Trace<'a>,
    /// What each replica's section tells, in their order.
    pub histories: Vec<History<'a>>,
}

/// The verdict on the bytes of a trace, and of a yes the trace that it was found of.
#[derive(Drop)]
pub enum WholeVerdict<'a> {
    /// No fault stands.
    Yes(AcceptedTrace<'a>),
    /// The first fault.
    No(Fault),
}

impl<'a> WholeVerdict<'a> {
    /// The verdict alone.
    pub fn verdict(&self) -> Verdict
        ensures { result ≡ verdict_of self.now }
    {
        match self {
            WholeVerdict::Yes(accepted) => Verdict::Yes(accepted.summary),
            WholeVerdict::No(fault) => Verdict::No(*fault),
        }
    }
}

/// Why an audit has no verdict.
#[derive(Clone, Copy, Debug, PartialEq, Eq)]
pub enum AuditFault {
    /// Memory was refused, which decides nothing.
    Memory,
}
