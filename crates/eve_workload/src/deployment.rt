//! The numbers of a deployment.

ghost use Rattle.std.specs.Prelude.{◌≡◌};
ghost use Rattle.eve_workload.specs.Workload.{head_with, is_deployment};

use eve_grammar::Head;

/// The numbers of a workload's first line.
///
/// docs/TRACE.md, "Workload"; their ranges are those of "Header".
#[derive(Clone, Copy)]
pub struct Deployment {
    /// Replicas, 1 to 8.
    pub replicas: u8,
    /// Verifiers, 1 to 16.
    pub verifiers: u8,
    /// How many votes decide: more than half of the verifiers, at most all.
    pub quorum: u8,
    /// How many batches are attempted before the first is decided, 1 to 8.
    pub window: u8,
    /// Workers of a replica, 1 to 8.
    pub workers: u8,
}

impl Deployment {
    /// The header of a trace in this format, with this many customers and batches.
    pub(crate) fn head(&self, format: u16, customers: u32, batches: u32) -> Head
        ensures { result ≡ head_with format self.now customers batches }
    {
        Head {
            version: format,
            replicas: self.replicas,
            verifiers: self.verifiers,
            quorum: self.quorum,
            window: self.window,
            workers: self.workers,
            customers,
            batches,
        }
    }

    /// Whether the numbers lie in their ranges, which are those of every format.
    pub(crate) fn is_right(&self) -> bool
        ensures { result ≡ is_deployment self.now }
    {
        self.head(1, 1, 0).is_right()
    }
}
