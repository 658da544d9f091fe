//! How far the frames of a trace have come.

/// How many frames of each kind have come.
///
/// docs/TRACE.md, "Order of frames".
#[derive(Clone, Copy, PartialEq, Eq)]
pub struct Place {
    /// Customers.
    pub customers: u32,
    /// Batches.
    pub batches: u32,
    /// Replicas.
    pub replicas: u8,
    /// How many access frames the last attempt still has to have.
    pub accesses: usize,
    /// Verifiers.
    pub verifiers: u8,
    /// Whether a reply sent has come.
    pub sending: bool,
    /// Whether the end has come.
    pub ended: bool,
}
