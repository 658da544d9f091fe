//! Who ran a request, and when.

/// Who ran which request, and at which tick. Contracts see these numbers in the record (`Applied`).
///
/// docs/DEPLOYMENT.md, "Schedule".
#[derive(Clone, Copy, PartialEq, Eq)]
pub struct Stamp {
    /// The tick at which it was applied.
    pub tick: u64,
    /// Its place among what its worker notes, from 0.
    pub place: u16,
    /// The request's index in its batch, from 0.
    pub index: u16,
    /// The worker that ran it, from 0.
    pub worker: u8,
}
