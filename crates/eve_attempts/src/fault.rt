//! Why an attempt, a commit or a state is refused.

/// Why the records of a batch are no attempt.
#[derive(Clone, Copy, Debug)]
pub enum CloseFault {
    /// Memory ran out.
    Memory,
    /// They aren't what an attempt of the batch on these rows has.
    Mismatch,
}

/// No attempt is open, or the first open one is of another batch.
#[derive(Clone, Copy, Debug)]
pub struct NotOpen;

/// The state is of no later batch than the last committed one, or of an earlier view.
#[derive(Clone, Copy, Debug)]
pub struct NotDue;
