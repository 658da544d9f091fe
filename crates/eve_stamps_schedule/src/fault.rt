//! Why a step isn't taken.

/// Why a schedule doesn't take a step, in the order in which it is tested. It is then as it was.
#[derive(Clone, Copy, Debug, PartialEq, Eq)]
pub enum StepFault {
    /// The event isn't allowed where the schedule stands.
    NotAllowed,
    /// No memory is left.
    Memory,
}
