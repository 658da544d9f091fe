//! What a worker is at.

use eve_stamps::AccessRecord;

/// How far a worker is with its request.
///
/// docs/DEPLOYMENT.md, "Schedule".
#[derive(Clone, Copy)]
pub enum Stage {
    /// It has no request.
    Idle,
    /// It has the request of this index, and no tick.
    Claimed(u16),
    /// It has the request of this index and this tick, and has not applied.
    Ticked(u16, u64),
    /// It has applied, and its record is not noted.
    Applied(AccessRecord),
}
