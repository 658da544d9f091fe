//! How many seats there may be, how many records may wait, and how many numbers may be drawn.

/// Seats: one for each worker.
pub const MOST_SEATS: u8 = 8;

/// Records that wait in the queue.
pub const MOST_QUEUED: usize = 256;

/// Numbers that one seat draws.
pub const MOST_DRAWN: u64 = 1 << 40;
