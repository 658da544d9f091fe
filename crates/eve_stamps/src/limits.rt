//! The number of stripes, and of places for a worker's records.

/// The number of stripes in which the rows of all customers lie.
pub const STRIPES: u32 = 16;

/// The place of each record that a worker notes is below this number.
pub const MOST_PLACES: usize = 65_536;
