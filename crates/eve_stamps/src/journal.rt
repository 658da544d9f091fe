//! What one request did in a stripe.

use eve_smallbank::{Entry, UpToThree};

/// What a request read and wrote in a stripe, at its tick.
#[derive(Clone, Copy)]
pub struct Journaled {
    /// The tick at which it was applied.
    pub tick: u64,
    /// What it read and wrote in the stripe.
    pub entries: UpToThree<Entry>,
}
