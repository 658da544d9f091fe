//! Why a request isn't applied to stripes.

/// Why stripes refuse a request, in the order of the tests. A refusal changes nothing.
#[derive(Clone, Copy, Debug, PartialEq, Eq)]
pub enum StampFault {
    /// A row that the request touches lies in no lent stripe.
    NoRow,
    /// The tick isn't above the greatest that a lent stripe has had.
    TickOrder,
    /// A row that the request writes is at version 2^40.
    Worn,
    /// No memory is left.
    Memory,
}
