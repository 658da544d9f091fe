//! What a header says.

ghost use Rattle.std.specs.Prelude.{◌≡◌};
ghost use Rattle.eve_grammar.specs.Limits.{is_head};
ghost use Rattle.eve_grammar.specs.Readers.{Gives, header_of};

use crate::limits::{
    MOST_BATCHES, MOST_REPLICAS, MOST_VERIFIERS, MOST_WINDOW, MOST_WORKERS, NEWEST_VERSION,
    most_customers,
};
use crate::places::{u16_in, u24_in, u32_in};

/// Bytes of a header.
///
/// docs/TRACE.md, "Header".
pub const HEADER_LEN: usize = 32;

/// The version of the format, and how many there are of what a trace speaks of.
///
/// docs/TRACE.md, "Header".
#[derive(Clone, Copy, PartialEq, Eq)]
pub struct Head {
    /// The version of the format, 1 to `NEWEST_VERSION`.
    pub version: u16,
    /// Replicas, 1 to `MOST_REPLICAS`.
    pub replicas: u8,
    /// Verifiers, 1 to `MOST_VERIFIERS`.
    pub verifiers: u8,
    /// How many votes decide: more than half of the verifiers, at most all.
    pub quorum: u8,
    /// How many batches are attempted before the first is decided, 1 to `MOST_WINDOW`.
    pub window: u8,
    /// Workers of a replica, 1 to `MOST_WORKERS`.
    pub workers: u8,
    /// Customers, 1 to `most_customers(version)`.
    pub customers: u32,
    /// Batches, `MOST_BATCHES` at most.
    pub batches: u32,
}

impl Head {
    /// Whether the numbers lie in their ranges.
    /// Decides F3 Head.
    pub fn is_right(&self) -> bool
        ensures { result ≡ is_head self.now }
    {
        (1 <= self.version)
            & (self.version <= NEWEST_VERSION)
            & (1 <= self.replicas)
            & (self.replicas <= MOST_REPLICAS)
            & (1 <= self.verifiers)
            & (self.verifiers <= MOST_VERIFIERS)
            & (self.quorum <= self.verifiers)
            & ((self.verifiers as u32) < 2 * self.quorum as u32)
            & (1 <= self.window)
            & (self.window <= MOST_WINDOW)
            & (1 <= self.workers)
            & (self.workers <= MOST_WORKERS)
            & (1 <= self.customers)
            & (self.customers <= most_customers(self.version))
            & (self.batches <= MOST_BATCHES)
    }

    /// What the 18 bytes of a header from the version to the batches say; `None` where a number lies out of
    /// its range, or the bytes between the numbers aren't zeros.
    ///
    /// docs/TRACE.md, "Header". The six bytes before them and the length after them are not looked at here.
    pub fn read(bytes: &[u8]) -> Option<Head>
        ensures { Gives (λ h. h) result (header_of bytes.now) }
    {
        if bytes.len() != 18 || u24_in(bytes, 7) != 0 {
            return None;
        }
        let head = Head {
            version: u16_in(bytes, 0),
            replicas: bytes[2],
            verifiers: bytes[3],
            quorum: bytes[4],
            window: bytes[5],
            workers: bytes[6],
            customers: u32_in(bytes, 10),
            batches: u32_in(bytes, 14),
        };
        if head.is_right() { Some(head) } else { None }
    }
}
