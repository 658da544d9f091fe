//! The format's limits, in the numbers that they limit.
//!
//! docs/MODEL.md, "Limits". The definitions in specs/Limits.antt cite these very numbers.

ghost use Rattle.std.specs.Prelude.{◌≡◌};
ghost use Rattle.eve_grammar.specs.Limits.{most_customers};

/// The newest version of the format that headers may have. The first is 1.
pub const NEWEST_VERSION: u16 = 2;

/// Replicas of a trace.
pub const MOST_REPLICAS: u8 = 8;

/// Verifiers of a trace.
pub const MOST_VERIFIERS: u8 = 16;

/// Batches that a replica attempts before the first is decided.
pub const MOST_WINDOW: u8 = 8;

/// Workers of a replica.
pub const MOST_WORKERS: u8 = 8;

/// Workers of an audit.
pub const MOST_AUDIT_WORKERS: u8 = 16;

/// Customers of a trace of any version.
pub const MOST_CUSTOMERS: u32 = 65_536;

/// Customers of a trace of version 1.
pub const MOST_CUSTOMERS_OF_VERSION_1: u32 = 4096;

/// Customers of a trace of this version.
///
/// docs/TRACE.md, "Header" and "Version 2".
pub fn most_customers(version: u16) -> u32
    ensures { result ≡ most_customers version }
{
    if version == 1 {
        MOST_CUSTOMERS_OF_VERSION_1
    } else {
        MOST_CUSTOMERS
    }
}

/// Rows of a trace: two for each customer.
pub const MOST_ROWS: u32 = 2 * MOST_CUSTOMERS;

/// Batches of a trace.
pub const MOST_BATCHES: u32 = 65_535;

/// Requests of a batch.
pub const MOST_REQUESTS: usize = 256;

/// Entries of a request.
pub const MOST_ENTRIES: u8 = 3;

/// The greatest version of a row: the writes that a row can take.
pub const MOST_VERSIONS: u64 = 1 << 40;

/// Bytes of a trace.
pub const MOST_BYTES: usize = 1 << 30;
