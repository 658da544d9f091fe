//! How many customers, rows and bytes of a name there may ever be, which bytes those are, and how much money.

/// Customers: the number of each is below it.
pub const MOST_NAMES: u32 = 65_536;

/// Rows, two for each customer: the number of each row is below it.
pub const MOST_NAMED_ROWS: u32 = 2 * MOST_NAMES;

/// Bytes of a name.
pub const MOST_NAME_BYTES: usize = 24;

/// The first byte of printed ASCII that is no space: a name has no lower one.
pub const FIRST_NAME_BYTE: u8 = 0x21;

/// The last byte of printed ASCII: a name has no higher one.
pub const LAST_NAME_BYTE: u8 = 0x7E;

/// The greatest balance in cents, and the least with its sign changed: 10^15.
pub const MOST_BALANCE: i64 = 1_000_000_000_000_000;

/// The greatest amount in cents, and the least with its sign changed: 10^12.
pub const MOST_AMOUNT: i64 = 1_000_000_000_000;
