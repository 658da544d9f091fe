//! What a request noted of one row.

ghost use Rattle.std.specs.Prelude.{◌≡◌};

use eve_accounts::{Cents, Row};

/// Whether a row was read or written.
#[derive(Clone, Copy, PartialEq, Eq)]
pub enum Kind {
    /// The row keeps its version and its value.
    Read,
    /// The row's version rises by one, also where its value stays.
    Write,
}

impl Kind {
    ghost use Rattle.eve_smallbank.specs.Access.{is_write};

    /// Whether the row gets a new version.
    pub fn is_write(self) -> bool
        ensures { result ≡ is_write self }
    {
        match self {
            Kind::Read => false,
            Kind::Write => true,
        }
    }
}

/// One row that a request read or wrote.
#[derive(Clone, Copy, PartialEq, Eq)]
pub struct Entry {
    /// The row's version before the request, from 0.
    pub version: u64,
    /// The row's value before the request.
    pub seen: Cents,
    /// The row's value after the request; a read leaves what it saw.
    pub after: Cents,
    /// The row.
    pub row: Row,
    /// Whether it was read or written.
    pub kind: Kind,
}
