//! What a row has.

use eve_accounts::Cents;

/// A row's version and its value.
///
/// docs/MODEL.md, "Entries".
#[derive(Clone, Copy)]
pub struct Versioned {
    /// How often the row was written, from 0.
    pub version: u64,
    /// What is in it.
    pub value: Cents,
}
