//! A row, as a stripe holds it.

use eve_grammar::Restore;

/// A row with its version and its value in cents, in the form in which a rollback gives rows back.
pub type HeldRow = Restore;
