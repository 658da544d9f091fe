//! An entry as its row's walk meets it.

ghost use Rattle.std.specs.Prelude.{◌≤◌};
ghost use Rattle.eve_grammar.specs.declared.limits.TheConstants.{MOST_VERSIONS};

use crate::grouped::Keyed;
use eve_accounts::{Cents, Row};
use eve_smallbank::Kind;

/// An entry of a record, with what its row's walk has to know of the record's attempt.
#[derive(Clone, Copy)]
pub struct Note {
    /// The row's version before the request.
    pub version: u64,
    /// The row's value before the request.
    pub seen: Cents,
    /// The row's value after the request.
    pub after: Cents,
    /// The row.
    pub row: Row,
    /// The offset of the record's frame.
    pub at: u32,
    /// How many states were transferred before the attempt.
    pub transferred: u32,
    /// The attempt's view.
    pub view: u32,
    /// The number of the attempt's batch.
    pub number: u32,
    /// Whether the attempt is committed in the end.
    pub commits: bool,
    /// Whether the row was read or written.
    pub kind: Kind,
    ghost within: { version ≤ MOST_VERSIONS },
}

impl Keyed for Note {
    ghost key_of = { λ n. n.row };

    fn key(&self) -> usize {
        self.row.number() as usize
    }
}
