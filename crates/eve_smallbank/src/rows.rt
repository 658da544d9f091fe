//! The rows that a request touches.

ghost use Rattle.std.specs.Prelude.{◌≡◌};

use crate::{Abort, Kind, UpToThree};
use eve_accounts::Row;

/// What a request touches, before any row is read.
#[derive(Clone, Copy)]
pub enum Touched {
    /// The request is refused for this reason, `NoSuchName` or `BadAmount`, and touches no row.
    Refused(Abort),
    /// These rows, in the order in which the request's entries have them, with what is to be done to each.
    Rows(UpToThree<(Row, Kind)>),
}

impl Touched {
    ghost use Rattle.eve_smallbank.specs.Touch.{rows_in};

    /// The rows with what is to be done to each; none where the request is refused.
    pub fn rows(&self) -> UpToThree<(Row, Kind)>
        ensures { result ≡ rows_in self.now }
    {
        match self {
            Touched::Refused(_) => UpToThree::new(),
            Touched::Rows(rows) => *rows,
        }
    }
}
