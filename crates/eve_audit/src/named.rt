//! A trace with the names of its customers.

ghost use Rattle.std.specs.Prelude.{◌≡◌};
ghost use Rattle.eve_history.specs.SectionHistory.{names_of};

use eve_accounts::Names;
use eve_views::Trace;

/// A trace that was read, and the names of its customers.
#[derive(Drop)]
pub struct NamedTrace<'a> {
    /// The trace.
    pub trace: Trace<'a>,
    /// The names.
    pub names: Names<'a>,
    pub ghost own: { names.items ≡ names_of trace },
}
