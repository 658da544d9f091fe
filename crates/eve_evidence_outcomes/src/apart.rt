//! The first row in which balances differ.

ghost use Rattle.std.specs.Prelude.{◌≡◌, ◌*◌, IfSome, IfNone, IsTrue, ◌↔◌, length};
ghost use Rattle.eve_evidence_outcomes.specs.Outcomes.{IsRowFoundApart};

use eve_accounts::{Balances, Cents};
use eve_evidence::{ToldRow, told_row};
use eve_grammar::row_of;
use eve_views::Trace;

/// A row in which balances differ.
#[derive(Clone, Copy)]
pub(crate) struct RowApart<'a> {
    /// The row.
    pub row: ToldRow<'a>,
    /// What it has.
    pub found: Cents,
    /// What it has in the others.
    pub due: Cents,
}

/// Whether two balances are the same.
fn is_same(own: Cents, its: Cents) -> bool
    ensures { IsTrue result ↔ (own ≡ its) }
{
    own == its
}

/// The first row in which balances of all rows differ, if one does.
pub(crate) fn first_apart<'a>(
    trace: &Trace<'a>,
    own: &Balances,
    its: &Balances,
) -> Option<RowApart<'a>>
    requires own { length own.now ≡ 2 * length trace.now.customers }
    requires its { length its.now ≡ 2 * length trace.now.customers }
    ensures apart { IfSome result (IsRowFoundApart trace.now own.now its.now) }
    ensures none { IfNone result (own.now ≡ its.now) }
{
    trace.recall_limits();
    for i in 0..2 * trace.customer_count() {
        let row = row_of(i);
        let found = own.get(row);
        let due = its.get(row);
        if !is_same(found, due) {
            return Some(RowApart {
                row: told_row(trace, row),
                found,
                due,
            });
        }
    }
    None
}
