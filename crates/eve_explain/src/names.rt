//! The customers' names of a trace whose orders are right.

ghost use Rattle.std.specs.Prelude.{◌≡◌, IfOk};
ghost use Rattle.eve_history.specs.SectionHistory.{names_of};

use eve_accounts::Names;
use eve_views::Trace;
use std::alloc::{AllocError, Global};
use std::hash::RandomState;

/// The customers of a trace by name, in their order.
pub(crate) fn names_in_order<'a>(
    alloc: Global,
    trace: &Trace<'a>,
    random: RandomState,
) -> Result<Names<'a>, AllocError>
    ensures { IfOk result (λ names. names.items ≡ names_of trace.now) }
{
    trace.recall_limits();
    let mut names = Names::new(alloc, random, trace.customer_count());
    for i in 0..trace.customer_count() {
        // No other fault than of memory can come: names are right, differ, and have room.
        match names.add(trace.customer(i).name()) {
            Ok(_) => {}
            Err(_) => return Err(AllocError),
        }
    }
    Ok(names)
}
