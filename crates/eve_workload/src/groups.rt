//! Requests in groups, by their indexes.

ghost use Rattle.std.specs.Prelude.{◌<◌, ◌≤◌, [], All, IfOk, length};
ghost use Rattle.std.specs.List.{range_with_len};
ghost use Rattle.eve_workload.specs.Mixers.{first_fit};
ghost use Rattle.eve_workload.specs.inner.Groups.{rows_at, share_at, AreGroups};

use crate::cut::Cut;
use crate::seats::in_order;
use eve_grammar::MOST_REQUESTS;
use eve_smallbank::Touched;
use std::alloc::{AllocError, Global};

/// Groups of requests: how many each has, and the indexes of one group after another.
#[derive(Drop)]
pub(crate) struct Groups {
    pub sizes: Vec<u16>,
    pub order: Vec<u16>,
}

/// Each request in the first group that holds none in conflict with it, or in a new one at the end. Whatever was cut
/// before goes.
pub(crate) fn first_fit(
    alloc: Global,
    cut: &mut Cut,
    touched: &[Touched],
) -> Result<Groups, AllocError>
    requires { length touched.now ≤ MOST_REQUESTS }
    ensures groups { IfOk result (λ g. AreGroups g.sizes.items g.order.items
        (first_fit (share_at (rows_at touched.now)) [] (range_with_len 0 (length touched.now)))) }
    ensures within { IfOk result (λ g. All (λ i. i < length touched.now) g.order.items) }
{
    cut.clear();
    for request in touched {
        cut.place(&request.rows())?;
    }
    let order = in_order(alloc, cut.sizes.as_slice(), cut.seats.as_slice())?;
    let sizes = cut.sizes.to_vec(alloc)?;
    Ok(Groups { sizes, order })
}
