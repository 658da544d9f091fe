//! The evidence of a fault of orders.

ghost use Rattle.std.specs.Prelude.{IfOk};
ghost use Rattle.eve_history.specs.Order.{StandsInOrders};
ghost use Rattle.eve_evidence_form.specs.Orders.{TellsTwice};

use crate::names::named_again;
use crate::requests::asked_again;
use eve_evidence::Evidence;
use eve_views::{Code, Fault, Trace};
use std::alloc::{AllocError, Global};

/// The evidence of a fault of orders: what stands twice.
///
/// docs/MODEL.md, "Evidence". Another code has `Untold` for its evidence. Memory is asked for only where a request
/// stands twice, for the ids of its batch.
pub fn trace_evidence<'a>(
    alloc: Global,
    trace: &Trace<'a>,
    fault: &Fault,
) -> Result<Evidence<'a>, AllocError>
    requires { StandsInOrders fault.now.code trace.now fault.now.offset }
    ensures told { IfOk result (TellsTwice trace.now fault.now) }
{
    match fault.code {
        Code::SameName => {
            let again = named_again(trace, fault.offset);
            Ok(Evidence::SameName {
                name: again.name,
                first: again.first.number,
                first_at: again.first.at,
            })
        }
        Code::SameRequest => match asked_again(alloc, trace, fault.offset) {
            Ok(again) => Ok(Evidence::SameRequest {
                request: again.request,
                first: again.first.request,
                first_at: again.first.at,
            }),
            Err(AllocError) => Err(AllocError),
        },
        _ => Ok(Evidence::Untold),
    }
}
