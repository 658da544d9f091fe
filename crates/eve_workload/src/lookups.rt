//! What requests touch.

ghost use Rattle.std.specs.Prelude.{◌≡◌, ◌<◌, All, IfOk, length, map, slice_index_or};
ghost use Rattle.eve_smallbank.specs.declared.rows.Touched.{Touched as TouchedValue};
ghost use Rattle.eve_smallbank.specs.Touch.{touched_of};
ghost use Rattle.eve_write.specs.Data.{asked};

use eve_accounts::Names;
use eve_smallbank::{Touched, touched};
use eve_write::RequestData;
use std::alloc::{AllocError, Global};

/// What each request touches, in the requests' order.
///
/// docs/MODEL.md, "Transactions". It is refused only where memory runs out.
pub fn look_up(
    alloc: Global,
    requests: &[RequestData],
    names: &Names,
) -> Result<Vec<Touched>, AllocError>
    ensures { IfOk result (λ ts. ts.items ≡ map (λ a. touched_of names.now.items a.request) (map asked requests.now)) }
{
    let mut all = Vec::with_capacity(alloc, requests.len())?;
    for request in requests {
        all.push_reserved(touched(&request.request(), names));
    }
    Ok(all)
}

/// What the requests with these indexes touch, in the order of the indexes.
pub(crate) fn pick(
    alloc: Global,
    touched: &[Touched],
    order: &[u16],
) -> Result<Vec<Touched>, AllocError>
    requires { All (λ i. i < length touched.now) order.now }
    ensures { IfOk result (λ ts. (other : TouchedValue) →
        ts.items ≡ map (λ i. slice_index_or touched.now i other) order.now) }
{
    let mut picked = Vec::with_capacity(alloc, order.len())?;
    for index in order {
        picked.push_reserved(touched[*index as usize]);
    }
    Ok(picked)
}
