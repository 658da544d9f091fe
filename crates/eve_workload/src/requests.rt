//! Requests in memory of their own.

ghost use Rattle.std.specs.Prelude.{◌≡◌, ◌<◌, ◌≤◌, [], ◌∷◌, ◌++◌, All, IfOk, OnOk, IsTrue, length, map};
ghost use Rattle.eve_smallbank.specs.SmallBank.{plain};
ghost use Rattle.eve_grammar.specs.Bodies.{borrowed_asked as decoded};
ghost use Rattle.eve_grammar.specs.Limits.{is_asked, is_request};
ghost use Rattle.eve_workload.specs.Batches.{asked_lists, push_last};
ghost use Rattle.eve_workload.specs.inner.Groups.{listed};
ghost use Rattle.eve_write.specs.Data.{asked, transaction};

use eve_accounts::Name;
use eve_grammar::Asked;
use eve_smallbank::Request;
use eve_write::{RequestData, TransactionData};
use std::alloc::{AllocError, Global};

/// The requests with these indexes, in the order of the indexes.
pub(crate) fn listed(
    alloc: Global,
    requests: &[RequestData],
    order: &[u16],
) -> Result<Vec<RequestData>, AllocError>
    requires { All (λ i. i < length requests.now) order.now }
    ensures { IfOk result (λ rs. map asked rs.items ≡ listed (map asked requests.now) order.now) }
{
    let mut copies = Vec::with_capacity(alloc, order.len())?;
    for index in order {
        copies.push_reserved(requests[*index as usize]);
    }
    Ok(copies)
}

/// Adds the request with names of its own.
fn add_owned(requests: &mut Vec<RequestData>, listed: &Asked<'_>) -> Result<(), AllocError>
    requires { IsTrue (is_asked (decoded listed.now)) }
    ensures { OnOk result (map asked requests.new.items ≡ map asked requests.old.items ++ decoded listed.now ∷ []) }
{
    requests.reserve(1)?;
    requests.push_reserved(RequestData {
        client: listed.client,
        number: listed.number,
        transaction: owned(&listed.request),
    });
    Ok(())
}

/// Adds the request, with names of its own, to the last batch.
pub(crate) fn add_to_last(
    batches: &mut Vec<Vec<RequestData>>,
    listed: &Asked<'_>,
) -> Result<(), AllocError>
    requires some { 1 ≤ length batches.old.items }
    requires right { IsTrue (is_asked (decoded listed.now)) }
    ensures { OnOk result (asked_lists batches.new.items
        ≡ push_last (asked_lists batches.old.items) (decoded listed.now)) }
{
    let place = batches.len() - 1;
    add_owned(&mut batches[place], listed)?;
    Ok(())
}

fn owned(request: &Request<'_>) -> TransactionData
    requires { IsTrue (is_request (plain request.now)) }
    ensures { transaction result ≡ plain request.now }
{
    match request {
        Request::Balance(name) => TransactionData::Balance(Name::of(name)),
        Request::DepositChecking(name, amount) => {
            TransactionData::DepositChecking(Name::of(name), *amount)
        }
        Request::TransactSaving(name, amount) => {
            TransactionData::TransactSaving(Name::of(name), *amount)
        }
        Request::Amalgamate(from, to) => TransactionData::Amalgamate(Name::of(from), Name::of(to)),
        Request::WriteCheck(name, amount) => TransactionData::WriteCheck(Name::of(name), *amount),
    }
}
