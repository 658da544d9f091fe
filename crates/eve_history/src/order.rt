//! Customers and requests, in the order in which they came.

ghost use Rattle.std.specs.Prelude.{◌≡◌, ◌++◌, ◌∷◌, [], List, Contains, IfOk, IfErr, IsTrue, map};
ghost use Rattle.eve_views.specs.Form.{IfFound, IsLeast, HasNone, IsFaultOutside};
ghost use Rattle.eve_views.specs.declared.fault.Fault.{Fault};
ghost use Rattle.eve_views.specs.declared.fault.CheckFault.TheVariants.{Found, Memory};
ghost use Rattle.eve_history.specs.SectionHistory.{names_of};
ghost use Rattle.eve_grammar.specs.Trace.{RequestId, request_id};
ghost use Rattle.eve_history.specs.inner.GreatestNumbers.{greatest_of, AreReached, HaveRisen};
ghost use Rattle.eve_history.specs.Order.{requests_decoded, HasDistinctNames, HasDistinctRequests, StandsInOrders};

use crate::greatest::Greatest;
use crate::repeats::first_repeat;
use eve_accounts::{NameFault, Names};
use eve_frames::BatchView;
use eve_views::{CheckFault, Code, Fault, Trace};
use std::alloc::Global;
use std::hash::RandomState;

/// A fault outside the sections.
fn outside(code: Code, offset: u64) -> CheckFault
    ensures { result ≡ Found (record { code = code; offset = offset; replica = None }) }
{
    CheckFault::Found(Fault {
        code,
        offset,
        replica: None,
    })
}

/// The customers' names, in order, or the first customer whose name an earlier one has.
/// Decides F10 SameName.
fn names_in_order<'a>(
    alloc: Global,
    trace: &Trace<'a>,
    random: RandomState,
) -> Result<Names<'a>, CheckFault>
    ensures names { IfOk result (λ names. names.items ≡ names_of trace.now) }
    ensures apart { IfOk result (λ _. HasDistinctNames trace.now) }
    ensures fault { IfErr result (λ e. IfFound e (IsLeast (IsFaultOutside StandsInOrders trace.now))) }
{
    trace.recall_limits();
    let count = trace.head().customers;
    let mut names = Names::new(alloc, random, count);
    for i in 0..count {
        let customer = trace.customer(i);
        match names.add(customer.name()) {
            Ok(_) => {}
            Err(NameFault::SameName) => {
                return Err(outside(Code::SameName, customer.offset()));
            }
            Err(NameFault::BadName) => unreachable!(),
            Err(NameFault::Full) => unreachable!(),
            Err(NameFault::Memory) => return Err(CheckFault::Memory),
        }
    }
    Ok(names)
}

/// Notes a request's number as the greatest of its client: whether it is above all numbers that the client had.
/// Decides F11 SameRequest.
fn is_above(greatest: &mut Greatest, client: u32, number: u64) -> Result<bool, CheckFault>
    ensures above { IfOk result (λ above. IsTrue above → (noted : List RequestId)
        → AreReached (greatest_of greatest.old) noted
        → (¬ Contains noted (client, number))
        × AreReached (greatest_of greatest.new) (noted ++ (client, number) ∷ [])) }
    ensures memory { IfErr result (λ e. e ≡ Memory) }
{
    match greatest.keep(client, number) {
        Ok(Some(before)) => Ok(before < number),
        Ok(None) => Ok(true),
        Err(_) => Err(CheckFault::Memory),
    }
}

/// Notes the numbers of a batch's requests: whether each is above all that its client had.
fn are_above(greatest: &mut Greatest, batch: &BatchView<'_>) -> Result<bool, CheckFault>
    ensures above { IfOk result (λ above. IsTrue above → (noted : List RequestId)
        → AreReached (greatest_of greatest.old) noted
        → HaveRisen noted (map request_id (requests_decoded batch.now.bytes.now))
        (AreReached (greatest_of greatest.new))) }
    ensures memory { IfErr result (λ e. e ≡ Memory) }
{
    for asked in batch.requests() {
        if !is_above(greatest, asked.client, asked.number)? {
            return Ok(false);
        }
    }
    Ok(true)
}

/// Whether the numbers of each client rise from request to request, and few clients have large numbers: then no request
/// occurs twice.
///
/// Where it says no, nothing is known. It keeps one number a client.
fn numbers_rise(alloc: Global, trace: &Trace<'_>, random: RandomState) -> Result<bool, CheckFault>
    ensures apart { IfOk result (λ rise. IsTrue rise → HasDistinctRequests trace.now) }
    ensures memory { IfErr result (λ e. e ≡ Memory) }
{
    let mut greatest = Greatest::new(alloc, random)?;
    for n in 0..trace.head().batches {
        let batch = trace.batch(n + 1);
        if !are_above(&mut greatest, &batch)? || greatest.are_many() {
            return Ok(false);
        }
    }
    Ok(true)
}

/// Whether all requests differ in client or number, or the first batch with one that an earlier request has.
/// Decides F11 SameRequest.
fn requests_apart(alloc: Global, trace: &Trace<'_>, random: RandomState) -> Result<(), CheckFault>
    requires { HasDistinctNames trace.now }
    ensures apart { IfOk result (λ _. HasDistinctRequests trace.now) }
    ensures fault { IfErr result (λ e. IfFound e (IsLeast (IsFaultOutside StandsInOrders trace.now))) }
{
    if numbers_rise(alloc, trace, random)? {
        return Ok(());
    }
    trace.recall_limits();
    match first_repeat(alloc, trace)? {
        None => Ok(()),
        Some(n) => Err(outside(Code::SameRequest, trace.batch(n as u32).offset())),
    }
}

/// The customers' names, in order, where no two customers share a name and no two requests share client and number;
/// else `Found`, the first fault of orders.
///
/// docs/MODEL.md, "Faults". One look-up for each customer and each request, of a client below 4,096 in a table. Where
/// some client's numbers don't rise, or more than 4,096 other clients come, the requests are sorted, in 16 bytes each.
/// Refused memory decides nothing.
pub fn orders<'a>(
    alloc: Global,
    trace: &Trace<'a>,
    random: RandomState,
) -> Result<Names<'a>, CheckFault>
    ensures names { IfOk result (λ names. names.items ≡ names_of trace.now) }
    ensures none { IfOk result (λ _. HasNone (IsFaultOutside StandsInOrders trace.now)) }
    ensures least { IfErr result (λ e. IfFound e (IsLeast (IsFaultOutside StandsInOrders trace.now))) }
{
    let names = names_in_order(alloc, trace, random)?;
    requests_apart(alloc, trace, random)?;
    Ok(names)
}
