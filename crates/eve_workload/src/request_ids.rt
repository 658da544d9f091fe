//! The ids of requests: what tells them apart.

ghost use Rattle.std.specs.Prelude.{◌≡◌, List, [], ◌∷◌, ◌++◌, not, true, false, if◌then◌else◌, All, IfOk};
ghost use Rattle.std.specs.Prelude.{OnOk, IsTrue, IsFalse};
ghost use Rattle.std.specs.List.{list_any};
ghost use Rattle.eve_grammar.specs.Trace.{RequestId};
ghost use Rattle.eve_workload.specs.inner.RequestIds.{has_id, same_id, ids_of, ids_in, Follows, IsUpToLast, Lists};
ghost use Rattle.eve_workload.specs.inner.RequestIds.{AreSeen};

use eve_write::RequestData;
use std::alloc::{AllocError, Global};
use std::collections::BTreeSet;

/// Where a client stands: its number modulo this.
const PLACES: usize = 256;

/// A request's client, and the client's number for it.
type RequestId = (u32, u64);

/// The ids of requests, no two of them the same.
///
/// Each client has one of 256 places. While each number is above all that its client's place has had, the last number
/// of each place is all that is kept. From the first number on that isn't, a tree has all ids.
#[derive(Drop)]
pub(crate) struct RequestIds {
    // Whether the numbers rose so far.
    pub rises: bool,
    // While they rise: the last number of each place.
    pub last: [Option<u64>; PLACES],
    // Afterwards: all ids.
    pub table: BTreeSet<RequestId>,
}

impl RequestIds {
    /// No id.
    pub(crate) fn new(alloc: Global) -> RequestIds
        ensures { AreSeen result [] }
    {
        RequestIds {
            rises: true,
            last: [None; PLACES],
            table: BTreeSet::new(alloc),
        }
    }

    /// Adds an id to those of the requests of these batches; whether it is new.
    pub(crate) fn add(
        &mut self,
        id: RequestId,
        batches: &[Vec<RequestData>],
    ) -> Result<bool, AllocError>
        ensures new { IfOk result (λ new. AreSeen self.old (ids_in batches.now)
            → new ≡ not (list_any (same_id id) (ids_in batches.now))) }
        ensures seen { IfOk result (λ new. AreSeen self.old (ids_in batches.now) → IsTrue new
            → AreSeen self.new (ids_in batches.now ++ id ∷ [])) }
    {
        if self.rises && self.rise(id) {
            return Ok(true);
        }
        self.list(batches)?;
        self.add_listed(id)
    }

    /// Keeps the id's number as the last of its client's place, where it is above the one before; whether it is.
    fn rise(&mut self, id: RequestId) -> bool
        ensures refused { IsFalse result → self.new ≡ self.old }
        ensures rises { self.new.rises ≡ self.old.rises }
        ensures table { self.new.table ≡ self.old.table }
        ensures new { IsTrue result → (seen : List RequestId) → All (IsUpToLast self.old.last) seen
            → list_any (same_id id) seen ≡ false }
        ensures reached { IsTrue result → (seen : List RequestId) → All (IsUpToLast self.old.last) seen
            → All (IsUpToLast self.new.last) (seen ++ id ∷ []) }
    {
        let (client, number) = id;
        let place = client as usize % PLACES;
        if !follows(self.last[place], number) {
            return false;
        }
        self.last[place] = Some(number);
        true
    }

    /// Puts the ids of these batches' requests into the table, if they aren't there yet.
    fn list(&mut self, batches: &[Vec<RequestData>]) -> Result<(), AllocError>
        ensures rises { OnOk result (IsFalse self.new.rises) }
        ensures listed { OnOk result (AreSeen self.old (ids_in batches.now)
            → Lists self.new.table (ids_in batches.now)) }
    {
        if self.rises {
            add_batches(&mut self.table, batches)?;
            self.rises = false;
        }
        Ok(())
    }

    /// Adds an id to the table; whether it is new.
    fn add_listed(&mut self, id: RequestId) -> Result<bool, AllocError>
        ensures rises { OnOk result (self.new.rises ≡ self.old.rises) }
        ensures new { IfOk result (λ new. new ≡ not (has_id self.old.table.keys id)) }
        ensures listed { IfOk result (λ new. (seen : List RequestId) → Lists self.old.table seen
            → Lists self.new.table (seen ++ id ∷ [])) }
    {
        add_id(&mut self.table, id)
    }
}

/// Whether a number is the first of a place, or above the last there.
fn follows(last: Option<u64>, number: u64) -> bool
    ensures { IsTrue result → Follows last number }
{
    match last {
        Some(last) => last < number,
        None => true,
    }
}

/// Adds the ids of these batches' requests.
fn add_batches(
    table: &mut BTreeSet<RequestId>,
    batches: &[Vec<RequestData>],
) -> Result<(), AllocError>
    ensures { OnOk result ((seen : List RequestId) → Lists table.old seen
        → Lists table.new (seen ++ ids_in batches.now)) }
{
    for batch in batches {
        add_all(table, batch.as_slice())?;
    }
    Ok(())
}

/// Adds the ids of these requests.
fn add_all(table: &mut BTreeSet<RequestId>, requests: &[RequestData]) -> Result<(), AllocError>
    ensures { OnOk result ((seen : List RequestId) → Lists table.old seen
        → Lists table.new (seen ++ ids_of requests.now)) }
{
    for request in requests {
        let id = (request.client, request.number);
        add_id(table, id)?;
    }
    Ok(())
}

/// Adds an id; whether it is new.
fn add_id(table: &mut BTreeSet<RequestId>, id: RequestId) -> Result<bool, AllocError>
    ensures new { IfOk result (λ new. new ≡ not (has_id table.old.keys id)) }
    ensures kept { IfOk result (λ new. (other : RequestId) →
        has_id table.new.keys other ≡ (if same_id id other then true else has_id table.old.keys other)) }
{
    Ok(table.insert(id)?)
}
