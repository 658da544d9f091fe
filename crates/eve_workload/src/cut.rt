//! Requests that are put into groups one after another.

ghost use Rattle.std.specs.Prelude.{◌≡◌, ◌+◌, ◌<◌, ◌≤◌, ℕ, List, [], IfOk, OnOk, length, slice_index};
ghost use Rattle.eve_smallbank.specs.Access.{RowKinds};
ghost use Rattle.eve_workload.specs.Mixers.{placed};
ghost use Rattle.eve_workload.specs.inner.Groups.{share_at};
ghost use Rattle.eve_workload.specs.inner.Cut.{one_more, IsCut};

use crate::marks::RowMarks;
use crate::seats::Seat;
use eve_accounts::Row;
use eve_grammar::MOST_REQUESTS;
use eve_smallbank::{Kind, UpToThree};
use std::alloc::{AllocError, Global};

/// Requests in groups, in the order in which they came.
#[derive(Drop)]
pub(crate) struct Cut {
    pub marks: RowMarks,
    // How many requests each group has.
    pub sizes: Vec<u16>,
    // Where each request stands.
    pub seats: Vec<Seat>,
}

impl Cut {
    /// No requests.
    pub(crate) fn new(alloc: Global) -> Cut
        ensures { (rows : ℕ → RowKinds) → IsCut result rows [] }
    {
        Cut {
            marks: RowMarks::new(alloc),
            sizes: Vec::new(alloc),
            seats: Vec::new(alloc),
        }
    }

    /// Takes all requests out, and keeps their memory.
    pub(crate) fn clear(&mut self)
        ensures { (rows : ℕ → RowKinds) → IsCut self.new rows [] }
    {
        self.marks.clear();
        self.sizes.clear();
        self.seats.clear();
    }

    /// Puts the next request, which touches these rows, into the first group that holds none in conflict with it, or
    /// into a new one at the end.
    pub(crate) fn place(&mut self, touched: &UpToThree<(Row, Kind)>) -> Result<(), AllocError>
        requires few { length self.old.seats.items < MOST_REQUESTS }
        requires cut { (rows : ℕ → RowKinds) × (groups : List (List ℕ)) ×
            (rows (length self.old.seats.items) ≡ touched.now) × IsCut self.old rows groups }
        ensures count { OnOk result (length self.new.seats.items ≡ length self.old.seats.items + 1) }
        ensures cut { OnOk result ((rows : ℕ → RowKinds) → (groups : List (List ℕ)) →
            rows (length self.old.seats.items) ≡ touched.now → IsCut self.old rows groups →
            IsCut self.new rows (placed (share_at rows) groups (length self.old.seats.items))) }
    {
        let group = self.marks.barred(touched).first_absent();
        let place = add_to(&mut self.sizes, group)?;
        self.marks.mark(touched, group)?;
        self.seats.push(Seat { group, place })?;
        Ok(())
    }
}

/// Counts one more item in a group, or in a new one at the end, and says how many it had.
fn add_to(sizes: &mut Vec<u16>, group: u16) -> Result<u16, AllocError>
    requires there { group ≤ length sizes.old.items }
    requires small { slice_index sizes.old.items group < MOST_REQUESTS }
    ensures sizes { OnOk result (sizes.new.items ≡ one_more sizes.old.items group) }
    ensures had { IfOk result (λ had. had ≡ slice_index sizes.old.items group) }
{
    let group = group as usize;
    if group == sizes.len() {
        sizes.push(1)?;
        return Ok(0);
    }
    let had = sizes[group];
    sizes[group] = had + 1;
    Ok(had)
}
