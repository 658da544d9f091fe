//! Which requests of a batch may run in parallel.

ghost use Rattle.std.specs.Prelude.{◌≡◌, ◌≤◌, ℕ, List, [], ◌∷◌, IfOk, IsTrue, IsPermutation, length, map};
ghost use Rattle.std.specs.List.{list_all};
ghost use Rattle.eve_smallbank.specs.Touch.{touched_of};
ghost use Rattle.eve_grammar.specs.Limits.{is_asked, is_batch};
ghost use Rattle.eve_write.specs.Data.{asked, batch};
ghost use Rattle.eve_workload.specs.declared.mixer.Mixer.TheVariants.{First};
ghost use Rattle.eve_workload.specs.Mixers.{cut, batch_with, mixer_named};
ghost use Rattle.eve_workload.specs.inner.Mixed.{touched_by, IsMixed};

use crate::cut::Cut;
use crate::groups::first_fit;
use crate::lookups::{look_up, pick};
use crate::requests::listed;
use eve_accounts::Names;
use eve_grammar::MOST_REQUESTS;
use eve_smallbank::Touched;
use eve_write::{BatchData, RequestData};
use std::alloc::{AllocError, Global};

/// How a batch is cut into parallelBatches.
#[derive(Clone, Copy)]
pub enum Mixer {
    /// Each request goes to the end of the first parallelBatch that holds none in conflict with it, or opens a new
    /// one at the end.
    First,
    /// All requests are one parallelBatch.
    Whole,
}

impl Mixer {
    /// The mixer of that name: `first` or `whole`; `None` of another.
    pub fn named(name: &str) -> Option<Self>
        ensures { result ≡ mixer_named name.now }
    {
        if name == "first" {
            Some(Mixer::First)
        } else if name == "whole" {
            Some(Mixer::Whole)
        } else {
            None
        }
    }
}

/// A batch that was cut, with what each of its requests touches.
#[derive(Drop)]
pub struct MixedBatch {
    /// The batch, its requests listed parallelBatch by parallelBatch.
    pub batch: BatchData,
    /// What each request touches, in the batch's order.
    pub touched: Vec<Touched>,
}

/// The batch of these requests, which are listed parallelBatch by parallelBatch.
///
/// docs/TRACE.md, "The deployment's procedure". Values don't count: requests conflict by the rows that they touch
/// alone. 1 to 256 requests. It is refused only where memory runs out.
pub fn mix(
    alloc: Global,
    requests: &[RequestData],
    names: &Names,
    mixer: Mixer,
) -> Result<BatchData, AllocError>
    requires some { 1 ≤ length requests.now }
    requires few { length requests.now ≤ MOST_REQUESTS }
    ensures batch { IfOk result (λ b. batch b ≡ batch_with (cut names.now.items mixer (map asked requests.now))) }
    ensures each_once { IfOk result (λ b. IsPermutation (map asked requests.now) (batch b).requests) }
    ensures right { IfOk result (λ b.
        IsTrue (list_all is_asked (map asked requests.now)) → IsTrue (is_batch (batch b))) }
{
    let mixed = mix_touched(alloc, requests, names, mixer)?;
    Ok(mixed.batch)
}

/// The batch that `mix` makes of these requests, with what each of them touches, so that it needn't be looked up again.
///
/// Names are looked up once a request. The time of a request is that of its rows, whatever the number of
/// parallelBatches. The first mixer also fills a table of two bytes a row: a `MixingTable` spares it where batches
/// follow one another. 1 to 256 requests. It is refused only where memory runs out.
pub fn mix_touched(
    alloc: Global,
    requests: &[RequestData],
    names: &Names,
    mixer: Mixer,
) -> Result<MixedBatch, AllocError>
    requires some { 1 ≤ length requests.now }
    requires few { length requests.now ≤ MOST_REQUESTS }
    ensures batch { IfOk result (λ m. batch m.batch ≡ batch_with (cut names.now.items mixer (map asked requests.now))) }
    ensures touched { IfOk result (λ m.
        m.touched.items ≡ map (λ a. touched_of names.now.items a.request) (batch m.batch).requests) }
    ensures each_once { IfOk result (λ m. IsPermutation (map asked requests.now) (batch m.batch).requests) }
    ensures right { IfOk result (λ m.
        IsTrue (list_all is_asked (map asked requests.now)) → IsTrue (is_batch (batch m.batch))) }
{
    let mut table = MixingTable::new(alloc);
    table.mix_touched(alloc, requests, names, mixer)
}

/// The table of rows by which batches are cut, kept from one batch to the next: each batch takes the time of the rows
/// that it touches, however many rows there are.
///
/// It says nothing of the batches before, which have no part in the next.
#[derive(Drop)]
pub struct MixingTable {
    cut: Cut,
}

impl MixingTable {
    /// A table that grows as far as the greatest row that is touched, two bytes a row.
    pub fn new(alloc: Global) -> MixingTable {
        MixingTable {
            cut: Cut::new(alloc),
        }
    }

    /// The batch of these requests, as the function `mix_touched` makes it, whatever was mixed before.
    ///
    /// 1 to 256 requests. It is refused only where memory runs out, and the table serves afterwards as before.
    pub fn mix_touched(
        &mut self,
        alloc: Global,
        requests: &[RequestData],
        names: &Names,
        mixer: Mixer,
    ) -> Result<MixedBatch, AllocError>
        requires some { 1 ≤ length requests.now }
        requires few { length requests.now ≤ MOST_REQUESTS }
        ensures batch { IfOk result (λ m.
            batch m.batch ≡ batch_with (cut names.now.items mixer (map asked requests.now))) }
        ensures touched { IfOk result (λ m.
            m.touched.items ≡ map (λ a. touched_of names.now.items a.request) (batch m.batch).requests) }
        ensures each_once { IfOk result (λ m. IsPermutation (map asked requests.now) (batch m.batch).requests) }
        ensures right { IfOk result (λ m.
            IsTrue (list_all is_asked (map asked requests.now)) → IsTrue (is_batch (batch m.batch))) }
    {
        let touched = look_up(alloc, requests, names)?;
        cut_by(alloc, &mut self.cut, requests, touched, mixer)
    }
}

/// The batch of these requests, which touch this. What was cut before has no part in it.
fn cut_by(
    alloc: Global,
    kept: &mut Cut,
    requests: &[RequestData],
    touched: Vec<Touched>,
    mixer: Mixer,
) -> Result<MixedBatch, AllocError>
    requires few { length requests.now ≤ MOST_REQUESTS }
    requires each { length touched.items ≡ length requests.now }
    ensures { IfOk result (λ m. (names : List (List ℕ)) →
        touched.items ≡ map (touched_by names) (map asked requests.now) →
        IsMixed names (cut names mixer (map asked requests.now)) m) }
{
    match mixer {
        Mixer::First => cut_first(alloc, kept, requests, touched.as_slice()),
        Mixer::Whole => cut_whole(alloc, requests, touched),
    }
}

/// Each request in the first group that holds none in conflict with it, or in a new one at the end.
fn cut_first(
    alloc: Global,
    kept: &mut Cut,
    requests: &[RequestData],
    touched: &[Touched],
) -> Result<MixedBatch, AllocError>
    requires few { length touched.now ≤ MOST_REQUESTS }
    requires each { length touched.now ≡ length requests.now }
    ensures { IfOk result (λ m. (names : List (List ℕ)) →
        touched.now ≡ map (touched_by names) (map asked requests.now) →
        IsMixed names (cut names First (map asked requests.now)) m) }
{
    let groups = first_fit(alloc, kept, touched)?;
    let touched = pick(alloc, touched, groups.order.as_slice())?;
    let requests = listed(alloc, requests, groups.order.as_slice())?;
    Ok(MixedBatch {
        batch: BatchData {
            sizes: groups.sizes,
            requests,
        },
        touched,
    })
}

/// All requests in one group.
fn cut_whole(
    alloc: Global,
    requests: &[RequestData],
    touched: Vec<Touched>,
) -> Result<MixedBatch, AllocError>
    requires few { length requests.now ≤ MOST_REQUESTS }
    ensures { IfOk result (λ m. (names : List (List ℕ)) →
        touched.items ≡ map (touched_by names) (map asked requests.now) →
        IsMixed names (map asked requests.now ∷ []) m) }
{
    let mut sizes = Vec::with_capacity(alloc, 1)?;
    sizes.push(requests.len() as u16)?;
    let requests = requests.to_vec(alloc)?;
    Ok(MixedBatch {
        batch: BatchData { sizes, requests },
        touched,
    })
}
