//! A workload that was read.

ghost use Rattle.std.specs.Prelude.{◌≡◌, ◌≢◌, ℕ, List, ◌-◌, ◌≤◌};
ghost use Rattle.std.specs.Prelude.{IsTrue, IfOk, Err, AllPairs, length, map, slice_get, Some};
ghost use Rattle.std.specs.List.{list_all};
ghost use Rattle.eve_grammar.specs.Limits.{is_customer, is_asked, is_head};
ghost use Rattle.eve_write.specs.Data.{customer, asked};
ghost use Rattle.eve_workload.specs.Workload.{IsWorkload, head_asked, customer_names};
ghost use Rattle.eve_workload.specs.Batches.{asked_lists};
ghost use Rattle.eve_workload.specs.Lines.{Line, workload_text};
ghost use Rattle.eve_workload.specs.Steps.{text_before, may_end, IsBadLine};
ghost use Rattle.eve_workload.specs.inner.Drafts.{Keeps, KeepsAll};

use crate::deployment::Deployment;
use crate::draft::Draft;
use crate::fault::WorkloadFault;
use crate::words::{MOST_WORDS, lines_len};
use eve_grammar::{Head, MOST_BATCHES, MOST_CUSTOMERS, MOST_REQUESTS, NEWEST_VERSION};
use eve_write::{CustomerData, RequestData};
use std::alloc::{AllocError, Global};
use std::marker::Model;

/// What a deployment is asked to do: its numbers, the customers, and batches of requests as they are listed.
///
/// docs/TRACE.md, "Workload". It has a format, the version of the trace that is asked for. Every workload lies within
/// the limits of its format, its customers' names differ, and so do its requests' ids. Each batch has a list of its
/// own, so that it can be let go alone. Contracts see it as its format, its deployment, its customers, and for each
/// batch the list of its requests.
#[derive(Drop)]
pub struct Workload {
    format: u16,
    deployment: Deployment,
    customers: Vec<CustomerData>,
    batches: Vec<Vec<RequestData>>,
}

impl Model for Workload {
    ghost use Rattle.eve_workload.specs.Workload.{Workload};

    ghost Value = { Workload };

    ghost use Rattle.eve_workload.specs.HeldWorkloads.{workload_of, IsHeldWorkload};

    ghost view = { workload_of };

    ghost invariant = { IsHeldWorkload };
}

impl Workload {
    /// Reads a workload in a format, or answers `Line`, the first line that isn't right, counted from 1.
    ///
    /// docs/TRACE.md, "Workload". The format is 1 or 2: there may be 4,096 customers in the first, 65,536 in the
    /// second. One pass over the text. While the requests' numbers rise, for each of 256 places of
    /// clients by themselves, the last numbers tell requests apart; from the first that doesn't rise on they are kept
    /// in a tree, so the time is that of a sort, whatever the text. Refused memory decides nothing.
    pub fn read(alloc: Global, text: &[u8], format: u16) -> Result<Workload, WorkloadFault>
        ensures read { IfOk result (λ w. text.now ≡ workload_text w) }
        ensures right { IfOk result IsWorkload }
        ensures format { IfOk result (λ w. w.format ≡ format) }
        ensures bad { (number : ℕ) → result ≡ Err (WorkloadFault.Line number) → IsBadLine format text.now number }
    {
        let draft = lines_of(alloc, text, format)?;
        Ok(whole(draft))
    }

    /// The header of its trace, whose version is the format. It is right where traces of that version are known.
    pub fn head(&self) -> Head
        ensures head { result ≡ head_asked self.now }
        ensures right { 1 ≤ self.now.format → self.now.format ≤ NEWEST_VERSION → IsTrue (is_head result) }
        ensures workload { IsWorkload self.now }
    {
        let customers = self.customers.len() as u32;
        let batches = self.batches.len() as u32;
        self.deployment.head(self.format, customers, batches)
    }

    /// The customers, each with a name of its own: 1 to 4,096 in format 1, to 65,536 in format 2.
    pub fn customers(&self) -> &[CustomerData]
        ensures customers { map customer result.now ≡ self.now.customers }
        ensures some { 1 ≤ length result.now }
        ensures few { length result.now ≤ MOST_CUSTOMERS }
        ensures right { IsTrue (list_all is_customer (map customer result.now)) }
        ensures differ { AllPairs (λ a b. a ≢ b) (customer_names (map customer result.now)) }
    {
        self.customers.as_slice()
    }

    /// How many batches there are, at most 65,535.
    pub fn batches(&self) -> u32
        ensures batches { result ≡ length self.now.batches }
        ensures few { result ≤ MOST_BATCHES }
    {
        self.batches.len() as u32
    }

    /// The requests of a batch, 1 to 256, as they are listed. Batches are numbered from 1.
    pub fn batch(&self, n: u32) -> &[RequestData]
        requires from_one { 1 ≤ n }
        requires there { n ≤ length self.now.batches }
        ensures batch { slice_get self.now.batches (n - 1) ≡ Some (map asked result.now) }
        ensures some { 1 ≤ length result.now }
        ensures few { length result.now ≤ MOST_REQUESTS }
        ensures right { IsTrue (list_all is_asked (map asked result.now)) }
    {
        let batches = self.batches.as_slice();
        batches[n as usize - 1].as_slice()
    }

    /// A copy in memory of its own. It is refused only where memory runs out.
    pub fn copy(&self, alloc: Global) -> Result<Workload, AllocError>
        ensures { IfOk result (λ w. w ≡ self.now) }
    {
        let customers = self.customers.to_vec(alloc)?;
        let batches = copies_of(alloc, self.batches.as_slice())?;
        Ok(Workload {
            format: self.format,
            deployment: self.deployment,
            customers,
            batches,
        })
    }

    /// Its customers, and the requests of each batch, in the lists that hold them: who has done with a batch can let it
    /// go. What is said of `customers` and of `batch` is true of them.
    pub fn into_lists(self) -> (Vec<CustomerData>, Vec<Vec<RequestData>>)
        ensures customers { map customer result.0.items ≡ self.customers }
        ensures batches { asked_lists result.1.items ≡ self.batches }
        ensures few { length result.0.items ≤ MOST_CUSTOMERS }
        ensures workload { IsWorkload self }
    {
        (self.customers, self.batches)
    }
}

/// All lines of the text, one after another, if it may end after them.
fn lines_of<'a>(alloc: Global, text: &'a [u8], format: u16) -> Result<Draft<'a>, WorkloadFault>
    ensures lines { IfOk result (λ draft. KeepsAll draft text.entry.now) }
    ensures format { IfOk result (λ draft. draft.format ≡ format) }
    ensures bad { (number : ℕ) → result ≡ Err (WorkloadFault.Line number) → IsBadLine format text.entry.now number }
{
    let mut draft = Draft::new(alloc, format);
    let mut words = Vec::with_capacity(alloc, MOST_WORDS)?;
    let len = lines_len(text);
    let mut at = 0;
    while at < len {
        let number = draft.next_line();
        match draft.take_line(alloc, &text[at..], &mut words)? {
            Some(len) => at += len,
            None => return Err(WorkloadFault::Line(number)),
        }
    }
    if at < text.len() || !draft.last.may_end() {
        return Err(WorkloadFault::Line(draft.next_line()));
    }
    Ok(draft)
}

/// The workload of lines after which the text may end.
fn whole(draft: Draft<'_>) -> Workload
    requires { (before : List Line) × Keeps draft before × IsTrue (may_end before) }
    ensures text { (before : List Line) → Keeps draft.entry before → IsTrue (may_end before) → text_before before
        ≡ workload_text result }
    ensures right { IsWorkload result }
    ensures format { result.format ≡ draft.entry.format }
{
    Workload {
        format: draft.format,
        deployment: draft.deployment,
        customers: draft.customers,
        batches: draft.batches,
    }
}

/// Copies of the batches' lists.
fn copies_of(
    alloc: Global,
    batches: &[Vec<RequestData>],
) -> Result<Vec<Vec<RequestData>>, AllocError>
    ensures { IfOk result (λ copies. asked_lists copies.items ≡ asked_lists batches.now) }
{
    let mut copies = Vec::with_capacity(alloc, batches.len())?;
    for batch in batches {
        copies.push_reserved(batch.to_vec(alloc)?);
    }
    Ok(copies)
}
