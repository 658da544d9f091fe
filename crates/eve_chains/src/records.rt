//! Records of settled attempts, each judged by itself: whether it fits its request.

ghost use Rattle.std.specs.Prelude.{◌≡◌, ◌<◌, ◌∷◌, [], Some, IfOk, IfErr, length, map, slice_get};
ghost use Rattle.std.specs.Bool.{Decides};
ghost use Rattle.eve_smallbank.specs.SmallBank.{plain};
ghost use Rattle.eve_smallbank.specs.Access.{Fits};
ghost use Rattle.eve_frames.specs.Decoded.{access_decoded, batch_decoded};
ghost use Rattle.eve_views.specs.Form.{IfFound, IsLeast, HasNone, IsFaultIn};
ghost use Rattle.eve_history.specs.SectionHistory.{ExecutedAttempt, names_of};
ghost use Rattle.eve_chains.specs.Records.{recorded, is_settled, recorded_of, records_between, HasRequests};
ghost use Rattle.eve_chains.specs.Records.{IsLeastMismatch, CanBeJudged, IsLeastOfAttempt, lesser, IsSearched};
ghost use Rattle.eve_chains.specs.Sound.{RecordsFit};
ghost use Rattle.eve_chains.specs.inner.Sections.{IsTold};
ghost use Rattle.eve_chains.specs.inner.Stretches.{IsWithin};
ghost use Rattle.eve_chains.specs.Faults.{StandsInRecords};

use crate::section::Section;
use crate::stretch::Stretch;
use eve_accounts::Names;
use eve_frames::{AccessView, BatchView};
use eve_history::{Fate, History};
use eve_smallbank::{Entry, Reply, Request, UpToThree, touched};
use eve_views::{CheckFault, Code, Fault};
use std::alloc::{AllocError, Global};

/// Judges the records of a replica's settled attempts, by the least offset that was found among those of all attempts:
/// each fits its request, or the first that does not is named.
///
/// docs/MODEL.md, "A record fits its request" and "Faults".
pub(crate) fn records(section: Section<'_, '_, '_>, least: Option<u64>) -> Result<(), CheckFault>
    requires told { IsTold section }
    requires least { IsLeastMismatch (names_of section.trace.now)
        (records_between section.trace.now section.history.now 0 (length section.history.now.attempts)) least }
    ensures fit { IfOk result (λ _. RecordsFit section.entry.trace.now section.entry.history.now.replica) }
    ensures none { IfOk result (λ _. HasNone
        (IsFaultIn StandsInRecords section.entry.trace.now section.entry.history.now.replica)) }
    ensures least { IfErr result (λ why. IfFound why
        (IsLeast (IsFaultIn StandsInRecords section.entry.trace.now section.entry.history.now.replica))) }
{
    let Section { trace, history } = section;
    trace.recall_limits();
    history.recall_right();
    match least {
        None => Ok(()),
        Some(offset) => Err(CheckFault::Found(Fault {
            code: Code::Record,
            offset,
            replica: Some(history.replica()),
        })),
    }
}

/// The least offset of the records that don't fit, among those of a stretch's settled attempts.
pub(crate) fn mismatch_in(
    alloc: Global,
    section: Section<'_, '_, '_>,
    names: &Names<'_>,
    stretch: Stretch,
) -> Result<Option<u64>, AllocError>
    requires told { IsTold section }
    requires within { IsWithin (length section.history.now.attempts) stretch }
    ensures { IfOk result
        (IsSearched names.now.items section.entry.trace.now section.entry.history.now stretch) }
{
    section.history.recall_right();
    let to = stretch.to;
    prove!(to <= section.history.attempts());
    let mut mismatch = None;
    for i in stretch.from..to {
        let found = judge_attempt(alloc, section, names, i)?;
        mismatch = lesser(mismatch, found);
    }
    Ok(mismatch)
}

/// The least offset of an attempt's records that don't fit. Those of an open attempt are not judged.
fn judge_attempt(
    alloc: Global,
    section: Section<'_, '_, '_>,
    names: &Names<'_>,
    i: usize,
) -> Result<Option<u64>, AllocError>
    requires { CanBeJudged section.trace.now section.history.now i }
    ensures { IfOk result
        (IsLeastOfAttempt names.now.items section.entry.trace.now section.entry.history.now i) }
{
    let Section { trace, history } = section;
    trace.recall_limits();
    if !is_settled(history.fate(i)) {
        return Ok(None);
    }
    let batch = trace.batch(history.attempt(i).seq());
    let requests = requests_of(alloc, &batch)?;
    Ok(judge_records(history, i, &requests, names))
}

pub(crate) fn is_settled(fate: Fate) -> bool
    ensures { result ≡ is_settled fate }
{
    match fate {
        Fate::Committed => true,
        Fate::Discarded => true,
        Fate::Open => false,
    }
}

/// The requests of a batch.
fn requests_of<'a>(alloc: Global, batch: &BatchView<'a>) -> Result<Vec<Request<'a>>, AllocError>
    ensures { IfOk result (λ requests. map plain requests.items
        ≡ map (λ a. a.request) (batch_decoded batch.now).1.requests) }
{
    let mut requests = Vec::with_capacity(alloc, batch.len())?;
    for asked in batch.requests() {
        requests.push_reserved(asked.request);
    }
    Ok(requests)
}

/// The least offset of an attempt's records that don't fit these requests.
fn judge_records(
    history: &History<'_>,
    i: usize,
    requests: &[Request<'_>],
    names: &Names<'_>,
) -> Option<u64>
    requires attempt { i < length history.now.attempts }
    requires requests { (r : ExecutedAttempt) → slice_get history.now.attempts i ≡ Some r
        → HasRequests (length requests.now) r }
    ensures { (r : ExecutedAttempt) → slice_get history.now.attempts i ≡ Some r
        → IsLeastMismatch names.now.items (map (recorded_of (map plain requests.now) r.attempt.replies) r.ordered)
        result }
{
    let attempt = history.attempt(i);
    let mut least = None;
    for place in 0..attempt.len() {
        let access = history.ordered(i, place);
        let index = access.index() as usize;
        let request = &requests[index];
        let found = judge_record(request, names, attempt.reply(index), &access);
        least = lesser(least, found);
    }
    least
}

/// The record's offset, where it doesn't fit.
fn judge_record(
    request: &Request<'_>,
    names: &Names<'_>,
    reply: Reply,
    access: &AccessView<'_>,
) -> Option<u64>
    ensures { IsLeastMismatch names.now.items
        ((access.now.offset, recorded (plain request.now) reply (access_decoded access.now).entries) ∷ []) result }
{
    if fits(request, names, reply, access) {
        None
    } else {
        Some(access.offset())
    }
}

/// Whether a request's reply and the entries that were noted of it are what it does to each bank of these
/// customers that has the values seen.
///
/// docs/MODEL.md, "A record fits its request".
fn fits(request: &Request, names: &Names, reply: Reply, access: &AccessView<'_>) -> bool
    ensures { Decides result
        (Fits names.now.items (recorded (plain request.now) reply (access_decoded access.now).entries)) }
{
    let reached = touched(request, names);
    eve_smallbank::fits(request, &reached, reply, &entries_of(access))
}

/// The entries of a record.
fn entries_of(access: &AccessView<'_>) -> UpToThree<Entry>
    ensures { result ≡ (access_decoded access.now).entries }
{
    match access.len() {
        0 => UpToThree::new(),
        1 => UpToThree::one(access.entry(0)),
        2 => UpToThree::two(access.entry(0), access.entry(1)),
        3 => UpToThree::three(access.entry(0), access.entry(1), access.entry(2)),
        _ => unreachable!(),
    }
}

/// The lesser of two offsets, where there are any.
pub(crate) fn lesser(offset: Option<u64>, other: Option<u64>) -> Option<u64>
    ensures { result ≡ lesser offset other }
{
    match (offset, other) {
        (Some(at), Some(found)) => if found < at { Some(found) } else { Some(at) },
        (None, found) => found,
        (at, None) => at,
    }
}
