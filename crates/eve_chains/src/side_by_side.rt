//! Stretches of attempts, side by side: their records judged, and their entries gathered.

ghost use Rattle.std.specs.Prelude.{◌≡◌, ◌++◌, All, IfOk, OnOk, None, Option, ℕ, fold, length};
ghost use Rattle.std.specs.List.{AllZip, flat_map};
ghost use Rattle.eve_chains.specs.inner.Judged.{IsFoundIn};
ghost use Rattle.eve_chains.specs.inner.Sections.{IsTold};
ghost use Rattle.eve_chains.specs.inner.Stretches.{IsWithin};
ghost use Rattle.eve_chains.specs.Records.{lesser};
ghost use Rattle.eve_chains.specs.declared.side_by_side.Judged.{Judged as JudgedValue};

use crate::gathered::gather;
use crate::grouped::Grouped;
use crate::note::Note;
use crate::records::{lesser, mismatch_in};
use crate::section::Section;
use crate::stretch::Stretch;
use eve_accounts::Names;
use rayon::prelude::*;
use std::alloc::{AllocError, Global};
use std::thread::Threads;

/// What is found in a stretch of attempts.
#[derive(Drop)]
pub struct Judged {
    /// The least offset of the records that don't fit.
    pub mismatch: Option<u64>,
    /// The entries, in parts, each of them in order by row.
    pub parts: Vec<Grouped<Note>>,
}

/// A stretch judged: each of its records by itself, and then its entries gathered, whatever was found in the records.
fn judge(
    alloc: Global,
    section: Section<'_, '_, '_>,
    names: &Names<'_>,
    stretch: Stretch,
) -> Result<Judged, AllocError>
    requires told { IsTold section }
    requires within { IsWithin (length section.history.now.attempts) stretch }
    ensures { IfOk result
        (IsFoundIn names.now.items section.entry.trace.now section.entry.history.now stretch) }
{
    let mismatch = mismatch_in(alloc, section, names, stretch)?;
    let parts = gather(alloc, section, stretch)?;
    Ok(Judged { mismatch, parts })
}

/// Each stretch judged, in rayon's pieces: as many threads as there are stretches, with the caller's. Of one stretch
/// none is started.
pub(crate) fn judge_all<R: Threads + Sync>(
    rt: &R,
    alloc: Global,
    section: Section<'_, '_, '_>,
    names: &Names<'_>,
    stretches: &[Stretch],
) -> Result<Vec<Judged>, AllocError>
    requires told { IsTold section }
    requires stretches { All (IsWithin (length section.history.now.attempts)) stretches.now }
    ensures { IfOk result (λ judged. AllZip
        (IsFoundIn names.now.items section.entry.trace.now section.entry.history.now) stretches.now judged.items) }
{
    stretches
        .par_iter()
        .with_min_len(1)
        .map(
            |stretch: &Stretch| -> Result<Judged, AllocError>
                requires { IsTold section × IsWithin (length section.history.now.attempts) stretch.now }
                ensures { IfOk result (IsFoundIn names.entry.now.items section.entry.trace.now
                    section.entry.history.now stretch.now) }
            { judge(alloc, section, names, *stretch) },
        )
        .collect::<Result<Vec<Judged>, AllocError>>(rt, alloc)?
}

/// The least offset of all records that don't fit.
pub(crate) fn least_mismatch(judged: &[Judged]) -> Option<u64>
    ensures { result ≡ fold (λ (least : Option ℕ) (one : JudgedValue). lesser least one.mismatch) None judged.now }
{
    let mut least = None;
    for one in judged {
        least = lesser(least, one.mismatch);
    }
    least
}

/// The parts of all stretches, one behind another.
pub(crate) fn all_parts(
    alloc: Global,
    judged: Vec<Judged>,
) -> Result<Vec<Grouped<Note>>, AllocError>
    ensures { IfOk result (λ parts. parts.items ≡ flat_map (λ (one : JudgedValue). one.parts.items) judged.items) }
{
    let mut all = Vec::new(alloc);
    for one in judged {
        append(&mut all, one.parts)?;
    }
    Ok(all)
}

/// Appends parts to those before them.
fn append(all: &mut Vec<Grouped<Note>>, parts: Vec<Grouped<Note>>) -> Result<(), AllocError>
    ensures { OnOk result (all.new.items ≡ all.old.items ++ parts.items) }
{
    for part in parts {
        all.push(part)?;
    }
    Ok(())
}
