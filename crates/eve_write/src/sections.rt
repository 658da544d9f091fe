//! Replicas' sections and verifiers' votes, one after the other.
//!
//! docs/TRACE.md, "Frames".

ghost use Rattle.std.specs.Prelude.{◌≤◌, ◌<◌, ◌+◌, IsTrue, length, map};
ghost use Rattle.std.specs.List.{list_all, enumerate_from, flat_map, sum_by};
ghost use Rattle.eve_grammar.specs.Spelling.{batch_text, section_text, votes_text};
ghost use Rattle.eve_grammar.specs.Limits.{is_batch};
ghost use Rattle.eve_write.specs.Data.{batch, step, vote, section, votes};
ghost use Rattle.eve_write.specs.Writable.{fits_vote};
ghost use Rattle.eve_write.specs.Passes.{fits_step, right_step, right_vote, step_size, vote_size};
ghost use Rattle.eve_write.specs.Writes.{Writes};

use crate::batch::{BatchData, write_batch};
use crate::marks::{write_replica, write_verifier};
use crate::measure::{Measure, len_of_each};
use crate::right::{Judge, all_right};
use crate::spell::write_each;
use crate::step::Step;
use crate::vote::VoteData;
use eve_grammar::{Head, MOST_BATCHES, MOST_REPLICAS, MOST_VERIFIERS};
use eve_streams::{SendFault, Sink};

/// Writes batches, numbered from 1.
pub(crate) fn write_batches<W: Sink>(out: &mut W, batches: &[BatchData]) -> Result<(), SendFault>
    requires few { length batches.now ≤ MOST_BATCHES }
    requires right { IsTrue (list_all (λ b. is_batch (batch b)) batches.now) }
    ensures { Writes W.written W.failures out.old out.new result
        (flat_map batch_text (enumerate_from 1 (map batch batches.now))) }
{
    for (i, batch) in batches.iter().enumerate() {
        write_batch(out, i as u32 + 1, batch)?;
    }
    Ok(())
}

fn write_section<W: Sink>(out: &mut W, number: u8, steps: &[Step]) -> Result<(), SendFault>
    requires { IsTrue (list_all fits_step steps.now) }
    ensures { Writes W.written W.failures out.old out.new result
        (section_text (number, map step steps.now)) }
{
    write_replica(out, number)?;
    write_each(out, steps)
}

/// Writes sections, numbered from 0.
pub(crate) fn write_sections<W: Sink>(out: &mut W, sections: &[Vec<Step>]) -> Result<(), SendFault>
    requires few { length sections.now ≤ MOST_REPLICAS }
    requires right { IsTrue (list_all (λ s. list_all fits_step s.items) sections.now) }
    ensures { Writes W.written W.failures out.old out.new result
        (flat_map section_text (enumerate_from 0 (map section sections.now))) }
{
    for (i, steps) in sections.iter().enumerate() {
        write_section(out, i as u8, steps.as_slice())?;
    }
    Ok(())
}

fn write_votes<W: Sink>(out: &mut W, number: u8, votes: &[VoteData]) -> Result<(), SendFault>
    requires { IsTrue (list_all fits_vote votes.now) }
    ensures { Writes W.written W.failures out.old out.new result
        (votes_text (number, map vote votes.now)) }
{
    write_verifier(out, number)?;
    write_each(out, votes)
}

/// Writes verifiers' votes, numbered from 0.
pub(crate) fn write_verifiers<W: Sink>(
    out: &mut W,
    verifiers: &[Vec<VoteData>],
) -> Result<(), SendFault>
    requires few { length verifiers.now ≤ MOST_VERIFIERS }
    requires right { IsTrue (list_all (λ v. list_all fits_vote v.items) verifiers.now) }
    ensures { Writes W.written W.failures out.old out.new result
        (flat_map votes_text (enumerate_from 0 (map votes verifiers.now))) }
{
    for (i, votes) in verifiers.iter().enumerate() {
        write_votes(out, i as u8, votes.as_slice())?;
    }
    Ok(())
}

impl Measure for Vec<Step> {
    ghost size = { λ s. 6 + sum_by step_size s.items };

    ghost fits = { λ s. list_all fits_step s.items };

    fn text_len(&self) -> u64 {
        len_of_each(self.as_slice()).saturating_add(6)
    }
}

impl Measure for Vec<VoteData> {
    ghost size = { λ v. 6 + sum_by vote_size v.items };

    ghost fits = { λ v. list_all fits_vote v.items };

    fn text_len(&self) -> u64 {
        len_of_each(self.as_slice()).saturating_add(6)
    }
}

impl Judge for Vec<Step> {
    ghost right = { λ h s. list_all (right_step h) s.items };

    fn is_right(&self, head: &Head) -> bool {
        all_right(self.as_slice(), head)
    }
}

impl Judge for Vec<VoteData> {
    ghost right = { λ h v. list_all (right_vote h) v.items };

    fn is_right(&self, head: &Head) -> bool {
        all_right(self.as_slice(), head)
    }
}
