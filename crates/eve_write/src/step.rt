//! What a replica does, one thing after another.

ghost use Rattle.eve_grammar.specs.Spelling.{step_text};
ghost use Rattle.eve_write.specs.Data.{step};
ghost use Rattle.eve_write.specs.Passes.{fits_step, right_step, step_size};

use crate::attempt::AttemptData;
use crate::commit::{CommitData, commit_fits, write_commit};
use crate::measure::Measure;
use crate::right::Judge;
use crate::rollback::{RollbackData, write_rollback};
use crate::spell::Spell;
use crate::transfer::{body_len, write_transfer};
use eve_grammar::{FRAME_HEAD_LEN, Head, TransferData};
use eve_streams::{SendFault, Sink};
use std::sync::Arc;

/// What a replica did. Contracts see it by `step`.
#[derive(Drop)]
pub enum Step {
    /// It executed a batch.
    Attempt(AttemptData),
    /// It committed a batch.
    Commit(CommitData),
    /// It rolled back.
    Rollback(RollbackData),
    /// A state was transferred to it, and is shared with all others that got it.
    Transfer(Arc<TransferData>),
}

impl Spell for Step {
    ghost text = { λ s. step_text (step s) };

    ghost fits = { fits_step };

    fn write<W: Sink>(&self, out: &mut W) -> Result<(), SendFault> {
        match self {
            Step::Attempt(attempt) => attempt.write_frames(out),
            Step::Commit(commit) => write_commit(out, commit),
            Step::Rollback(rollback) => write_rollback(out, rollback),
            Step::Transfer(transfer) => write_transfer(out, transfer),
        }
    }
}

impl Measure for Step {
    ghost size = { step_size };

    ghost fits = { fits_step };

    fn text_len(&self) -> u64 {
        match self {
            Step::Attempt(attempt) => attempt.text_len(),
            Step::Commit(commit) => FRAME_HEAD_LEN as u64 + commit.body_len() as u64,
            Step::Rollback(rollback) => FRAME_HEAD_LEN as u64 + rollback.body_len() as u64,
            Step::Transfer(transfer) => FRAME_HEAD_LEN as u64 + body_len(transfer) as u64,
        }
    }
}

impl Judge for Step {
    ghost right = { right_step };

    fn is_right(&self, head: &Head) -> bool {
        match self {
            Step::Attempt(attempt) => attempt.is_right(head),
            Step::Commit(commit) => {
                commit_fits(commit);
                true
            }
            Step::Rollback(rollback) => rollback.is_right(head),
            Step::Transfer(transfer) => transfer.is_right(head),
        }
    }
}
