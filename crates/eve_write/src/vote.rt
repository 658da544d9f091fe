//! Votes and their frames.

ghost use Rattle.std.specs.Prelude.{◌≡◌, IsTrue};
ghost use Rattle.eve_grammar.specs.Frames.{OfVote};
ghost use Rattle.eve_grammar.specs.Spelling.{frame_text};
ghost use Rattle.eve_write.specs.Data.{vote as plain, choice_code, has_due_token};
ghost use Rattle.eve_write.specs.Writable.{fits_vote};
ghost use Rattle.eve_write.specs.Passes.{vote_size, right_vote};
ghost use Rattle.eve_write.specs.Writes.{Writes};

use crate::fields::token_len;
use crate::measure::Measure;
use crate::right::Judge;
use crate::spell::{Spell, send_texts};
use eve_grammar::{Head, VOTE_FRAME, is_zeros, token_fits};
use eve_streams::{SendFault, Sink};

/// What a verifier votes for.
#[derive(Clone, Copy)]
pub enum ChoiceData {
    /// That the batch is rolled back.
    ForRollback,
    /// That the batch is committed.
    ForCommit,
}

/// A verifier's vote on a batch in a view. Contracts see it by `vote`.
#[derive(Clone, Copy)]
pub struct VoteData {
    /// The batch's number, from 1.
    pub seq: u32,
    /// The view.
    pub view: u32,
    /// What it is for.
    pub choice: ChoiceData,
    /// The token to be committed; 32 zero bytes in a vote for a rollback, which has no spelling with another.
    pub token: [u8; 32],
}

fn choice_code(choice: ChoiceData) -> u8
    ensures { result ≡ choice_code choice }
{
    match choice {
        ChoiceData::ForRollback => 0,
        ChoiceData::ForCommit => 1,
    }
}

/// Writes a Vote frame. A vote for a rollback has zeros for its token.
///
/// docs/TRACE.md, "Frames". After a fault a prefix of the frame has been taken, and not all of it.
pub fn write_vote<W: Sink>(out: &mut W, vote: &VoteData) -> Result<(), SendFault>
    requires { IsTrue (has_due_token vote.now.choice vote.now.token) }
    ensures { Writes W.written W.failures out.old out.new result (frame_text (OfVote (plain vote.now))) }
{
    let body_len = (9 + token_len(&vote.token)).to_be_bytes();
    let seq = vote.seq.to_be_bytes();
    let view = vote.view.to_be_bytes();
    let choice = choice_code(vote.choice);
    send_texts(
        out,
        &[
            &[VOTE_FRAME],
            &body_len,
            &seq,
            &view,
            &[choice],
            &vote.token,
        ],
    )
}

fn has_due_token(choice: ChoiceData, token: &[u8; 32]) -> bool
    ensures { result ≡ has_due_token choice token.now }
{
    match choice {
        ChoiceData::ForRollback => is_zeros(token),
        ChoiceData::ForCommit => true,
    }
}

impl Spell for VoteData {
    ghost text = { λ v. frame_text (OfVote (plain v)) };

    ghost fits = { fits_vote };

    fn write<W: Sink>(&self, out: &mut W) -> Result<(), SendFault> {
        write_vote(out, self)
    }
}

impl Measure for VoteData {
    ghost size = { vote_size };

    ghost fits = { fits_vote };

    fn text_len(&self) -> u64 {
        46
    }
}

impl Judge for VoteData {
    ghost right = { right_vote };

    fn is_right(&self, head: &Head) -> bool {
        let _view = self.view;
        token_fits(&self.token);
        1 <= self.seq && self.seq <= head.batches && has_due_token(self.choice, &self.token)
    }
}
