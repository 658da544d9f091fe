//! Commits and their frames.

ghost use Rattle.std.specs.Prelude.{◌≡◌, IsTrue, length};
ghost use Rattle.eve_grammar.specs.Frames.{OfCommit};
ghost use Rattle.eve_grammar.specs.Spelling.{body_text, frame_text};
ghost use Rattle.eve_grammar.specs.Limits.{is_commit};
ghost use Rattle.eve_write.specs.Data.{commit as plain};
ghost use Rattle.eve_write.specs.Writes.{Writes};

use crate::spell::send_texts;
use eve_grammar::{COMMIT_FRAME, token_fits};
use eve_streams::{SendFault, Sink};

/// A commit of a batch. Contracts see it by `commit`.
#[derive(Clone, Copy)]
pub struct CommitData {
    /// The batch's number, from 1.
    pub seq: u32,
    /// The view.
    pub view: u32,
    /// The token that was decided.
    pub token: [u8; 32],
}

impl CommitData {
    /// How long the body of its frame is.
    pub(crate) fn body_len(&self) -> u32
        ensures { result ≡ length (body_text (OfCommit (plain self.now))) }
    {
        8 + self.token.len() as u32
    }
}

/// Writes a Commit frame.
///
/// docs/TRACE.md, "Frames". After a fault a prefix of the frame has been taken, and not all of it.
pub fn write_commit<W: Sink>(out: &mut W, commit: &CommitData) -> Result<(), SendFault>
    ensures { Writes W.written W.failures out.old out.new result (frame_text (OfCommit (plain commit.now))) }
{
    let body_len = commit.body_len().to_be_bytes();
    let seq = commit.seq.to_be_bytes();
    let view = commit.view.to_be_bytes();
    send_texts(
        out,
        &[&[COMMIT_FRAME], &body_len, &seq, &view, &commit.token],
    )
}

/// A commit lies within the limits as it stands.
pub fn commit_fits(commit: &CommitData)
    ensures { IsTrue (is_commit (plain commit.now)) }
{
    let _seq = commit.seq;
    let _view = commit.view;
    token_fits(&commit.token);
}
