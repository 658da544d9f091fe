//! The votes of a verifier.

ghost use Rattle.std.specs.Prelude.{◌≡◌, ◌<◌, ◌-◌, length, slice_get, Some};
ghost use Rattle.eve_grammar.specs.Frames.{OfVote, frames_of};
ghost use Rattle.eve_grammar.specs.Spelling.{frame_text};
ghost use Rattle.eve_frames.specs.Decoded.{vote_decoded};
ghost use Rattle.eve_views.specs.Parts.{votes_between, AreVotes};

use crate::trace::Trace;
use eve_frames::VoteView;
use std::marker::Model;

/// The votes of a verifier, where they stand.
///
/// Contracts see them as a list of votes, each with its byte offset.
#[derive(Drop)]
pub struct Votes<'t, 'a> {
    trace: &'t Trace<'a>,
    from: usize,
    to: usize,
}

impl<'t, 'a> Model for Votes<'t, 'a> {
    ghost use Rattle.std.specs.Prelude.{ℕ, ◌-◌, List};
    ghost use Rattle.eve_grammar.specs.Trace.{Vote};
    ghost use Rattle.eve_grammar.specs.Frames.{frames_of};
    ghost use Rattle.eve_views.specs.Parts.{votes_between, AreVotes};

    ghost Value = { List (ℕ × Vote) };

    ghost view = { λ x. votes_between (frames_of x.trace.now) x.from (x.to - x.from) };

    ghost invariant = { λ x. AreVotes (frames_of x.trace.now) x.from x.to };
}

impl<'t, 'a> Votes<'t, 'a> {
    /// The frames between two numbers.
    pub(crate) fn new(trace: &'t Trace<'a>, from: usize, to: usize) -> Votes<'t, 'a>
        requires { AreVotes (frames_of trace.now) from to }
        ensures { result ≡ votes_between (frames_of trace.now) from (to - from) }
    {
        Votes { trace, from, to }
    }

    /// How many there are.
    pub fn len(&self) -> usize
        ensures { result ≡ length self.now }
    {
        self.to - self.from
    }

    /// A vote, by its place from 0.
    pub fn get(&self, i: usize) -> VoteView<'a>
        requires { i < length self.now }
        ensures says { slice_get self.now i ≡ Some (result.offset, vote_decoded result) }
        ensures text { result.bytes.now ≡ frame_text (OfVote (vote_decoded result)) }
    {
        prove!(self.from <= self.to);
        let frame = self.trace.frame(self.from + i);
        VoteView::new(frame.offset, frame.bytes)
    }
}
