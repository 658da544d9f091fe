//! A view of a Vote frame.

ghost use Rattle.std.specs.Prelude.{◌≡◌, IsTrue, Some};
ghost use Rattle.eve_grammar.specs.Readers.{vote_of};
ghost use Rattle.eve_grammar.specs.Bodies.{borrowed_choice};
ghost use Rattle.eve_grammar.specs.declared.limits.TheConstants.{MOST_BATCHES};
ghost use Rattle.eve_frames.specs.Views.{body_in, has_vote_body, vote_in};

use byteorder::{BigEndian, ByteOrder};
use eve_grammar::Choice;

/// A Vote frame, where it stands.
#[derive(Clone, Copy)]
pub struct VoteView<'a> {
    /// The byte of the trace at which it begins.
    pub offset: u64,
    /// Its kind, the length of its body, and the body, as they stand.
    pub bytes: &'a [u8],
    pub ghost whole: { IsTrue (has_vote_body bytes.now) },
}

impl<'a> VoteView<'a> {
    /// The view of these bytes, which have such a body after the first five. The first five are the frame's kind and
    /// length: the caller sees to that, no clause does.
    #[tactic(auto, using(crate::proofs::VotePlaces::vote_laws))]
    pub fn new(offset: u64, bytes: &'a [u8]) -> VoteView<'a>
        requires { IsTrue (has_vote_body bytes.now) }
        ensures offset { result.offset ≡ offset }
        ensures bytes { result.bytes.now ≡ bytes.now }
        ensures read { vote_of MOST_BATCHES (body_in bytes.now) ≡ Some (vote_in bytes.now) }
    {
        VoteView { offset, bytes }
    }

    /// The byte of the trace at which it begins.
    pub fn offset(&self) -> u64
        ensures { result ≡ self.now.offset }
    {
        self.offset
    }

    /// The whole frame, and no more.
    pub fn bytes(&self) -> &'a [u8]
        ensures { result.now ≡ self.now.bytes.now }
    {
        let frame = self.bytes;
        frame
    }

    /// The number of the batch that it is on, from 1.
    #[tactic(auto, using(crate::proofs::VotePlaces::vote_laws))]
    pub fn seq(&self) -> u32
        ensures { result ≡ (vote_in self.now.bytes.now).seq }
    {
        BigEndian::read_u32(&self.bytes[5..])
    }

    /// The view that it is in.
    #[tactic(auto, using(crate::proofs::VotePlaces::vote_laws))]
    pub fn view(&self) -> u32
        ensures { result ≡ (vote_in self.now.bytes.now).view }
    {
        BigEndian::read_u32(&self.bytes[9..])
    }

    /// What it is for, with the token of a commit as it stands.
    #[tactic(auto, using(crate::proofs::VotePlaces::vote_laws))]
    pub fn choice(&self) -> Choice<'a>
        ensures { borrowed_choice result ≡ (vote_in self.now.bytes.now).choice }
    {
        let bytes = self.bytes;
        if bytes[13] == 1 {
            Choice::ForCommit(&bytes[14..46])
        } else {
            Choice::ForRollback
        }
    }
}
