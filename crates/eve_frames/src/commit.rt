//! A view of a Commit frame.

ghost use Rattle.std.specs.Prelude.{◌≡◌, IsTrue, Some};
ghost use Rattle.eve_grammar.specs.Readers.{commit_of};
ghost use Rattle.eve_frames.specs.Views.{body_in, has_commit_body, commit_in};

use byteorder::{BigEndian, ByteOrder};

/// A Commit frame, where it stands.
#[derive(Clone, Copy)]
pub struct CommitView<'a> {
    /// The byte of the trace at which it begins.
    pub offset: u64,
    /// Its kind, the length of its body, and the body, as they stand.
    pub bytes: &'a [u8],
    pub ghost whole: { IsTrue (has_commit_body bytes.now) },
}

impl<'a> CommitView<'a> {
    /// The view of these bytes, which have such a body after the first five. The first five are the frame's kind and
    /// length: the caller sees to that, no clause does.
    #[tactic(auto, using(crate::proofs::CommitPlaces::commit_laws))]
    pub fn new(offset: u64, bytes: &'a [u8]) -> CommitView<'a>
        requires { IsTrue (has_commit_body bytes.now) }
        ensures offset { result.offset ≡ offset }
        ensures bytes { result.bytes.now ≡ bytes.now }
        ensures read { commit_of (body_in bytes.now) ≡ Some (commit_in bytes.now) }
    {
        CommitView { offset, bytes }
    }

    /// The byte of the trace at which it begins.
    pub fn offset(&self) -> u64
        ensures { result ≡ self.now.offset }
    {
        self.offset
    }

    /// The whole frame, and no more.
    pub fn bytes(&self) -> &'a [u8]
        ensures { result.now ≡ self.now.bytes.now }
    {
        let frame = self.bytes;
        frame
    }

    /// The number of the committed batch.
    #[tactic(auto, using(crate::proofs::CommitPlaces::commit_laws))]
    pub fn seq(&self) -> u32
        ensures { result ≡ (commit_in self.now.bytes.now).seq }
    {
        BigEndian::read_u32(&self.bytes[5..])
    }

    /// The view in which it is committed.
    #[tactic(auto, using(crate::proofs::CommitPlaces::commit_laws))]
    pub fn view(&self) -> u32
        ensures { result ≡ (commit_in self.now.bytes.now).view }
    {
        BigEndian::read_u32(&self.bytes[9..])
    }

    /// The token, of 32 bytes.
    #[tactic(auto, using(crate::proofs::CommitPlaces::commit_laws))]
    pub fn token(&self) -> &'a [u8]
        ensures { result.now ≡ (commit_in self.now.bytes.now).token }
    {
        let bytes = self.bytes;
        &bytes[13..45]
    }
}
