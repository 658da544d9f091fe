//! A view of an Attempt frame.

ghost use Rattle.std.specs.Prelude.{◌≡◌, ◌<◌, IsTrue, Some, length, slice_get};
ghost use Rattle.std.specs.List.{flat_map};
ghost use Rattle.eve_smallbank.specs.Spelling.{reply_text};
ghost use Rattle.eve_grammar.specs.Readers.{attempt_of};
ghost use Rattle.eve_frames.specs.Views.{body_in, has_attempt_body, attempt_in};

use crate::certificate::Certificate;
use crate::replies::Replies;
use byteorder::{BigEndian, ByteOrder};
use eve_grammar::reply_at;
use eve_smallbank::Reply;

/// The replies of an Attempt frame of `count` requests, as they stand.
#[tactic(auto, using(crate::proofs::AttemptPlaces::attempt_laws))]
fn replies_of(frame: &[u8], count: usize) -> &[u8]
    requires frame { IsTrue (has_attempt_body frame.now) }
    requires count { count ≡ length (attempt_in frame.now).certificate }
    ensures { result.now ≡ flat_map reply_text (attempt_in frame.now).replies }
{
    let at = 16 + 2 * count;
    &frame[at..at + 9 * count]
}

/// An Attempt frame, where it stands. Its accesses have frames of their own after it.
///
/// docs/TRACE.md, "Frames".
#[derive(Clone, Copy)]
pub struct AttemptView<'a> {
    /// The byte of the trace at which it begins.
    pub offset: u64,
    /// Its kind, the length of its body, and the body, as they stand.
    pub bytes: &'a [u8],
    pub ghost whole: { IsTrue (has_attempt_body bytes.now) },
}

impl<'a> AttemptView<'a> {
    /// The view of these bytes, which have such a body after the first five. The first five are the frame's kind and
    /// length: the caller sees to that, no clause does.
    #[tactic(auto, using(crate::proofs::AttemptPlaces::attempt_laws))]
    pub fn new(offset: u64, bytes: &'a [u8]) -> AttemptView<'a>
        requires { IsTrue (has_attempt_body bytes.now) }
        ensures offset { result.offset ≡ offset }
        ensures bytes { result.bytes.now ≡ bytes.now }
        ensures read { attempt_of (body_in bytes.now) ≡ Some (attempt_in bytes.now) }
    {
        AttemptView { offset, bytes }
    }

    /// The byte of the trace at which it begins.
    pub fn offset(&self) -> u64
        ensures { result ≡ self.now.offset }
    {
        self.offset
    }

    /// The whole frame, and no more.
    pub fn bytes(&self) -> &'a [u8]
        ensures { result.now ≡ self.now.bytes.now }
    {
        let frame = self.bytes;
        frame
    }

    /// The number of the batch that was executed.
    #[tactic(auto, using(crate::proofs::AttemptPlaces::attempt_laws))]
    pub fn seq(&self) -> u32
        ensures { result ≡ (attempt_in self.now.bytes.now).seq }
    {
        BigEndian::read_u32(&self.bytes[5..])
    }

    /// The view in which it was executed.
    #[tactic(auto, using(crate::proofs::AttemptPlaces::attempt_laws))]
    pub fn view(&self) -> u32
        ensures { result ≡ (attempt_in self.now.bytes.now).view }
    {
        BigEndian::read_u32(&self.bytes[9..])
    }

    /// Whether one worker executed it, in index order.
    #[tactic(auto, using(crate::proofs::AttemptPlaces::attempt_laws))]
    pub fn is_serial(&self) -> bool
        ensures { result ≡ (attempt_in self.now.bytes.now).serial }
    {
        self.bytes[13] == 1
    }

    /// How many requests its certificate has, 1 to 256. There are as many replies.
    #[tactic(auto, using(crate::proofs::AttemptPlaces::attempt_laws))]
    pub fn len(&self) -> usize
        ensures certificate { result ≡ length (attempt_in self.now.bytes.now).certificate }
        ensures replies { result ≡ length (attempt_in self.now.bytes.now).replies }
    {
        BigEndian::read_u16(&self.bytes[14..]) as usize
    }

    /// The request index at a place of the certificate, from 0.
    #[tactic(auto, using(crate::proofs::AttemptPlaces::attempt_laws))]
    pub fn index_at(&self, place: usize) -> u16
        requires { place < length (attempt_in self.now.bytes.now).certificate }
        ensures { slice_get (attempt_in self.now.bytes.now).certificate place ≡ Some result }
    {
        BigEndian::read_u16(&self.bytes[16 + 2 * place..])
    }

    /// The certificate, from its first place on, in one pass.
    #[tactic(auto, using(crate::proofs::AttemptPlaces::attempt_laws))]
    pub fn certificate(&self) -> Certificate<'a>
        ensures { result ≡ (attempt_in self.now.bytes.now).certificate }
    {
        let count = self.len();
        let bytes = self.bytes;
        Certificate::new(count, &bytes[16..])
    }

    /// The reply to the request of an index, from 0.
    #[tactic(auto, using(crate::proofs::AttemptPlaces::attempt_laws))]
    pub fn reply(&self, i: usize) -> Reply
        requires { i < length (attempt_in self.now.bytes.now).replies }
        ensures { slice_get (attempt_in self.now.bytes.now).replies i ≡ Some result }
    {
        let at = 16 + 2 * self.len() + 9 * i;
        match reply_at(&self.bytes[at..]) {
            Some((reply, _)) => reply,
            None => unreachable!(),
        }
    }

    /// The replies, by request index, in one pass.
    #[tactic(auto, using(crate::proofs::AttemptPlaces::attempt_laws))]
    pub fn replies(&self) -> Replies<'a>
        ensures { result ≡ (attempt_in self.now.bytes.now).replies }
    {
        let count = self.len();
        let bytes = self.bytes;
        Replies::new(count, &bytes[16 + 2 * count..])
    }

    /// The replies as they stand: nine bytes each, by request index, which is how a token spells them.
    #[tactic(auto, using(crate::proofs::AttemptPlaces::attempt_laws))]
    pub fn reply_bytes(&self) -> &'a [u8]
        ensures { result.now ≡ flat_map reply_text (attempt_in self.now.bytes.now).replies }
    {
        let frame = self.bytes;
        replies_of(frame, self.len())
    }

    /// The token, of 32 bytes.
    #[tactic(auto, using(crate::proofs::AttemptPlaces::attempt_laws))]
    pub fn token(&self) -> &'a [u8]
        ensures { result.now ≡ (attempt_in self.now.bytes.now).token }
    {
        let at = 16 + 11 * self.len();
        let bytes = self.bytes;
        &bytes[at..at + 32]
    }
}
