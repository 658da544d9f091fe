//! A view of a Sent frame.

ghost use Rattle.std.specs.Prelude.{◌≡◌, IsTrue, Some};
ghost use Rattle.eve_grammar.specs.Readers.{sent_of};
ghost use Rattle.eve_grammar.specs.declared.limits.TheConstants.{MOST_REPLICAS, MOST_BATCHES};
ghost use Rattle.eve_frames.specs.Views.{body_in, has_sent_body, sent_in};

use byteorder::{BigEndian, ByteOrder};
use eve_grammar::reply_at;
use eve_smallbank::Reply;

/// A Sent frame, where it stands.
#[derive(Clone, Copy)]
pub struct SentView<'a> {
    /// The byte of the trace at which it begins.
    pub offset: u64,
    /// Its kind, the length of its body, and the body, as they stand.
    pub bytes: &'a [u8],
    pub ghost whole: { IsTrue (has_sent_body bytes.now) },
}

impl<'a> SentView<'a> {
    /// The view of these bytes, which have such a body after the first five. The first five are the frame's kind and
    /// length: the caller sees to that, no clause does.
    #[tactic(auto, using(crate::proofs::SentPlaces::sent_laws))]
    pub fn new(offset: u64, bytes: &'a [u8]) -> SentView<'a>
        requires { IsTrue (has_sent_body bytes.now) }
        ensures offset { result.offset ≡ offset }
        ensures bytes { result.bytes.now ≡ bytes.now }
        ensures read { sent_of MOST_REPLICAS MOST_BATCHES (body_in bytes.now) ≡ Some (sent_in bytes.now) }
    {
        SentView { offset, bytes }
    }

    /// The byte of the trace at which it begins.
    pub fn offset(&self) -> u64
        ensures { result ≡ self.now.offset }
    {
        self.offset
    }

    /// The whole frame, and no more.
    pub fn bytes(&self) -> &'a [u8]
        ensures { result.now ≡ self.now.bytes.now }
    {
        let frame = self.bytes;
        frame
    }

    /// The client.
    #[tactic(auto, using(crate::proofs::SentPlaces::sent_laws))]
    pub fn client(&self) -> u32
        ensures { result ≡ (sent_in self.now.bytes.now).client }
    {
        BigEndian::read_u32(&self.bytes[5..])
    }

    /// The client's number for the request.
    #[tactic(auto, using(crate::proofs::SentPlaces::sent_laws))]
    pub fn number(&self) -> u64
        ensures { result ≡ (sent_in self.now.bytes.now).number }
    {
        BigEndian::read_u64(&self.bytes[9..])
    }

    /// The replica that sent it, from 0.
    #[tactic(auto, using(crate::proofs::SentPlaces::sent_laws))]
    pub fn replica(&self) -> u8
        ensures { result ≡ (sent_in self.now.bytes.now).replica }
    {
        self.bytes[17]
    }

    /// The number of the request's batch, from 1.
    #[tactic(auto, using(crate::proofs::SentPlaces::sent_laws))]
    pub fn seq(&self) -> u32
        ensures { result ≡ (sent_in self.now.bytes.now).seq }
    {
        BigEndian::read_u32(&self.bytes[18..])
    }

    /// The reply.
    #[tactic(auto, using(crate::proofs::SentPlaces::sent_long, crate::proofs::SentPlaces::sent_reply))]
    pub fn reply(&self) -> Reply
        ensures { result ≡ (sent_in self.now.bytes.now).reply }
    {
        match reply_at(&self.bytes[22..]) {
            Some((reply, _)) => reply,
            None => unreachable!(),
        }
    }
}
