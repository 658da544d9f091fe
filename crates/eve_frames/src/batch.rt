//! A view of a Batch frame.

ghost use Rattle.std.specs.Prelude.{◌≡◌, ◌<◌, IsTrue, Some, length, slice_get};
ghost use Rattle.std.specs.Option.{option_map};
ghost use Rattle.eve_smallbank.specs.SmallBank.{plain};
ghost use Rattle.eve_grammar.specs.Readers.{batch_of};
ghost use Rattle.eve_frames.specs.Views.{body_in, has_batch_body, batch_in};

use crate::requests::Requests;
use byteorder::{BigEndian, ByteOrder};
use eve_smallbank::Request;

/// A Batch frame, where it stands.
///
/// docs/TRACE.md, "Frames".
#[derive(Clone, Copy)]
pub struct BatchView<'a> {
    /// The byte of the trace at which it begins.
    pub offset: u64,
    /// Its kind, the length of its body, and the body, as they stand.
    pub bytes: &'a [u8],
    pub ghost whole: { IsTrue (has_batch_body bytes.now) },
}

impl<'a> BatchView<'a> {
    /// The view of these bytes, which have such a body after the first five. The first five are the frame's kind and
    /// length: the caller sees to that, no clause does.
    #[tactic(auto, using(crate::proofs::BatchPlaces::batch_laws))]
    pub fn new(offset: u64, bytes: &'a [u8]) -> BatchView<'a>
        requires { IsTrue (has_batch_body bytes.now) }
        ensures offset { result.offset ≡ offset }
        ensures bytes { result.bytes.now ≡ bytes.now }
        ensures read { batch_of (body_in bytes.now) ≡ Some (batch_in bytes.now) }
    {
        BatchView { offset, bytes }
    }

    /// The byte of the trace at which it begins.
    pub fn offset(&self) -> u64
        ensures { result ≡ self.now.offset }
    {
        self.offset
    }

    /// The whole frame, and no more.
    pub fn bytes(&self) -> &'a [u8]
        ensures { result.now ≡ self.now.bytes.now }
    {
        let frame = self.bytes;
        frame
    }

    /// The batch's number, from 1.
    #[tactic(auto, using(crate::proofs::BatchPlaces::batch_laws))]
    pub fn seq(&self) -> u32
        ensures { result ≡ (batch_in self.now.bytes.now).0 }
    {
        BigEndian::read_u32(&self.bytes[5..])
    }

    /// How many parallelBatches it has, 1 to 256.
    #[tactic(auto, using(crate::proofs::BatchPlaces::batch_laws))]
    pub fn groups(&self) -> usize
        ensures { result ≡ length (batch_in self.now.bytes.now).1.sizes }
    {
        BigEndian::read_u16(&self.bytes[9..]) as usize
    }

    /// How many requests a parallelBatch has, counted from 0.
    #[tactic(auto, using(crate::proofs::BatchPlaces::batch_laws))]
    pub fn group(&self, i: usize) -> u16
        requires { i < length (batch_in self.now.bytes.now).1.sizes }
        ensures { slice_get (batch_in self.now.bytes.now).1.sizes i ≡ Some result }
    {
        BigEndian::read_u16(&self.bytes[11 + 2 * i..])
    }

    /// How many requests it has, 1 to 256: it goes through the parallelBatches.
    #[tactic(auto, using(crate::proofs::BatchPlaces::batch_laws))]
    pub fn len(&self) -> usize
        ensures { result ≡ length (batch_in self.now.bytes.now).1.requests }
    {
        let mut total = 0;
        for i in 0..self.groups() {
            total += self.group(i) as usize;
        }
        total
    }

    /// The requests, one parallelBatch after another, in one pass.
    #[tactic(auto, using(crate::proofs::BatchPlaces::batch_laws))]
    pub fn requests(&self) -> Requests<'a>
        ensures { result ≡ (batch_in self.now.bytes.now).1.requests }
    {
        let count = self.len();
        let at = 11 + 2 * self.groups();
        let bytes = self.bytes;
        Requests::new(count, &bytes[at..])
    }

    /// The request of an index, from 0: it goes through those before it, so a loop takes `requests`.
    #[tactic(auto, using(crate::proofs::BatchPlaces::batch_laws))]
    pub fn request(&self, i: usize) -> Request<'a>
        requires { i < length (batch_in self.now.bytes.now).1.requests }
        ensures { option_map (λ a. a.request) (slice_get (batch_in self.now.bytes.now).1.requests i)
            ≡ Some (plain result) }
    {
        match self.requests().nth(i) {
            Some(asked) => asked.request,
            None => unreachable!(),
        }
    }
}
