//! A view of a Transfer frame.

ghost use Rattle.std.specs.Prelude.{◌≡◌, ◌<◌, IsTrue, Some, length, slice_get};
ghost use Rattle.eve_grammar.specs.Readers.{transfer_of};
ghost use Rattle.eve_frames.specs.Views.{body_in, has_transfer_body, state_rows_in, transfer_in};

use crate::rows::Rows;
use byteorder::{BigEndian, ByteOrder};
use eve_grammar::versioned_at;
use eve_smallbank::Versioned;

/// A Transfer frame, where it stands. How many rows it has is told by its length.
///
/// docs/TRACE.md, "Version 2".
#[derive(Clone, Copy)]
pub struct TransferView<'a> {
    /// The byte of the trace at which it begins.
    pub offset: u64,
    /// Its kind, the length of its body, and the body, as they stand.
    pub bytes: &'a [u8],
    pub ghost whole: { IsTrue (has_transfer_body bytes.now) },
}

impl<'a> TransferView<'a> {
    /// The view of these bytes, which have such a body after the first five. The first five are the frame's kind and
    /// length: the caller sees to that, no clause does.
    #[tactic(auto, using(crate::proofs::TransferPlaces::transfer_laws))]
    pub fn new(offset: u64, bytes: &'a [u8]) -> TransferView<'a>
        requires { IsTrue (has_transfer_body bytes.now) }
        ensures offset { result.offset ≡ offset }
        ensures bytes { result.bytes.now ≡ bytes.now }
        ensures read { transfer_of (state_rows_in bytes.now) (body_in bytes.now) ≡ Some (transfer_in bytes.now) }
    {
        TransferView { offset, bytes }
    }

    /// The byte of the trace at which it begins.
    pub fn offset(&self) -> u64
        ensures { result ≡ self.now.offset }
    {
        self.offset
    }

    /// The whole frame, and no more.
    pub fn bytes(&self) -> &'a [u8]
        ensures { result.now ≡ self.now.bytes.now }
    {
        let frame = self.bytes;
        frame
    }

    /// The number of the batch whose state is transferred.
    #[tactic(auto, using(crate::proofs::TransferPlaces::transfer_laws))]
    pub fn seq(&self) -> u32
        ensures { result ≡ (transfer_in self.now.bytes.now).seq }
    {
        BigEndian::read_u32(&self.bytes[5..])
    }

    /// The view in which it was committed.
    #[tactic(auto, using(crate::proofs::TransferPlaces::transfer_laws))]
    pub fn view(&self) -> u32
        ensures { result ≡ (transfer_in self.now.bytes.now).view }
    {
        BigEndian::read_u32(&self.bytes[9..])
    }

    /// How many rows it has: two for each customer.
    #[tactic(auto, using(crate::proofs::TransferPlaces::transfer_laws))]
    pub fn len(&self) -> usize
        ensures { result ≡ length (transfer_in self.now.bytes.now).rows }
    {
        (self.bytes.len() - 13) / 16
    }

    /// What a row has, by the row's number, in constant time.
    #[tactic(auto, using(crate::proofs::TransferPlaces::transfer_laws))]
    pub fn row(&self, i: usize) -> Versioned
        requires { i < length (transfer_in self.now.bytes.now).rows }
        ensures { slice_get (transfer_in self.now.bytes.now).rows i ≡ Some result }
    {
        let at = 13 + 16 * i;
        match versioned_at(&self.bytes[at..]) {
            Some((found, _)) => found,
            None => unreachable!(),
        }
    }

    /// What the rows have, row by row, in one pass.
    #[tactic(auto, using(crate::proofs::TransferPlaces::transfer_laws))]
    pub fn rows(&self) -> Rows<'a>
        ensures { result ≡ (transfer_in self.now.bytes.now).rows }
    {
        let count = self.len();
        let bytes = self.bytes;
        Rows::new(count, &bytes[13..])
    }
}
