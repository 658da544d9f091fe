//! A view of a Rollback frame.

ghost use Rattle.std.specs.Prelude.{◌≡◌, ◌<◌, IsTrue, Some, length, slice_get};
ghost use Rattle.eve_grammar.specs.Readers.{rollback_of};
ghost use Rattle.eve_frames.specs.Views.{body_in, has_rollback_body, rollback_in};

use crate::restores::Restores;
use byteorder::{BigEndian, ByteOrder};
use eve_grammar::{MOST_ROWS, Restore, restore_at};

/// A Rollback frame, where it stands.
///
/// docs/TRACE.md, "Frames".
#[derive(Clone, Copy)]
pub struct RollbackView<'a> {
    /// The byte of the trace at which it begins.
    pub offset: u64,
    /// Its kind, the length of its body, and the body, as they stand.
    pub bytes: &'a [u8],
    pub ghost whole: { IsTrue (has_rollback_body bytes.now) },
}

impl<'a> RollbackView<'a> {
    /// The view of these bytes, which have such a body after the first five. The first five are the frame's kind and
    /// length: the caller sees to that, no clause does.
    #[tactic(auto, using(crate::proofs::RollbackPlaces::rollback_laws))]
    pub fn new(offset: u64, bytes: &'a [u8]) -> RollbackView<'a>
        requires { IsTrue (has_rollback_body bytes.now) }
        ensures offset { result.offset ≡ offset }
        ensures bytes { result.bytes.now ≡ bytes.now }
        ensures read { rollback_of MOST_ROWS (body_in bytes.now) ≡ Some (rollback_in bytes.now) }
    {
        RollbackView { offset, bytes }
    }

    /// The byte of the trace at which it begins.
    pub fn offset(&self) -> u64
        ensures { result ≡ self.now.offset }
    {
        self.offset
    }

    /// The whole frame, and no more.
    pub fn bytes(&self) -> &'a [u8]
        ensures { result.now ≡ self.now.bytes.now }
    {
        let frame = self.bytes;
        frame
    }

    /// The number of the batch that the replica goes back to.
    #[tactic(auto, using(crate::proofs::RollbackPlaces::rollback_laws))]
    pub fn to(&self) -> u32
        ensures { result ≡ (rollback_in self.now.bytes.now).to }
    {
        BigEndian::read_u32(&self.bytes[5..])
    }

    /// The view in which it goes on.
    #[tactic(auto, using(crate::proofs::RollbackPlaces::rollback_laws))]
    pub fn view(&self) -> u32
        ensures { result ≡ (rollback_in self.now.bytes.now).view }
    {
        BigEndian::read_u32(&self.bytes[9..])
    }

    /// How many restores it has.
    #[tactic(auto, using(crate::proofs::RollbackPlaces::rollback_laws))]
    pub fn len(&self) -> usize
        ensures { result ≡ length (rollback_in self.now.bytes.now).restores }
    {
        BigEndian::read_u32(&self.bytes[13..]) as usize
    }

    /// A restore, counted from 0.
    #[tactic(auto, using(crate::proofs::RollbackPlaces::rollback_laws))]
    pub fn restore(&self, i: usize) -> Restore
        requires { i < length (rollback_in self.now.bytes.now).restores }
        ensures { slice_get (rollback_in self.now.bytes.now).restores i ≡ Some result }
    {
        let at = 17 + 20 * i;
        match restore_at(MOST_ROWS, &self.bytes[at..]) {
            Some((found, _)) => found,
            None => unreachable!(),
        }
    }

    /// The restores, by rising row, in one pass.
    #[tactic(auto, using(crate::proofs::RollbackPlaces::rollback_laws))]
    pub fn restores(&self) -> Restores<'a>
        ensures { result ≡ (rollback_in self.now.bytes.now).restores }
    {
        let count = self.len();
        let bytes = self.bytes;
        Restores::new(count, &bytes[17..])
    }
}
