//! A view of an Access frame.

ghost use Rattle.std.specs.Prelude.{◌≡◌, ◌<◌, ◌≤◌, IsTrue, Some, length, slice_get};
ghost use Rattle.eve_grammar.specs.Readers.{access_of};
ghost use Rattle.eve_grammar.specs.declared.limits.TheConstants.{MOST_ROWS, MOST_ENTRIES};
ghost use Rattle.eve_frames.specs.Views.{body_in, has_access_body, access_in};

use crate::entries::Entries;
use byteorder::{BigEndian, ByteOrder};
use eve_grammar::entry_again;
use eve_smallbank::Entry;

/// An Access frame, where it stands.
///
/// docs/TRACE.md, "Frames".
#[derive(Clone, Copy)]
pub struct AccessView<'a> {
    /// The byte of the trace at which it begins.
    pub offset: u64,
    /// Its kind, the length of its body, and the body, as they stand.
    pub bytes: &'a [u8],
    pub ghost whole: { IsTrue (has_access_body bytes.now) },
}

impl<'a> AccessView<'a> {
    /// The view of these bytes, which have such a body after the first five. The first five are the frame's kind and
    /// length: the caller sees to that, no clause does.
    #[tactic(auto, using(crate::proofs::AccessPlaces::access_laws))]
    pub fn new(offset: u64, bytes: &'a [u8]) -> AccessView<'a>
        requires { IsTrue (has_access_body bytes.now) }
        ensures offset { result.offset ≡ offset }
        ensures bytes { result.bytes.now ≡ bytes.now }
        ensures read { access_of MOST_ROWS (body_in bytes.now) ≡ Some (access_in bytes.now) }
    {
        AccessView { offset, bytes }
    }

    /// The byte of the trace at which it begins.
    pub fn offset(&self) -> u64
        ensures { result ≡ self.now.offset }
    {
        self.offset
    }

    /// The whole frame, and no more.
    pub fn bytes(&self) -> &'a [u8]
        ensures { result.now ≡ self.now.bytes.now }
    {
        let frame = self.bytes;
        frame
    }

    /// The worker that noted it, from 0.
    #[tactic(auto, using(crate::proofs::AccessPlaces::access_laws))]
    pub fn worker(&self) -> u8
        ensures { result ≡ (access_in self.now.bytes.now).worker }
    {
        self.bytes[5]
    }

    /// Its place among what the worker noted, from 0.
    #[tactic(auto, using(crate::proofs::AccessPlaces::access_laws))]
    pub fn place(&self) -> u16
        ensures { result ≡ (access_in self.now.bytes.now).place }
    {
        BigEndian::read_u16(&self.bytes[6..])
    }

    /// The request's index, from 0.
    #[tactic(auto, using(crate::proofs::AccessPlaces::access_laws))]
    pub fn index(&self) -> u16
        ensures { result ≡ (access_in self.now.bytes.now).index }
    {
        BigEndian::read_u16(&self.bytes[8..])
    }

    /// How many entries it has, three at most.
    #[tactic(auto, using(crate::proofs::AccessPlaces::access_laws))]
    pub fn len(&self) -> usize
        ensures len { result ≡ length (access_in self.now.bytes.now).entries }
        ensures limit { result ≤ MOST_ENTRIES }
    {
        self.bytes[10] as usize
    }

    /// An entry, counted from 0.
    #[tactic(auto, using(crate::proofs::AccessPlaces::access_laws))]
    pub fn entry(&self, i: usize) -> Entry
        requires { i < length (access_in self.now.bytes.now).entries }
        ensures { slice_get (access_in self.now.bytes.now).entries i ≡ Some result }
    {
        let at = 11 + 29 * i;
        let (entry, _) = entry_again(&self.bytes[at..]);
        entry
    }

    /// The entries, in one pass.
    #[tactic(auto, using(crate::proofs::AccessPlaces::access_laws))]
    pub fn entries(&self) -> Entries<'a>
        ensures { result ≡ (access_in self.now.bytes.now).entries }
    {
        let count = self.len();
        let bytes = self.bytes;
        Entries::new(count, &bytes[11..])
    }
}
