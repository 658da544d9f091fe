//! A view of a Customer frame.

ghost use Rattle.std.specs.Prelude.{◌≡◌, ◌+◌, ◌≤◌, IsTrue, Some, length};
ghost use Rattle.std.specs.Int.{w64, cast_signed};
ghost use Rattle.byteorder.specs.Endian.{big_number};
ghost use Rattle.eve_accounts.specs.Money.{is_balance};
ghost use Rattle.eve_grammar.specs.Readers.{customer_of};
ghost use Rattle.eve_frames.specs.Views.{body_in, has_customer_body, customer_in};

use byteorder::{BigEndian, ByteOrder};
use eve_accounts::Cents;

/// A Customer frame, where it stands.
///
/// docs/TRACE.md, "Frames".
#[derive(Clone, Copy)]
pub struct CustomerView<'a> {
    /// The byte of the trace at which it begins.
    pub offset: u64,
    /// Its kind, the length of its body, and the body, as they stand.
    pub bytes: &'a [u8],
    pub ghost whole: { IsTrue (has_customer_body bytes.now) },
}

/// The balance in eight bytes.
fn cents_in(bytes: &[u8]) -> Cents
    requires long { 8 ≤ length bytes.now }
    requires fits { IsTrue (is_balance (cast_signed w64 (big_number 8 bytes.now))) }
    ensures { result ≡ cast_signed w64 (big_number 8 bytes.now) }
{
    Cents::of(BigEndian::read_i64(bytes))
}

impl<'a> CustomerView<'a> {
    /// The view of these bytes, which have such a body after the first five. The first five are the frame's kind and
    /// length: the caller sees to that, no clause does.
    #[tactic(auto, using(crate::proofs::CustomerPlaces::customer_laws))]
    pub fn new(offset: u64, bytes: &'a [u8]) -> CustomerView<'a>
        requires { IsTrue (has_customer_body bytes.now) }
        ensures offset { result.offset ≡ offset }
        ensures bytes { result.bytes.now ≡ bytes.now }
        ensures read { customer_of (body_in bytes.now) ≡ Some (customer_in bytes.now) }
    {
        CustomerView { offset, bytes }
    }

    /// The byte of the trace at which it begins.
    pub fn offset(&self) -> u64
        ensures { result ≡ self.now.offset }
    {
        self.offset
    }

    /// The whole frame, and no more.
    pub fn bytes(&self) -> &'a [u8]
        ensures { result.now ≡ self.now.bytes.now }
    {
        let frame = self.bytes;
        frame
    }

    /// Where the name ends.
    #[tactic(auto, using(crate::proofs::CustomerPlaces::customer_laws))]
    fn name_end(&self) -> usize
        ensures { result ≡ 6 + length (customer_in self.now.bytes.now).name }
    {
        6 + self.bytes[5] as usize
    }

    /// The name, of 1 to 24 bytes.
    #[tactic(auto, using(crate::proofs::CustomerPlaces::customer_laws))]
    pub fn name(&self) -> &'a [u8]
        ensures { result.now ≡ (customer_in self.now.bytes.now).name }
    {
        let end = self.name_end();
        let bytes = self.bytes;
        &bytes[6..end]
    }

    /// The opening balance of the savings account.
    #[tactic(auto, using(crate::proofs::CustomerPlaces::customer_laws))]
    pub fn saving(&self) -> Cents
        ensures { result ≡ (customer_in self.now.bytes.now).saving }
    {
        cents_in(&self.bytes[self.name_end()..])
    }

    /// The opening balance of the checking account.
    #[tactic(auto, using(crate::proofs::CustomerPlaces::customer_laws))]
    pub fn checking(&self) -> Cents
        ensures { result ≡ (customer_in self.now.bytes.now).checking }
    {
        cents_in(&self.bytes[self.name_end() + 8..])
    }
}
