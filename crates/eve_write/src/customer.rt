//! Customers and their frames.

ghost use Rattle.std.specs.Prelude.{◌≡◌, IsTrue, length};
ghost use Rattle.eve_grammar.specs.Frames.{OfCustomer};
ghost use Rattle.eve_grammar.specs.Spelling.{body_text, customer_text};
ghost use Rattle.eve_grammar.specs.Limits.{is_customer};
ghost use Rattle.eve_write.specs.Data.{customer as plain};
ghost use Rattle.eve_write.specs.Writes.{Writes};

use crate::fields::{cents_bytes, name_len};
use crate::measure::Measure;
use crate::right::Judge;
use crate::spell::{Spell, send_texts};
use eve_accounts::{Cents, Name};
use eve_grammar::{CUSTOMER_FRAME, FRAME_HEAD_LEN, Head};
use eve_streams::{SendFault, Sink};

/// A customer's name and opening balances. Contracts see it by `customer`.
#[derive(Clone, Copy)]
pub struct CustomerData {
    /// The name.
    pub name: Name,
    /// The saving balance.
    pub saving: Cents,
    /// The checking balance.
    pub checking: Cents,
}

impl CustomerData {
    /// How long the body of its frame is.
    pub(crate) fn body_len(&self) -> u32
        requires { IsTrue (is_customer (plain self.now)) }
        ensures { result ≡ length (body_text (OfCustomer (plain self.now))) }
    {
        17 + self.name.as_slice().len() as u32
    }
}

impl Spell for CustomerData {
    ghost text = { λ c. customer_text (plain c) };

    ghost fits = { λ c. is_customer (plain c) };

    fn write<W: Sink>(&self, out: &mut W) -> Result<(), SendFault> {
        let body_len = self.body_len().to_be_bytes();
        let name = self.name.as_slice();
        let name_len = name_len(name);
        let saving = cents_bytes(self.saving);
        let checking = cents_bytes(self.checking);
        send_texts(
            out,
            &[
                &[CUSTOMER_FRAME],
                &body_len,
                &[name_len],
                name,
                &saving,
                &checking,
            ],
        )
    }
}

/// Writes a Customer frame, of a customer within the limits.
///
/// docs/TRACE.md, "Frames". After a fault a prefix of the frame has been taken, and not all of it.
pub fn write_customer<W: Sink>(out: &mut W, customer: &CustomerData) -> Result<(), SendFault>
    requires { IsTrue (is_customer (plain customer.now)) }
    ensures { Writes W.written W.failures out.old out.new result (customer_text (plain customer.now)) }
{
    customer.write(out)
}

impl Measure for CustomerData {
    ghost size = { λ c. length (customer_text (plain c)) };

    ghost fits = { λ c. is_customer (plain c) };

    fn text_len(&self) -> u64 {
        FRAME_HEAD_LEN as u64 + self.body_len() as u64
    }
}

impl Judge for CustomerData {
    ghost right = { λ h c. is_customer (plain c) };

    fn is_right(&self, _head: &Head) -> bool {
        let _checking = self.checking.get();
        self.name.as_slice();
        self.saving.get() >= 0
    }
}
