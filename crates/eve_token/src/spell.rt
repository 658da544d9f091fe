//! How a balance and a reply are spelled in a token.

ghost use Rattle.std.specs.Prelude.{◌≡◌, ◌<◌, ◌≤◌, ◌++◌, ℕ, List, length, drop, refl};
ghost use Rattle.std.proofs.Common.{lit<, lit≤};
ghost use Rattle.eve_smallbank.specs.declared.request.Reply.TheVariants.{Done, Total, Aborted};
ghost use Rattle.eve_smallbank.specs.Spelling.{money_text, reply_text};
ghost use Rattle.eve_token.specs.declared.TheConstants.{BLOCK};

use byteorder::{BigEndian, ByteOrder};
use eve_accounts::Cents;
use eve_smallbank::{Reply, reply_bytes};

/// What a token spells by a fixed number of bytes.
///
/// docs/TRACE.md, "Token".
pub(crate) trait Spell {
    /// How many bytes there are.
    const LEN: usize;

    ghost LEN: { ℕ };

    // The bytes of a value.
    ghost text: { Self → List ℕ };

    /// Writes the bytes at the start of `out`, and leaves the rest of it as it is.
    fn spell(&self, out: &mut [u8])
        requires { LEN ≤ length out.old }
        ensures { out.new ≡ text self.now ++ drop LEN out.old };

    ghost length_text: { (x : Self) → length (text x) ≡ LEN };

    // A block holds at least one.
    ghost fits: { (0 < LEN) × (LEN ≤ BLOCK) };

    // A leaf's message holds it after the byte and the number.
    ghost short: { LEN ≤ 9 };
}

/// A balance in cents, as eight bytes.
impl Spell for Cents {
    const LEN: usize = 8;

    ghost LEN = { 8 };

    ghost text = { money_text };

    ghost length_text = { λ _. refl };

    ghost fits = { (lit< tt, lit≤ tt) };

    ghost short = { lit≤ tt };

    fn spell(&self, out: &mut [u8]) {
        BigEndian::write_i64(out, self.get());
    }
}

/// A reply, as a byte for its kind and eight bytes for the total, which are 0 where there is none.
impl Spell for Reply {
    const LEN: usize = 9;

    ghost LEN = { 9 };

    ghost text = { reply_text };

    ghost length_text = { elim [ Done ↦ refl | Total _ ↦ refl | Aborted _ ↦ refl ] };

    ghost fits = { (lit< tt, lit≤ tt) };

    ghost short = { lit≤ tt };

    fn spell(&self, out: &mut [u8]) {
        out[..9].copy_from_slice(&reply_bytes(*self));
    }
}
