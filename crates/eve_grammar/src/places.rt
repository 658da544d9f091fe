//! Numbers at a place of a slice, the highest byte first.

ghost use Rattle.std.specs.Prelude.{◌≡◌, ◌+◌, ◌≤◌, length};
ghost use Rattle.eve_grammar.specs.Places.{bytes_from, number_in, signed_in};

use byteorder::{BigEndian, ByteOrder};

/// The bytes from a place on.
#[tactic(auto, unfolding(crate::specs::Places::bytes_from))]
pub(crate) fn bytes_from(bytes: &[u8], at: usize) -> &[u8]
    requires { at ≤ length bytes.now }
    ensures { result.now ≡ bytes_from at bytes.now }
{
    &bytes[at..]
}

/// The number of two bytes at a place.
#[tactic(auto, unfolding(crate::specs::Places::number_in))]
pub(crate) fn u16_in(bytes: &[u8], at: usize) -> u16
    requires { at + 2 ≤ length bytes.now }
    ensures { result ≡ number_in 2 at bytes.now }
{
    BigEndian::read_u16(&bytes[at..])
}

/// The number of three bytes at a place.
#[tactic(auto, unfolding(crate::specs::Places::number_in))]
pub(crate) fn u24_in(bytes: &[u8], at: usize) -> u32
    requires { at + 3 ≤ length bytes.now }
    ensures { result ≡ number_in 3 at bytes.now }
{
    BigEndian::read_u24(&bytes[at..])
}

/// The number of four bytes at a place.
#[tactic(auto, unfolding(crate::specs::Places::number_in))]
pub(crate) fn u32_in(bytes: &[u8], at: usize) -> u32
    requires { at + 4 ≤ length bytes.now }
    ensures { result ≡ number_in 4 at bytes.now }
{
    BigEndian::read_u32(&bytes[at..])
}

/// The number of eight bytes at a place.
#[tactic(auto, unfolding(crate::specs::Places::number_in))]
pub(crate) fn u64_in(bytes: &[u8], at: usize) -> u64
    requires { at + 8 ≤ length bytes.now }
    ensures { result ≡ number_in 8 at bytes.now }
{
    BigEndian::read_u64(&bytes[at..])
}

/// The number of eight bytes at a place, in two's complement.
#[tactic(auto, unfolding(crate::specs::Places::signed_in))]
pub(crate) fn i64_in(bytes: &[u8], at: usize) -> i64
    requires { at + 8 ≤ length bytes.now }
    ensures { result ≡ signed_in at bytes.now }
{
    u64_in(bytes, at).cast_signed()
}
