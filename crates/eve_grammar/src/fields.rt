//! Numbers, names, money and tokens at the beginning of a slice.
//!
//! Each reader gives the value and the bytes after it, or `None` where no such value stands in front.

ghost use Rattle.eve_grammar.specs.Readers.{Gives, number_at, name_at, balance_at, saving_at, amount_at, move_at};
ghost use Rattle.eve_grammar.specs.Readers.{token_at, number_of};

use byteorder::{BigEndian, ByteOrder};
use eve_accounts::{Amount, Cents, is_name};

/// One byte; `None` where there is none.
pub fn u8_at(bytes: &[u8]) -> Option<(u8, &[u8])>
    ensures { Gives (λ x. (x.0, x.1.now)) result (number_at 1 bytes.now) }
{
    match bytes {
        [] => None,
        [first, rest @ ..] => Some((*first, rest)),
    }
}

/// A number of two bytes, the highest first; `None` where fewer are there.
pub fn u16_at(bytes: &[u8]) -> Option<(u16, &[u8])>
    ensures { Gives (λ x. (x.0, x.1.now)) result (number_at 2 bytes.now) }
{
    if bytes.len() < 2 {
        return None;
    }
    Some((BigEndian::read_u16(bytes), &bytes[2..]))
}

/// A number of four bytes, the highest first; `None` where fewer are there.
pub fn u32_at(bytes: &[u8]) -> Option<(u32, &[u8])>
    ensures { Gives (λ x. (x.0, x.1.now)) result (number_at 4 bytes.now) }
{
    if bytes.len() < 4 {
        return None;
    }
    Some((BigEndian::read_u32(bytes), &bytes[4..]))
}

/// A number of eight bytes, the highest first; `None` where fewer are there.
pub fn u64_at(bytes: &[u8]) -> Option<(u64, &[u8])>
    ensures { Gives (λ x. (x.0, x.1.now)) result (number_at 8 bytes.now) }
{
    if bytes.len() < 8 {
        return None;
    }
    Some((BigEndian::read_u64(bytes), &bytes[8..]))
}

/// The number that the body of one byte is, as a Replica or a Verifier frame has it.
///
/// docs/TRACE.md, "Frames". `None` for a body of another length.
#[tactic(auto, unfolding(crate::specs::Readers::number_of))]
pub fn number_of(body: &[u8]) -> Option<u8>
    ensures { Gives (λ x. x) result (number_of body.now) }
{
    match body {
        [number] => Some(*number),
        _ => None,
    }
}

/// A length of one byte and a name of 1 to 24 bytes, each in 0x21..=0x7E.
#[tactic(auto, unfolding(crate::specs::Readers::name_at))]
pub fn name_at(bytes: &[u8]) -> Option<(&[u8], &[u8])>
    ensures { Gives (λ x. (x.0.now, x.1.now)) result (name_at bytes.now) }
{
    let Some((len, rest)) = u8_at(bytes) else {
        return None;
    };
    let len = len as usize;
    if rest.len() < len {
        return None;
    }
    let (name, rest) = rest.split_at(len);
    if is_name(name) {
        Some((name, rest))
    } else {
        None
    }
}

/// A balance in cents, within 10^15 of zero, in eight bytes.
#[tactic(auto, unfolding(crate::specs::Readers::balance_at))]
pub fn balance_at(bytes: &[u8]) -> Option<(Cents, &[u8])>
    ensures { Gives (λ x. (x.0, x.1.now)) result (balance_at bytes.now) }
{
    if bytes.len() < 8 {
        return None;
    }
    let Some(cents) = Cents::new(BigEndian::read_i64(bytes)) else {
        return None;
    };
    Some((cents, &bytes[8..]))
}

/// A balance in cents that isn't below 0, in eight bytes.
#[tactic(auto, unfolding(crate::specs::Readers::saving_at, crate::specs::Readers::balance_at))]
pub fn saving_at(bytes: &[u8]) -> Option<(Cents, &[u8])>
    ensures { Gives (λ x. (x.0, x.1.now)) result (saving_at bytes.now) }
{
    let Some((cents, rest)) = balance_at(bytes) else {
        return None;
    };
    if 0 <= cents.get() {
        Some((cents, rest))
    } else {
        None
    }
}

/// An amount in cents, within 10^12 of zero, in eight bytes.
#[tactic(auto, unfolding(crate::specs::Readers::amount_at))]
pub fn amount_at(bytes: &[u8]) -> Option<(Amount, &[u8])>
    ensures { Gives (λ x. (x.0, x.1.now)) result (amount_at bytes.now) }
{
    if bytes.len() < 8 {
        return None;
    }
    let Some(amount) = Amount::new(BigEndian::read_i64(bytes)) else {
        return None;
    };
    Some((amount, &bytes[8..]))
}

/// A name and an amount.
#[tactic(auto, unfolding(crate::specs::Readers::move_at))]
pub fn move_at(bytes: &[u8]) -> Option<((&[u8], Amount), &[u8])>
    ensures { Gives (λ x. ((x.0.0.now, x.0.1), x.1.now)) result (move_at bytes.now) }
{
    let Some((name, rest)) = name_at(bytes) else {
        return None;
    };
    let Some((amount, rest)) = amount_at(rest) else {
        return None;
    };
    Some(((name, amount), rest))
}

/// The 32 bytes of a token.
#[tactic(auto, unfolding(crate::specs::Readers::token_at))]
pub fn token_at(bytes: &[u8]) -> Option<(&[u8], &[u8])>
    ensures { Gives (λ x. (x.0.now, x.1.now)) result (token_at bytes.now) }
{
    if bytes.len() < 32 {
        return None;
    }
    Some(bytes.split_at(32))
}
