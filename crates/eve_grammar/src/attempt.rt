//! The body of an Attempt frame.

ghost use Rattle.std.specs.Prelude.{◌≡◌, length, is_some};
ghost use Rattle.std.specs.Option.{option_map};
ghost use Rattle.eve_grammar.specs.Readers.{both, whole, many_at, reply_at, token_at, serial_from, certified_at};
ghost use Rattle.eve_grammar.specs.Readers.{attempt_of};
ghost use Rattle.eve_grammar.specs.inner.Scans.{Passes, Measures};

use crate::fields::{token_at, u8_at, u16_at, u32_at};
use crate::limits::MOST_REQUESTS;
use crate::places::bytes_from;
use crate::reply::reply_at;

/// Whether this is a mode: 0, or 1 where the batch was executed in index order.
fn is_mode(mode: u8) -> bool
    ensures { result ≡ is_some (serial_from mode) }
{
    mode <= 1
}

/// What stands after this many replies.
#[tactic(auto, unfolding(crate::specs::inner::Scans::rest_at))]
fn pass_replies(count: u16, bytes: &[u8]) -> Option<&[u8]>
    ensures { Passes (λ x. x.now) result (many_at reply_at count bytes.now) }
{
    let mut rest = bytes;
    for _ in 0..count {
        let Some((_reply, more)) = reply_at(rest) else {
            return None;
        };
        rest = more;
    }
    Some(rest)
}

/// A count of 1 to `MOST_REQUESTS`, and what stands after a certificate of as many indexes and as many replies.
#[tactic(auto, unfolding(crate::specs::Readers::certified_at))]
fn pass_certified(bytes: &[u8]) -> Option<(u16, &[u8])>
    ensures { Measures (λ x. (x.0, x.1.now)) (λ c. length c.0) result (certified_at bytes.now) }
{
    let Some((count, rest)) = u16_at(bytes) else {
        return None;
    };
    if count == 0 || count as usize > MOST_REQUESTS || rest.len() < 2 * count as usize {
        return None;
    }
    let Some(behind) = pass_replies(count, bytes_from(rest, 2 * count as usize)) else {
        return None;
    };
    Some((count, behind))
}

/// How many indexes the certificate has in what stands after the mode, with replies and a token, and no more.
fn certified_len(bytes: &[u8]) -> Option<u16>
    ensures { result ≡ option_map (λ x. length x.0.0) (whole (both certified_at token_at) bytes.now) }
{
    let Some((count, rest)) = pass_certified(bytes) else {
        return None;
    };
    let Some((_token, rest)) = token_at(rest) else {
        return None;
    };
    if rest.is_empty() { Some(count) } else { None }
}

/// How many indexes the certificate has in the body of an Attempt frame that these bytes are, and no more; `None`
/// where they are no such body.
///
/// docs/TRACE.md, "Frames". As many Access frames follow: 1 to `MOST_REQUESTS`.
#[tactic(auto, unfolding(crate::specs::Readers::attempt_of))]
pub fn certificate_len(body: &[u8]) -> Option<u16>
    ensures { result ≡ option_map (λ a. length a.certificate) (attempt_of body.now) }
{
    let Some((_seq, rest)) = u32_at(body) else {
        return None;
    };
    let Some((_view, rest)) = u32_at(rest) else {
        return None;
    };
    let Some((mode, rest)) = u8_at(rest) else {
        return None;
    };
    if is_mode(mode) {
        certified_len(rest)
    } else {
        None
    }
}
