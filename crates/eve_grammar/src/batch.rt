//! The body of a Batch frame.

ghost use Rattle.std.specs.Prelude.{◌≡◌, sum};
ghost use Rattle.std.specs.Option.{option_map};
ghost use Rattle.eve_grammar.specs.Readers.{Gives, many_at, asked_at, sizes_at, batch_of};
ghost use Rattle.eve_grammar.specs.inner.Scans.{total_at, Passes, Measures};

use crate::fields::{u16_at, u32_at};
use crate::limits::MOST_REQUESTS;
use crate::request::asked_at;

/// The sum of sizes, if none is 0, and what stands after them.
#[tactic(auto, unfolding(crate::specs::inner::Scans::total_at))]
fn total_at(count: u16, bytes: &[u8]) -> Option<(u32, &[u8])>
    ensures { Gives (λ x. (x.0, x.1.now)) result (total_at count bytes.now) }
{
    let mut total: u32 = 0;
    let mut rest = bytes;
    for _ in 0..count {
        let Some((size, more)) = u16_at(rest) else {
            return None;
        };
        if size == 0 {
            return None;
        }
        total += size as u32;
        rest = more;
    }
    Some((total, rest))
}

/// What stands after this many requests.
#[tactic(auto, unfolding(crate::specs::inner::Scans::rest_at))]
fn pass_requests(count: u32, bytes: &[u8]) -> Option<&[u8]>
    ensures { Passes (λ x. x.now) result (many_at asked_at count bytes.now) }
{
    let mut rest = bytes;
    for _ in 0..count {
        let Some((_asked, more)) = asked_at(rest) else {
            return None;
        };
        rest = more;
    }
    Some(rest)
}

/// The sum, `MOST_REQUESTS` at most, and what stands after a count and as many sizes, none 0.
#[tactic(auto, unfolding(crate::specs::Readers::sizes_at))]
fn pass_sizes(bytes: &[u8]) -> Option<(u32, &[u8])>
    ensures { Measures (λ x. (x.0, x.1.now)) sum result (sizes_at bytes.now) }
{
    let Some((count, rest)) = u16_at(bytes) else {
        return None;
    };
    let Some((total, behind)) = total_at(count, rest) else {
        return None;
    };
    if count == 0 || total as usize > MOST_REQUESTS {
        return None;
    }
    Some((total, behind))
}

/// The batch's number in the body of a Batch frame that these bytes are, and no more; `None` where they are no such
/// body.
///
/// docs/TRACE.md, "Frames". The number is read as it stands, whether or not it is the next.
#[tactic(auto, unfolding(crate::specs::Readers::batch_of))]
pub fn batch_number(body: &[u8]) -> Option<u32>
    ensures { result ≡ option_map (λ b. b.0) (batch_of body.now) }
{
    let Some((number, rest)) = u32_at(body) else {
        return None;
    };
    let Some((total, rest)) = pass_sizes(rest) else {
        return None;
    };
    let Some(rest) = pass_requests(total, rest) else {
        return None;
    };
    if rest.is_empty() { Some(number) } else { None }
}
