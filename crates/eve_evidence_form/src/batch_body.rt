//! The first wrong field of a Batch frame's body.

ghost use Rattle.std.specs.Prelude.{◌≡◌, ◌≤◌, ◌<◌, ◌+◌, ◌*◌, ◌^◌, IfOk, IfErr, IfSome, IfNone, IsTrue, IsFalse};
ghost use Rattle.std.specs.Prelude.{None, Some};
ghost use Rattle.eve_grammar.specs.declared.limits.TheConstants.{MOST_REQUESTS};
ghost use Rattle.eve_evidence_form.specs.Header.{decoded};
ghost use Rattle.eve_evidence_form.specs.Fields.{first_wrong_there, first_wrong_field, fields_of};
ghost use Rattle.eve_evidence_form.specs.BatchBody.{size_sum, stands_size, size_fields, coded_fields, coded_len};
ghost use Rattle.eve_evidence_form.specs.BatchBody.{coded_place, request_fields, request_end, request_place};
ghost use Rattle.eve_evidence_form.specs.BatchBody.{grouped_fields, batch_fields, batch_end};

use crate::fields::{
    FieldThere, byte_decoded, first_wrong_there, stand, stands_amount, stands_between, there,
    wrong_in_name,
};
use byteorder::{BigEndian, ByteOrder};
use eve_evidence::BodyField;
use eve_grammar::MOST_REQUESTS;

/// The sum of some sizes and the one that stands there, if that is right.
fn sum_with_size(body: &[u8], sum: usize, at: usize) -> Option<usize>
    requires few { sum ≤ MOST_REQUESTS }
    requires near { at + 2 < 2 ^ 32 }
    ensures right { IfSome result (λ more. IsTrue (stands_size sum at body.now)
        × (more ≡ sum + decoded 2 at body.now) × (more ≤ MOST_REQUESTS)) }
    ensures wrong { IfNone result (IsFalse (stands_size sum at body.now)) }
{
    if !stand(body, 2, at) {
        return None;
    }
    let size = usize::from(BigEndian::read_u16(&body[at..]));
    if 1 <= size && sum + size <= MOST_REQUESTS {
        Some(sum + size)
    } else {
        None
    }
}

/// How many requests this many parallelBatches have together, or the first wrong one of their sizes.
fn requests_due(body: &[u8], groups: usize) -> Result<usize, FieldThere>
    requires { groups < 2 ^ 16 }
    ensures sum { IfOk result (λ sum. (sum ≡ size_sum groups body.now) × (sum ≤ MOST_REQUESTS)) }
    ensures right { IfOk result (λ sum. None ≡ first_wrong_there (fields_of (size_fields body.now) groups)) }
    ensures wrong { IfErr result (λ wrong. Some wrong ≡ first_wrong_there (fields_of (size_fields body.now) groups)) }
{
    let mut sum = 0;
    for i in 0..groups {
        let at = 6 + 2 * i;
        match sum_with_size(body, sum, at) {
            Some(more) => sum = more,
            None => return Err(there(BodyField::Size, at, false)),
        }
    }
    Ok(sum)
}

/// The first wrong field of what follows the first name of a request of this code, if one is wrong.
fn wrong_in_coded(body: &[u8], code: u8, at: usize) -> Option<FieldThere>
    requires { at + 256 < 2 ^ 32 }
    ensures { result ≡ first_wrong_there (coded_fields code at body.now) }
{
    if code == 1 {
        return None;
    }
    if code == 4 {
        return wrong_in_name(body, BodyField::SecondLength, BodyField::SecondName, at);
    }
    let fields = [there(BodyField::Amount, at, stands_amount(body, at))];
    first_wrong_there(&fields)
}

/// How many bytes follow the first name of a request of this code.
fn coded_len(body: &[u8], code: u8, at: usize) -> usize
    ensures len { result ≡ coded_len code at body.now }
    ensures few { result ≤ 256 }
{
    if code == 1 {
        0
    } else if code == 4 {
        1 + usize::from(byte_decoded(body, at))
    } else {
        8
    }
}

/// The place behind the first name of the request at this place.
fn coded_place(body: &[u8], at: usize) -> usize
    requires { at + 512 < 2 ^ 32 }
    ensures place { result ≡ coded_place at body.now }
    ensures near { result ≤ at + 269 }
{
    at + 14 + usize::from(byte_decoded(body, at + 13))
}

/// The first wrong field of the request at this place, if one is wrong.
fn wrong_in_request(body: &[u8], at: usize) -> Option<FieldThere>
    requires { at + 1024 < 2 ^ 32 }
    ensures { result ≡ first_wrong_there (request_fields at body.now) }
{
    let code_right = stands_between(body, 1, 5, 1, at + 12);
    let fields = [
        there(BodyField::Client, at, stand(body, 4, at)),
        there(BodyField::Number, at + 4, stand(body, 8, at + 4)),
        there(BodyField::Code, at + 12, code_right),
    ];
    if let Some(wrong) = first_wrong_there(&fields) {
        return Some(wrong);
    }
    if let Some(wrong) = wrong_in_name(body, BodyField::Length, BodyField::Name, at + 13) {
        return Some(wrong);
    }
    wrong_in_coded(body, byte_decoded(body, at + 12), coded_place(body, at))
}

/// The place behind the request at this place.
fn request_end(body: &[u8], at: usize) -> usize
    requires { at + 1024 < 2 ^ 32 }
    ensures place { result ≡ request_end at body.now }
    ensures near { result ≤ at + 525 }
{
    let place = coded_place(body, at);
    place + coded_len(body, byte_decoded(body, at + 12), place)
}

/// The place behind this many requests, the first of which stands at this place, or their first wrong field.
fn requests_end(body: &[u8], from: usize, count: usize) -> Result<usize, FieldThere>
    requires near { from < 2 ^ 18 }
    requires few { count ≤ MOST_REQUESTS }
    ensures place { IfOk result (λ end. (end ≡ request_place from body.now count) × (end < 2 ^ 19)) }
    ensures right { IfOk result (λ end.
        None ≡ first_wrong_there (fields_of (λ i. request_fields (request_place from body.now i) body.now) count)) }
    ensures wrong { IfErr result (λ wrong.
        Some wrong ≡ first_wrong_there
        (fields_of (λ i. request_fields (request_place from body.now i) body.now) count)) }
{
    let mut at = from;
    for _i in 0..count {
        if let Some(wrong) = wrong_in_request(body, at) {
            return Err(wrong);
        }
        at = request_end(body, at);
    }
    Ok(at)
}

/// The first wrong field of the sizes of this many parallelBatches, and the requests.
fn grouped_fault(body: &[u8], groups: usize) -> FieldThere
    requires { groups < 2 ^ 16 }
    ensures { result ≡ first_wrong_field (batch_end groups body.now) (grouped_fields groups body.now) }
{
    let count = match requests_due(body, groups) {
        Ok(count) => count,
        Err(wrong) => return wrong,
    };
    match requests_end(body, 6 + 2 * groups, count) {
        Ok(end) => there(BodyField::End, end, false),
        Err(wrong) => wrong,
    }
}

/// The first wrong field of the body of a Batch frame, whose number has to be this one.
pub fn batch_fault(due: u64, body: &[u8]) -> FieldThere
    ensures { result ≡ first_wrong_field (batch_end (decoded 2 4 body.now) body.now) (batch_fields due body.now) }
{
    let groups_right = stands_between(body, 1, u64::from(u16::MAX), 2, 4);
    let fields = [
        there(BodyField::Number, 0, stands_between(body, due, due, 4, 0)),
        there(BodyField::Groups, 4, groups_right),
    ];
    if let Some(wrong) = first_wrong_there(&fields) {
        return wrong;
    }
    grouped_fault(body, usize::from(BigEndian::read_u16(&body[4..])))
}
