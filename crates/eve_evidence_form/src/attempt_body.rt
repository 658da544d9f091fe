//! The first wrong field of an Attempt frame's body.

ghost use Rattle.std.specs.Prelude.{◌≡◌, ◌<◌, ◌+◌, ◌*◌, ◌^◌};
ghost use Rattle.eve_evidence_form.specs.Header.{decoded};
ghost use Rattle.eve_evidence_form.specs.Fields.{first_wrong_there, first_wrong_field, fields_of, reply_fields};
ghost use Rattle.eve_evidence_form.specs.AttemptBody.{index_fields, certified_fields, attempt_fields};

use crate::fields::{
    FieldThere, first_wrong_field, first_wrong_there, stand, stands_between, there, wrong_in_reply,
};
use byteorder::{BigEndian, ByteOrder};
use eve_evidence::BodyField;
use eve_grammar::MOST_REQUESTS;

/// The first wrong one of this many indexes of a certificate, if one is wrong.
fn wrong_index(body: &[u8], count: usize) -> Option<FieldThere>
    requires { count < 2 ^ 16 }
    ensures { result ≡ first_wrong_there (fields_of (λ i. index_fields (11 + 2 * i) body.now) count) }
{
    for i in 0..count {
        let at = 11 + 2 * i;
        if !stand(body, 2, at) {
            return Some(there(BodyField::Index, at, false));
        }
    }
    None
}

/// The first wrong field of this many replies, the first of which stands at this place, if one is wrong.
fn wrong_in_replies(body: &[u8], from: usize, count: usize) -> Option<FieldThere>
    requires near { from < 2 ^ 20 }
    requires few { count < 2 ^ 16 }
    ensures { result ≡ first_wrong_there (fields_of (λ i. reply_fields (from + 9 * i) body.now) count) }
{
    for i in 0..count {
        if let Some(wrong) = wrong_in_reply(body, from + 9 * i) {
            return Some(wrong);
        }
    }
    None
}

/// The first wrong field of a certificate of this many indexes, as many replies, and a token.
fn certified_fault(body: &[u8], count: usize) -> FieldThere
    requires { count < 2 ^ 16 }
    ensures { result ≡ first_wrong_field (43 + 11 * count) (certified_fields count body.now) }
{
    if let Some(wrong) = wrong_index(body, count) {
        return wrong;
    }
    if let Some(wrong) = wrong_in_replies(body, 11 + 2 * count, count) {
        return wrong;
    }
    let at = 11 + 11 * count;
    let fields = [there(BodyField::Token, at, stand(body, 32, at))];
    first_wrong_field(&fields, 43 + 11 * count)
}

/// The first wrong field of the body of an Attempt frame.
pub fn attempt_fault(body: &[u8]) -> FieldThere
    ensures { result ≡ first_wrong_field (43 + 11 * decoded 2 9 body.now) (attempt_fields body.now) }
{
    let requests_right = stands_between(body, 1, MOST_REQUESTS as u64, 2, 9);
    let fields = [
        there(BodyField::Number, 0, stand(body, 4, 0)),
        there(BodyField::View, 4, stand(body, 4, 4)),
        there(BodyField::Mode, 8, stands_between(body, 0, 1, 1, 8)),
        there(BodyField::Requests, 9, requests_right),
    ];
    if let Some(wrong) = first_wrong_there(&fields) {
        return wrong;
    }
    certified_fault(body, usize::from(BigEndian::read_u16(&body[9..])))
}
