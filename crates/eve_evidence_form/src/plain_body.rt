//! The first wrong fields of bodies without a list.

ghost use Rattle.std.specs.Prelude.{◌≡◌, ◌+◌, ◌==◌, ◌&&◌, ◌||◌, take, drop};
ghost use Rattle.std.specs.List.{list_all};
ghost use Rattle.eve_evidence_form.specs.Header.{decoded};
ghost use Rattle.eve_evidence_form.specs.Fields.{first_wrong_field, stand};
ghost use Rattle.eve_evidence_form.specs.PlainBody.{customer_fields, number_fields, commit_fields, vote_fields};
ghost use Rattle.eve_evidence_form.specs.PlainBody.{sent_fields};

use crate::fields::{
    FieldThere, byte_decoded, first_wrong_field, first_wrong_there, stand, stands_balance,
    stands_below, stands_between, stands_saving, there, wrong_in_name, wrong_in_reply,
};
use eve_evidence::BodyField;
use eve_grammar::is_zeros;

/// The first wrong field of the body of a Customer frame.
pub fn customer_fault(body: &[u8]) -> FieldThere
    ensures { result ≡ first_wrong_field (17 + decoded 1 0 body.now) (customer_fields body.now) }
{
    if let Some(wrong) = wrong_in_name(body, BodyField::Length, BodyField::Name, 0) {
        return wrong;
    }
    let n = usize::from(byte_decoded(body, 0));
    let fields = [
        there(BodyField::Saving, 1 + n, stands_saving(body, 1 + n)),
        there(BodyField::Checking, 9 + n, stands_balance(body, 9 + n)),
    ];
    first_wrong_field(&fields, 17 + n)
}

/// The first wrong field of the body that is this number.
pub fn number_fault(due: u8, body: &[u8]) -> FieldThere
    ensures { result ≡ first_wrong_field 1 (number_fields due body.now) }
{
    let due = u64::from(due);
    let fields = [there(BodyField::Number, 0, stands_between(body, due, due, 1, 0))];
    first_wrong_field(&fields, 1)
}

/// The first wrong field of the body of a Commit frame.
pub fn commit_fault(body: &[u8]) -> FieldThere
    ensures { result ≡ first_wrong_field 40 (commit_fields body.now) }
{
    let fields = [
        there(BodyField::Number, 0, stand(body, 4, 0)),
        there(BodyField::View, 4, stand(body, 4, 4)),
        there(BodyField::Token, 8, stand(body, 32, 8)),
    ];
    first_wrong_field(&fields, 40)
}

/// Whether the token of a vote stands there, and is zeros where its choice isn't a commit.
fn is_token_of_vote(body: &[u8]) -> bool
    ensures { result ≡ (stand 32 9 body.now
        && ((decoded 1 8 body.now == 1) || list_all (λ byte. byte == 0) (take 32 (drop 9 body.now)))) }
{
    if !stand(body, 32, 9) {
        return false;
    }
    body[8] == 1 || is_zeros(&body[9..41])
}

/// The first wrong field of the body of a Vote frame.
pub fn vote_fault(batches: u32, body: &[u8]) -> FieldThere
    ensures { result ≡ first_wrong_field 41 (vote_fields batches body.now) }
{
    let number_right = stands_between(body, 1, u64::from(batches), 4, 0);
    let fields = [
        there(BodyField::Number, 0, number_right),
        there(BodyField::View, 4, stand(body, 4, 4)),
        there(BodyField::Choice, 8, stands_between(body, 0, 1, 1, 8)),
        there(BodyField::Token, 9, is_token_of_vote(body)),
    ];
    first_wrong_field(&fields, 41)
}

/// The first wrong field of the body of a Sent frame.
pub fn sent_fault(replicas: u8, batches: u32, body: &[u8]) -> FieldThere
    ensures { result ≡ first_wrong_field 26 (sent_fields replicas batches body.now) }
{
    let replica_right = stands_below(body, u64::from(replicas), 1, 12);
    let batch_right = stands_between(body, 1, u64::from(batches), 4, 13);
    let fields = [
        there(BodyField::Client, 0, stand(body, 4, 0)),
        there(BodyField::Number, 4, stand(body, 8, 4)),
        there(BodyField::Replica, 12, replica_right),
        there(BodyField::Batch, 13, batch_right),
    ];
    if let Some(wrong) = first_wrong_there(&fields) {
        return wrong;
    }
    match wrong_in_reply(body, 17) {
        Some(wrong) => wrong,
        None => there(BodyField::End, 26, false),
    }
}
