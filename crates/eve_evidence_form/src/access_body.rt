//! The first wrong field of an Access frame's body.

ghost use Rattle.std.specs.Prelude.{◌≡◌, ◌<◌, ◌+◌, ◌*◌, ◌^◌};
ghost use Rattle.eve_evidence_form.specs.Header.{decoded};
ghost use Rattle.eve_evidence_form.specs.Fields.{first_wrong_there, first_wrong_field, fields_of};
ghost use Rattle.eve_evidence_form.specs.AccessBody.{stands_after, entry_fields, access_fields};

use crate::fields::{
    FieldThere, byte_decoded, first_wrong_there, number_decoded, stand, stands_balance,
    stands_below, stands_between, there,
};
use eve_evidence::BodyField;
use eve_grammar::{MOST_ENTRIES, MOST_VERSIONS};

/// Whether the entry at this place left a balance, and what it saw unless it is a write.
fn stands_after(body: &[u8], at: usize) -> bool
    requires { at + 29 < 2 ^ 32 }
    ensures { result ≡ stands_after at body.now }
{
    if !stands_balance(body, at + 21) {
        return false;
    }
    byte_decoded(body, at + 4) == 1
        || number_decoded(body, 8, at + 21) == number_decoded(body, 8, at + 13)
}

/// The first wrong field of the entry at this place, if one is wrong.
fn wrong_in_entry(rows: u64, body: &[u8], at: usize) -> Option<FieldThere>
    requires { at + 29 < 2 ^ 32 }
    ensures { result ≡ first_wrong_there (entry_fields rows at body.now) }
{
    let row_right = stands_below(body, rows, 4, at);
    let kind_right = stands_between(body, 0, 1, 1, at + 4);
    let version_right = stands_between(body, 0, MOST_VERSIONS, 8, at + 5);
    let fields = [
        there(BodyField::Row, at, row_right),
        there(BodyField::Kind, at + 4, kind_right),
        there(BodyField::Version, at + 5, version_right),
        there(BodyField::Seen, at + 13, stands_balance(body, at + 13)),
        there(BodyField::After, at + 21, stands_after(body, at)),
    ];
    first_wrong_there(&fields)
}

/// The first wrong field of this many entries, if one is wrong.
fn wrong_in_entries(rows: u64, body: &[u8], count: usize) -> Option<FieldThere>
    requires { count < 2 ^ 8 }
    ensures { result ≡ first_wrong_there (fields_of (λ i. entry_fields rows (6 + 29 * i) body.now) count) }
{
    for i in 0..count {
        if let Some(wrong) = wrong_in_entry(rows, body, 6 + 29 * i) {
            return Some(wrong);
        }
    }
    None
}

/// The first wrong field of the body of an Access frame, whose entries have to be of one of this many rows.
pub fn access_fault(rows: u64, body: &[u8]) -> FieldThere
    ensures { result ≡ first_wrong_field (6 + 29 * decoded 1 5 body.now) (access_fields rows body.now) }
{
    let count_right = stands_between(body, 0, u64::from(MOST_ENTRIES), 1, 5);
    let fields = [
        there(BodyField::Worker, 0, stand(body, 1, 0)),
        there(BodyField::Place, 1, stand(body, 2, 1)),
        there(BodyField::Index, 3, stand(body, 2, 3)),
        there(BodyField::Count, 5, count_right),
    ];
    if let Some(wrong) = first_wrong_there(&fields) {
        return wrong;
    }
    let count = usize::from(byte_decoded(body, 5));
    match wrong_in_entries(rows, body, count) {
        Some(wrong) => wrong,
        None => there(BodyField::End, 6 + 29 * count, false),
    }
}
