//! The first wrong fields of the bodies of Rollback and Transfer frames.

ghost use Rattle.std.specs.Prelude.{◌≡◌, ◌<◌, ◌≤◌, ◌+◌, ◌*◌, ◌^◌, ◌%◌, ◌==◌, ◌&&◌, if◌then◌else◌, IfNone};
ghost use Rattle.std.specs.Prelude.{length};
ghost use Rattle.eve_grammar.specs.declared.limits.TheConstants.{MOST_BYTES, MOST_ROWS};
ghost use Rattle.eve_evidence_form.specs.Header.{decoded};
ghost use Rattle.eve_evidence_form.specs.Fields.{first_wrong_there, first_wrong_field, fields_of, stands_below};
ghost use Rattle.eve_evidence_form.specs.Fields.{stands_balance, stands_saving};
ghost use Rattle.eve_evidence_form.specs.RowsBody.{rises, restore_fields, rollback_fields};
ghost use Rattle.eve_evidence_form.specs.RowsBody.{state_row_fields, transfer_fields};

use crate::fields::{
    FieldThere, first_wrong_there, number_decoded, stand, stands_balance, stands_below,
    stands_between, stands_saving, there,
};
use byteorder::{BigEndian, ByteOrder};
use eve_evidence::BodyField;
use eve_grammar::MOST_VERSIONS;

/// Whether a row stands in the restore at this place, one of this many, and above that of the restore before.
fn stands_row(rows: u64, body: &[u8], i: usize, at: usize) -> bool
    requires place { at ≡ 12 + 20 * i }
    requires near { at + 20 < 2 ^ 32 }
    ensures { result ≡ (stands_below rows 4 at body.now && rises i at body.now) }
{
    if !stands_below(body, rows, 4, at) {
        return false;
    }
    i == 0 || number_decoded(body, 4, at - 20) < number_decoded(body, 4, at)
}

/// The first wrong field of the restore with this index, if one is wrong.
fn wrong_in_restore(rows: u64, body: &[u8], i: usize) -> Option<FieldThere>
    requires there { 12 + 20 * i ≤ length body.now }
    requires short { length body.now ≤ MOST_BYTES }
    ensures fields { result ≡ first_wrong_there (restore_fields rows i (12 + 20 * i) body.now) }
    ensures stands { IfNone result (32 + 20 * i ≤ length body.now) }
{
    let at = 12 + 20 * i;
    let version_right = stands_between(body, 0, MOST_VERSIONS, 8, at + 4);
    let fields = [
        there(BodyField::Row, at, stands_row(rows, body, i, at)),
        there(BodyField::Version, at + 4, version_right),
        there(BodyField::Value, at + 12, stands_balance(body, at + 12)),
    ];
    first_wrong_there(&fields)
}

/// The first wrong field of this many restores, if one is wrong.
fn wrong_in_restores(rows: u64, body: &[u8], count: usize) -> Option<FieldThere>
    requires there { 12 ≤ length body.now }
    requires short { length body.now ≤ MOST_BYTES }
    ensures fields { result ≡ first_wrong_there (fields_of (λ i. restore_fields rows i (12 + 20 * i) body.now) count) }
    ensures stands { IfNone result (12 + 20 * count ≤ length body.now) }
{
    for i in 0..count {
        if let Some(wrong) = wrong_in_restore(rows, body, i) {
            return Some(wrong);
        }
    }
    None
}

/// The first wrong field of the body of a Rollback frame, whose restores have to be of one of this many rows.
pub fn rollback_fault(rows: u64, body: &[u8]) -> FieldThere
    requires { length body.now ≤ MOST_BYTES }
    ensures { result ≡ first_wrong_field (12 + 20 * decoded 4 8 body.now) (rollback_fields rows body.now) }
{
    let fields = [
        there(BodyField::To, 0, stand(body, 4, 0)),
        there(BodyField::View, 4, stand(body, 4, 4)),
        there(BodyField::Count, 8, stand(body, 4, 8)),
    ];
    if let Some(wrong) = first_wrong_there(&fields) {
        return wrong;
    }
    let count = BigEndian::read_u32(&body[8..]) as usize;
    match wrong_in_restores(rows, body, count) {
        Some(wrong) => wrong,
        None => there(BodyField::End, 12 + 20 * count, false),
    }
}

/// Whether the value of the row with this index stands there.
fn stands_value(body: &[u8], i: usize, at: usize) -> bool
    requires { at + 8 < 2 ^ 32 }
    ensures { result ≡ (if i % 2 == 0 then stands_saving at body.now else stands_balance at body.now) }
{
    if i % 2 == 0 {
        stands_saving(body, at)
    } else {
        stands_balance(body, at)
    }
}

/// The first wrong field of what the row with this index has, if one is wrong.
fn wrong_in_state_row(body: &[u8], i: usize, at: usize) -> Option<FieldThere>
    requires { at + 16 < 2 ^ 32 }
    ensures { result ≡ first_wrong_there (state_row_fields i at body.now) }
{
    let version_right = stands_between(body, 0, MOST_VERSIONS, 8, at);
    let fields = [
        there(BodyField::Version, at, version_right),
        there(BodyField::Value, at + 8, stands_value(body, i, at + 8)),
    ];
    first_wrong_there(&fields)
}

/// The first wrong field of what this many rows have, if one is wrong.
fn wrong_in_state_rows(body: &[u8], rows: usize) -> Option<FieldThere>
    requires { rows ≤ MOST_ROWS }
    ensures { result ≡ first_wrong_there (fields_of (λ i. state_row_fields i (8 + 16 * i) body.now) rows) }
{
    for i in 0..rows {
        if let Some(wrong) = wrong_in_state_row(body, i, 8 + 16 * i) {
            return Some(wrong);
        }
    }
    None
}

/// The first wrong field of the body of a Transfer frame, which has this many rows.
pub fn transfer_fault(rows: usize, body: &[u8]) -> FieldThere
    requires { rows ≤ MOST_ROWS }
    ensures { result ≡ first_wrong_field (8 + 16 * rows) (transfer_fields rows body.now) }
{
    let fields = [
        there(BodyField::Number, 0, stand(body, 4, 0)),
        there(BodyField::View, 4, stand(body, 4, 4)),
    ];
    if let Some(wrong) = first_wrong_there(&fields) {
        return wrong;
    }
    match wrong_in_state_rows(body, rows) {
        Some(wrong) => wrong,
        None => there(BodyField::End, 8 + 16 * rows, false),
    }
}
