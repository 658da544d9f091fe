//! Fields of a body: what stands there, and the first that is wrong.

ghost use Rattle.std.specs.Prelude.{◌≡◌, ◌<◌, ◌≤◌, ◌+◌, ◌^◌, ◌==◌, ◌&&◌, ◌||◌};
ghost use Rattle.std.specs.Prelude.{length, take, drop};
ghost use Rattle.std.specs.Int.{w64, cast_signed};
ghost use Rattle.eve_accounts.specs.Money.{is_balance, is_saving, is_amount};
ghost use Rattle.eve_accounts.specs.Names.{is_printable};
ghost use Rattle.eve_evidence_form.specs.Header.{decoded};
ghost use Rattle.eve_evidence_form.specs.Fields.{field, first_wrong_there, first_wrong_field, stand, stands_between};
ghost use Rattle.eve_evidence_form.specs.Fields.{stands_below, stands_balance, stands_saving, stands_amount};
ghost use Rattle.eve_evidence_form.specs.Fields.{printable_len, name_field, named_fields, reply_fields};

use byteorder::{BigEndian, ByteOrder};
use eve_accounts::{FIRST_NAME_BYTE, LAST_NAME_BYTE, MOST_AMOUNT, MOST_BALANCE, MOST_NAME_BYTES};
use eve_evidence::{BodyField, item_at};

/// A field of a body, as it stands there.
///
/// docs/TRACE.md, "Frames".
#[derive(Clone, Copy)]
pub struct FieldThere {
    /// Its name.
    pub field: BodyField,
    /// Its first byte, from the body's first on.
    pub at: u32,
    /// Whether it is right.
    pub right: bool,
}

/// A field of a body.
pub fn there(own: BodyField, at: usize, right: bool) -> FieldThere
    requires { at < 2 ^ 32 }
    ensures { result ≡ field own at right }
{
    FieldThere {
        field: own,
        at: at as u32,
        right,
    }
}

/// The first of these fields that is wrong, if one is.
pub fn first_wrong_there(fields: &[FieldThere]) -> Option<FieldThere>
    ensures { result ≡ first_wrong_there fields.now }
{
    for i in 0..fields.len() {
        let own = item_at(fields, i);
        if !own.right {
            return Some(own);
        }
    }
    None
}

/// The first of these fields that is wrong; where all are right, the byte behind them, at this place.
pub fn first_wrong_field(fields: &[FieldThere], end: usize) -> FieldThere
    requires { end < 2 ^ 32 }
    ensures { result ≡ first_wrong_field end fields.now }
{
    match first_wrong_there(fields) {
        Some(own) => own,
        None => there(BodyField::End, end, false),
    }
}

/// Whether n bytes stand from a place of a body on.
pub fn stand(body: &[u8], n: usize, at: usize) -> bool
    requires { at + n < 2 ^ 32 }
    ensures { result ≡ stand n at body.now }
{
    at + n <= body.len()
}

/// The byte at a place, or 0 where none stands.
pub fn byte_decoded(body: &[u8], at: usize) -> u8
    ensures { result ≡ decoded 1 at body.now }
{
    if at < body.len() { body[at] } else { 0 }
}

/// The number of n bytes at a place.
pub fn number_decoded(body: &[u8], n: usize, at: usize) -> u64
    requires some { 1 ≤ n }
    requires few { n ≤ 8 }
    requires there { at + n ≤ length body.now }
    ensures { result ≡ decoded n at body.now }
{
    BigEndian::read_uint(&body[at..], n)
}

/// Whether a number of n bytes stands there, from the one to the other.
pub fn stands_between(body: &[u8], low: u64, high: u64, n: usize, at: usize) -> bool
    requires some { 1 ≤ n }
    requires few { n ≤ 8 }
    requires near { at + n < 2 ^ 32 }
    ensures { result ≡ stands_between low high n at body.now }
{
    if !stand(body, n, at) {
        return false;
    }
    let number = number_decoded(body, n, at);
    low <= number && number <= high
}

/// Whether a number of n bytes stands there, below this one.
pub fn stands_below(body: &[u8], limit: u64, n: usize, at: usize) -> bool
    requires some { 1 ≤ n }
    requires few { n ≤ 8 }
    requires near { at + n < 2 ^ 32 }
    ensures { result ≡ stands_below limit n at body.now }
{
    if !stand(body, n, at) {
        return false;
    }
    number_decoded(body, n, at) < limit
}

/// The money at a place.
fn money_decoded(body: &[u8], at: usize) -> i64
    requires { at + 8 ≤ length body.now }
    ensures { result ≡ cast_signed w64 (decoded 8 at body.now) }
{
    number_decoded(body, 8, at).cast_signed()
}

/// Whether money is a balance.
fn is_balance(money: i64) -> bool
    ensures { result ≡ is_balance money }
{
    -MOST_BALANCE <= money && money <= MOST_BALANCE
}

/// Whether money is a balance that savings may open with.
fn is_saving(money: i64) -> bool
    ensures { result ≡ is_saving money }
{
    is_balance(money) && 0 <= money
}

/// Whether money is an amount.
fn is_amount(money: i64) -> bool
    ensures { result ≡ is_amount money }
{
    -MOST_AMOUNT <= money && money <= MOST_AMOUNT
}

/// Whether a balance stands there.
pub fn stands_balance(body: &[u8], at: usize) -> bool
    requires { at + 8 < 2 ^ 32 }
    ensures { result ≡ stands_balance at body.now }
{
    if !stand(body, 8, at) {
        return false;
    }
    is_balance(money_decoded(body, at))
}

/// Whether a balance stands there that savings may open with.
pub fn stands_saving(body: &[u8], at: usize) -> bool
    requires { at + 8 < 2 ^ 32 }
    ensures { result ≡ stands_saving at body.now }
{
    if !stand(body, 8, at) {
        return false;
    }
    is_saving(money_decoded(body, at))
}

/// Whether an amount stands there.
pub fn stands_amount(body: &[u8], at: usize) -> bool
    requires { at + 8 < 2 ^ 32 }
    ensures { result ≡ stands_amount at body.now }
{
    if !stand(body, 8, at) {
        return false;
    }
    is_amount(money_decoded(body, at))
}

/// Whether a name may have the byte.
fn is_printable(byte: u8) -> bool
    ensures { result ≡ is_printable byte }
{
    FIRST_NAME_BYTE <= byte && byte <= LAST_NAME_BYTE
}

/// How many bytes come before the first that no name has.
fn printable_len(bytes: &[u8]) -> usize
    ensures prefix { result ≡ printable_len bytes.now }
    ensures within { result ≤ length bytes.now }
{
    for i in 0..bytes.len() {
        if !is_printable(item_at(bytes, i)) {
            return i;
        }
    }
    bytes.len()
}

/// This many bytes from a place on.
pub fn sliced(bytes: &[u8], from: usize, count: usize) -> &[u8]
    requires { from + count ≤ length bytes.now }
    ensures { result.now ≡ take count (drop from bytes.now) }
{
    &bytes[from..from + count]
}

/// A name of n bytes at a place of a body.
fn name_there(body: &[u8], own: BodyField, n: usize, at: usize) -> FieldThere
    requires { at + n < 2 ^ 32 }
    ensures { result ≡ name_field own n at body.now }
{
    if !stand(body, n, at) {
        return there(own, at, false);
    }
    let prefix = printable_len(sliced(body, at, n));
    there(own, at + prefix, prefix == n)
}

/// The first wrong field of a length and a name of that length, if one is wrong.
pub fn wrong_in_name(
    body: &[u8],
    own_length: BodyField,
    own: BodyField,
    at: usize,
) -> Option<FieldThere>
    requires { at + 256 < 2 ^ 32 }
    ensures { result ≡ first_wrong_there (named_fields own_length own at body.now) }
{
    let length_right = stands_between(body, 1, MOST_NAME_BYTES as u64, 1, at);
    let fields = [
        there(own_length, at, length_right),
        name_there(body, own, usize::from(byte_decoded(body, at)), at + 1),
    ];
    first_wrong_there(&fields)
}

/// Whether the value of the reply at this place stands there, and is 0 where the reply isn't a total.
fn stands_reply_value(body: &[u8], at: usize) -> bool
    requires { at + 9 < 2 ^ 32 }
    ensures { result ≡ (stand 8 (at + 1) body.now
        && ((decoded 1 at body.now == 1) || (decoded 8 (at + 1) body.now == 0))) }
{
    if !stand(body, 8, at + 1) {
        return false;
    }
    byte_decoded(body, at) == 1 || number_decoded(body, 8, at + 1) == 0
}

/// The first wrong field of a reply, if one is wrong.
pub fn wrong_in_reply(body: &[u8], at: usize) -> Option<FieldThere>
    requires { at + 9 < 2 ^ 32 }
    ensures { result ≡ first_wrong_there (reply_fields at body.now) }
{
    let code_right = stands_between(body, 0, 5, 1, at);
    let fields = [
        there(BodyField::ReplyCode, at, code_right),
        there(BodyField::ReplyValue, at + 1, stands_reply_value(body, at)),
    ];
    first_wrong_there(&fields)
}
