//! Members of objects.

ghost use Rattle.std.specs.Prelude.{◌≡◌, ◌++◌, [], ◌∷◌, OnOk};
ghost use Rattle.json.specs.Token.{begin_array, key};
ghost use Rattle.eve_objects.specs.Members.{number_member, signed_member, string_member, text_of, token_member};

use json::Writer;
use std::alloc::{AllocError, Global};

/// Bytes as a text: a name of a trace is one. What is no UTF-8 stands as an empty one.
pub(crate) fn text_of(bytes: &[u8]) -> &str
    ensures { result.now ≡ text_of bytes.now }
{
    match std::str::from_utf8(bytes) {
        Ok(text) => text,
        Err(_) => "",
    }
}

/// Appends a member whose value is a text.
#[tactic(auto, unfolding(crate::specs::Members::string_member))]
pub fn put_string(writer: &mut Writer, name: &str, text: &str) -> Result<(), AllocError>
    ensures tokens { OnOk result (writer.new.tokens ≡ writer.old.tokens ++ string_member name.now text.now) }
    ensures before { OnOk result (writer.new.before ≡ writer.old.before) }
{
    writer.key(name)?;
    writer.string(text)
}

/// Appends a member whose value is a number.
#[tactic(auto, unfolding(crate::specs::Members::number_member))]
pub fn put_number(writer: &mut Writer, name: &str, number: u64) -> Result<(), AllocError>
    ensures tokens { OnOk result (writer.new.tokens ≡ writer.old.tokens ++ number_member name.now number) }
    ensures before { OnOk result (writer.new.before ≡ writer.old.before) }
{
    writer.key(name)?;
    writer.u64(number)
}

/// Appends a member whose value is a number that may be negative.
#[tactic(auto, unfolding(crate::specs::Members::signed_member))]
pub(crate) fn put_signed(writer: &mut Writer, name: &str, amount: i64) -> Result<(), AllocError>
    ensures tokens { OnOk result (writer.new.tokens ≡ writer.old.tokens ++ signed_member name.now amount) }
    ensures before { OnOk result (writer.new.before ≡ writer.old.before) }
{
    writer.key(name)?;
    writer.i64(amount)
}

/// Begins a member whose value is an array.
pub(crate) fn begin_array(writer: &mut Writer, name: &str) -> Result<(), AllocError>
    ensures tokens { OnOk result (writer.new.tokens ≡ writer.old.tokens ++ key name.now ∷ begin_array ∷ []) }
    ensures before { OnOk result (writer.new.before ≡ writer.old.before) }
{
    writer.key(name)?;
    writer.begin_array()
}

/// Appends a member whose value is a name.
pub(crate) fn put_name(writer: &mut Writer, member: &str, name: &[u8]) -> Result<(), AllocError>
    ensures tokens { OnOk result (writer.new.tokens
        ≡ writer.old.tokens ++ string_member member.now (text_of name.now)) }
    ensures before { OnOk result (writer.new.before ≡ writer.old.before) }
{
    put_string(writer, member, text_of(name))
}

/// Appends a member whose value is a token, in hexadecimal digits.
pub(crate) fn put_token(
    alloc: Global,
    writer: &mut Writer,
    member: &str,
    token: &[u8],
) -> Result<(), AllocError>
    ensures tokens { OnOk result (writer.new.tokens ≡ writer.old.tokens ++ token_member member.now token.now) }
    ensures before { OnOk result (writer.new.before ≡ writer.old.before) }
{
    let digits = hex::encode(alloc, token)?;
    put_string(writer, member, digits.as_str())
}
