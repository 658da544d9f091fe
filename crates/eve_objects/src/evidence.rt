//! The lines of `eve explain` behind the verdict's, as objects.

ghost use Rattle.std.specs.Prelude.{◌≡◌, ◌≤◌, ◌+◌, ◌++◌, [], ◌∷◌, OnOk, drop, length};
ghost use Rattle.eve_objects.specs.Evidence.{colon, is_short_number, line_member, line_object, value_token};

use crate::members::text_of;
use json::Writer;
use std::alloc::AllocError;

/// How many bytes a number has at most that eve prints, with its sign.
pub const LONGEST_NUMBER: usize = 20;

/// How many bytes stand before the first colon.
fn colon(line: &[u8]) -> usize
    ensures at { result ≡ colon line.now }
    ensures within { result ≤ length line.now }
{
    'bytes: for at in 0..line.len() {
        if line[at] == b':' {
            return at;
        }
    }
    line.len()
}

/// What stands behind a place and the byte after it.
#[tactic(auto, using(crate::proofs::Colons::none_behind))]
fn text_behind(line: &[u8], at: usize) -> &[u8]
    requires { at ≤ length line.now }
    ensures { result.now ≡ drop (at + 2) line.now }
{
    if line.len() - at < 2 {
        return &[];
    }
    &line[at + 2..]
}

/// Whether the text is a number, and not longer than those that eve prints.
fn is_short_number(text: &str) -> bool
    ensures { result ≡ is_short_number text.now }
{
    text.len() <= LONGEST_NUMBER && json::is_number(text)
}

/// Appends a value: a number, where numbers may stand and the text is one, else the text.
fn put_value(writer: &mut Writer, has_numbers: bool, text: &str) -> Result<(), AllocError>
    ensures tokens { OnOk result (writer.new.tokens ≡ writer.old.tokens ++ value_token has_numbers text.now ∷ []) }
    ensures before { OnOk result (writer.new.before ≡ writer.old.before) }
{
    if has_numbers && is_short_number(text) {
        writer.number(text)
    } else {
        writer.string(text)
    }
}

/// Appends the member of a line.
fn put_line_member(writer: &mut Writer, has_numbers: bool, line: &[u8]) -> Result<(), AllocError>
    ensures tokens { OnOk result (writer.new.tokens ≡ writer.old.tokens ++ line_member has_numbers line.now) }
    ensures before { OnOk result (writer.new.before ≡ writer.old.before) }
{
    let at = colon(line);
    writer.key(text_of(&line[..at]))?;
    put_value(writer, has_numbers, text_of(text_behind(line, at)))
}

/// Appends the object of a line without its line feed: what stands before its first `: `, with what stands behind it,
/// which is a number where numbers may stand and it is one.
#[tactic(auto, unfolding(crate::specs::Members::object, crate::specs::Evidence::line_object))]
pub fn put_line_object(
    writer: &mut Writer,
    has_numbers: bool,
    line: &[u8],
) -> Result<(), AllocError>
    ensures tokens { OnOk result (writer.new.tokens ≡ writer.old.tokens ++ line_object has_numbers line.now) }
    ensures before { OnOk result (writer.new.before ≡ writer.old.before) }
{
    writer.begin_object()?;
    put_line_member(writer, has_numbers, line)?;
    writer.end_object()
}
