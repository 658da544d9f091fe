//! The words of a line, row by row: a label, and a value behind it.

ghost use Rattle.std.specs.Prelude.{◌≡◌, ◌+◌, ◌≤◌, ◌++◌, length};
ghost use Rattle.arrayvec.specs.ArrayVec.{array_vec_len};
ghost use Rattle.eve_lines.specs.Table.{value_room, value_words};

use crate::line::{LINE_ROOM, Line, put, put_name, put_token};
use crate::number::{put_number, put_signed};
use crate::words::{mode_word, put_reply};
use eve_smallbank::Reply;

/// What stands behind a label.
#[derive(Clone, Copy)]
pub(crate) enum Value<'a> {
    Number(u64),
    /// A number that may be negative.
    Signed(i64),
    Name(&'a [u8]),
    Token(&'a [u8]),
    /// `serial` or `parallel`.
    Mode(bool),
    Reply(Reply),
}

/// Appends a label, and what stands behind it.
#[inline(always)]
pub(crate) fn put_word(line: &mut Line, label: &str, value: Value<'_>)
    requires { array_vec_len line.old + length label.now + value_room value ≤ LINE_ROOM }
    ensures items { line.new.items ≡ line.old.items ++ (label.now ++ value_words value.entry) }
    ensures len { array_vec_len line.new ≤ array_vec_len line.old + length label.now + value_room value.entry }
{
    put(line, label);
    match value {
        Value::Number(number) => put_number(line, number),
        Value::Signed(amount) => put_signed(line, amount),
        Value::Name(name) => put_name(line, name),
        Value::Token(token) => put_token(line, token),
        Value::Mode(serial) => put(line, mode_word(serial)),
        Value::Reply(reply) => put_reply(line, reply),
    }
}
