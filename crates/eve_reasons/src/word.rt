//! Lines as tables: labels, each with a value behind it.

ghost use Rattle.std.specs.Prelude.{◌≡◌, ◌+◌, ◌≤◌, ◌++◌, length};
ghost use Rattle.arrayvec.specs.ArrayVec.{array_vec_len};
ghost use Rattle.eve_reasons.specs.Words.{whose_balance_words, batch_view_words, frame_at_words, has_words};
ghost use Rattle.eve_reasons.specs.Words.{request_index_words, source_words, told_request_words, told_row_words};
ghost use Rattle.eve_reasons.specs.Words.{told_value_room, told_value_words, words_room, words_text};

use crate::kinds::put_kinds;
use eve_accounts::Cents;
use eve_evidence::{FRAME_KINDS, Source, ToldRequest, ToldRow};
use eve_grammar::FrameKind;
use eve_lines::{
    LINE_ROOM, Line, kind_name, kind_word, mode_word, put, put_name, put_number, put_numbered,
    put_reply, put_request, put_signed, put_token,
};
use eve_smallbank::{Kind, Reply, Versioned};

/// How many bytes a value has at most that is no text.
pub(crate) const LONGEST_VALUE: usize = 162;

/// What stands behind a label.
#[derive(Clone, Copy)]
pub(crate) enum Value<'e> {
    Nothing,
    Text(&'e str),
    Number(u64),
    /// An amount of money, which may be negative.
    Signed(Cents),
    Name(&'e [u8]),
    /// A token, or fewer bytes, in hexadecimal digits.
    Digits(&'e [u8]),
    /// `serial` or `parallel`.
    Mode(bool),
    /// `read` or `write`.
    Access(Kind),
    Kind(FrameKind),
    /// The number of a batch, and a view: `batch 1, view 0`.
    Batch(u32, u32),
    /// A frame, and the byte at which it begins: `Access at byte 196`.
    Frame(FrameKind, u64),
    /// `row 1 (checking of ann)`.
    Row(&'e ToldRow<'e>),
    /// What a row has: `version 2, value 12`.
    Has(Versioned),
    /// `#1 of batch 1: deposit 7 2 ann 7`.
    Request(&'e ToldRequest<'e>),
    Reply(Reply),
    /// Who left something in a row: `#0 of batch 1, Access at byte 236`.
    Source(&'e Source),
    /// Kinds of frames, of which it is told whether they may stand there: `Sent, End`.
    Kinds(&'e [bool; FRAME_KINDS]),
}

/// A label, and what stands behind it.
#[derive(Clone, Copy)]
pub(crate) struct Word<'e>(pub(crate) &'e str, pub(crate) Value<'e>);

/// Appends a frame: `Access at byte 196`.
fn put_frame(line: &mut Line, kind: FrameKind, at: u64)
    requires { array_vec_len line.old + 40 ≤ LINE_ROOM }
    ensures items { line.new.items ≡ line.old.items ++ frame_at_words kind at }
    ensures len { array_vec_len line.new ≤ array_vec_len line.old + 40 }
{
    put(line, kind_name(kind));
    put_numbered(line, " at byte ", at);
}

/// Appends the number of a batch, and a view: `batch 1, view 0`.
fn put_batch_and_view(line: &mut Line, batch: u32, view: u32)
    requires { array_vec_len line.old + 54 ≤ LINE_ROOM }
    ensures items { line.new.items ≡ line.old.items ++ batch_view_words batch view }
    ensures len { array_vec_len line.new ≤ array_vec_len line.old + 54 }
{
    put_numbered(line, "batch ", u64::from(batch));
    put_numbered(line, ", view ", u64::from(view));
}

/// Appends which request it is: `#1 of batch 1`.
fn put_index(line: &mut Line, index: u16, batch: u32)
    requires { array_vec_len line.old + 58 ≤ LINE_ROOM }
    ensures items { line.new.items ≡ line.old.items ++ request_index_words index batch }
    ensures len { array_vec_len line.new ≤ array_vec_len line.old + 58 }
{
    put_numbered(line, "#", u64::from(index));
    put_numbered(line, " of batch ", u64::from(batch));
}

/// Appends a request: `#1 of batch 1: deposit 7 2 ann 7`.
fn put_told_request(line: &mut Line, request: &ToldRequest)
    requires { array_vec_len line.old + LONGEST_VALUE ≤ LINE_ROOM }
    ensures items { line.new.items ≡ line.old.items ++ told_request_words request.now }
    ensures len { array_vec_len line.new ≤ array_vec_len line.old + LONGEST_VALUE }
{
    put_index(line, request.index, request.batch);
    put(line, ": ");
    put_request(line, &request.asked);
}

/// Whose balance a row of this number is.
fn balance_word(row: u64) -> &'static str
    ensures word { result.now ≡ whose_balance_words row }
    ensures short { length result.now ≤ 14 }
{
    if row % 2 == 0 {
        " (saving of "
    } else {
        " (checking of "
    }
}

/// Appends a row: `row 1 (checking of ann)`.
fn put_row(line: &mut Line, row: &ToldRow)
    requires { array_vec_len line.old + 64 ≤ LINE_ROOM }
    ensures items { line.new.items ≡ line.old.items ++ told_row_words row.now }
    ensures len { array_vec_len line.new ≤ array_vec_len line.old + 64 }
{
    let number = u64::from(row.row.number());
    put_numbered(line, "row ", number);
    put(line, balance_word(number));
    put_name(line, row.name);
    put(line, ")");
}

/// Appends what a row has: `version 2, value 12`.
fn put_has(line: &mut Line, has: Versioned)
    requires { array_vec_len line.old + 56 ≤ LINE_ROOM }
    ensures items { line.new.items ≡ line.old.items ++ has_words has }
    ensures len { array_vec_len line.new ≤ array_vec_len line.old + 56 }
{
    put_numbered(line, "version ", has.version);
    put(line, ", value ");
    put_signed(line, has.value.get());
}

/// Appends who left something in a row: `#0 of batch 1, Access at byte 236`.
fn put_source(line: &mut Line, source: &Source)
    requires { array_vec_len line.old + 100 ≤ LINE_ROOM }
    ensures items { line.new.items ≡ line.old.items ++ source_words source.now }
    ensures len { array_vec_len line.new ≤ array_vec_len line.old + 100 }
{
    match source {
        Source::Opening => put(line, "the opening"),
        Source::Write { index, batch, at } => {
            put_index(line, *index, *batch);
            put(line, ", ");
            put_frame(line, FrameKind::Access, *at);
        }
        Source::Transfer { at } => put_frame(line, FrameKind::Transfer, *at),
    }
}

/// Appends what stands behind a label.
fn put_value(line: &mut Line, value: &Value<'_>)
    requires { array_vec_len line.old + told_value_room value.now ≤ LINE_ROOM }
    ensures items { line.new.items ≡ line.old.items ++ told_value_words value.now }
    ensures len { array_vec_len line.new ≤ array_vec_len line.old + told_value_room value.now }
{
    match value {
        Value::Nothing => {}
        Value::Text(text) => put(line, text),
        Value::Number(number) => put_number(line, *number),
        Value::Signed(amount) => put_signed(line, amount.get()),
        Value::Name(name) => put_name(line, name),
        Value::Digits(bytes) => put_token(line, bytes),
        Value::Mode(serial) => put(line, mode_word(*serial)),
        Value::Access(kind) => put(line, kind_word(*kind)),
        Value::Kind(kind) => put(line, kind_name(*kind)),
        Value::Batch(batch, view) => put_batch_and_view(line, *batch, *view),
        Value::Frame(kind, at) => put_frame(line, *kind, *at),
        Value::Row(row) => put_row(line, row),
        Value::Has(has) => put_has(line, *has),
        Value::Request(request) => put_told_request(line, request),
        Value::Reply(reply) => put_reply(line, *reply),
        Value::Source(source) => put_source(line, source),
        Value::Kinds(told) => put_kinds(line, told),
    }
}

/// Appends a table.
#[tactic(auto, using(crate::proofs::Words::words_steps))]
pub(crate) fn put_words(line: &mut Line, words: &[Word<'_>])
    requires { array_vec_len line.old + words_room words.now ≤ LINE_ROOM }
    ensures items { line.new.items ≡ line.old.items ++ words_text words.now }
    ensures len { array_vec_len line.new ≤ array_vec_len line.old + words_room words.now }
{
    'words: for word in words {
        put(line, word.0);
        put_value(line, &word.1);
    }
}
