//! Why bytes are no trace.

ghost use Rattle.std.specs.Prelude.{◌≡◌, ◌≤◌, length};
ghost use Rattle.eve_evidence.specs.FrameKinds.{all_kinds};
ghost use Rattle.eve_reasons.specs.Lines.{and_line, and_lines};
ghost use Rattle.eve_reasons.specs.Form.{body_lines, body_word, byte_line, due_length, field_line, frame_fault_lines};
ghost use Rattle.eve_reasons.specs.Form.{head_lines, head_word, length_lines, magic_lines, no_frame_line};
ghost use Rattle.eve_reasons.specs.Form.{other_magic_lines, range_line, records_lines};

use crate::lines::Lines;
use crate::word::Value::{Digits, Frame, Kind, Kinds, Nothing, Number, Text};
use crate::word::Word;
use eve_evidence::{BodyField, FRAME_KINDS, FrameFault, HeadField, LengthFault, RecordsBefore};
use eve_grammar::{FrameKind, HEADER_LEN, MOST_BYTES};

/// Says which length is due.
fn say_due_length(lines: &mut Lines, wrong: &LengthFault)
    ensures { lines.new ≡ and_line (due_length wrong.now) lines.old }
{
    match wrong {
        LengthFault::TooShort => {
            lines.say(&[Word("due: at least ", Number(HEADER_LEN as u64))]);
        }
        LengthFault::TooLong => lines.say(&[Word("due: at most ", Number(MOST_BYTES as u64))]),
        LengthFault::Another(total) => lines.say(&[
            Word("due: ", Number(*total)),
            Word(", by the header", Nothing),
        ]),
    }
}

/// Says the first six bytes, where they aren't a trace's: `magic: 1f8b08000000, not 45564553424b`.
fn say_other_magic(lines: &mut Lines, magic: &Option<[u8; 6]>)
    ensures { lines.new ≡ and_lines (other_magic_lines magic.now) lines.old }
{
    if let Some(six) = magic {
        lines.say(&[
            Word("magic: ", Digits(&six[..])),
            Word(", not ", Text(MAGIC)),
        ]);
    }
}

/// Says how many bytes there are, how many there must be, and the first six, where they aren't a trace's.
pub(crate) fn say_length(
    lines: &mut Lines,
    found: u64,
    wrong: &LengthFault,
    magic: &Option<[u8; 6]>,
)
    ensures { lines.new ≡ and_lines (length_lines found wrong.now magic.now) lines.old }
{
    lines.say(&[Word("found: ", Number(found)), Word(" bytes", Nothing)]);
    say_due_length(lines, wrong);
    say_other_magic(lines, magic);
}

/// The first six bytes of a trace, in hexadecimal digits.
const MAGIC: &str = "45564553424b";

/// Says the first six bytes, and those of a trace.
pub(crate) fn say_magic(lines: &mut Lines, found: &[u8; 6])
    ensures { lines.new ≡ and_lines (magic_lines found.now) lines.old }
{
    lines.say(&[Word("found: ", Digits(&found[..]))]);
    lines.say(&[Word("due: ", Text(MAGIC))]);
}

/// The name of a field of the header.
fn head_word(field: HeadField) -> &'static str
    ensures word { result.now ≡ head_word field }
    ensures short { length result.now ≤ 13 }
{
    match field {
        HeadField::Version => "version",
        HeadField::Replicas => "replicas",
        HeadField::Verifiers => "verifiers",
        HeadField::Quorum => "quorum",
        HeadField::Window => "window",
        HeadField::Workers => "workers",
        HeadField::Zero => "zero",
        HeadField::Customers => "customers",
        HeadField::Batches => "batches",
    }
}

/// Says a field and where it stands: `field: quorum at byte 10`.
fn say_field<'w>(lines: &mut Lines, field: &'w str, at: u64)
    requires { length field.now ≤ 13 }
    ensures { lines.new ≡ and_line (field_line field.now at) lines.old }
{
    lines.say(&[Word("field: ", Text(field)), Word(" at byte ", Number(at))]);
}

/// Says between which numbers a field of the header must lie.
fn say_range(lines: &mut Lines, field: HeadField, least: u32, most: u32)
    ensures { lines.new ≡ and_line (range_line field least most) lines.old }
{
    match field {
        HeadField::Version => lines.say(&[
            Word("due: ", Number(least as u64)),
            Word(" or ", Number(most as u64)),
        ]),
        HeadField::Zero => lines.say(&[Word("due: ", Number(least as u64))]),
        _ => lines.say(&[
            Word("due: ", Number(least as u64)),
            Word(" to ", Number(most as u64)),
        ]),
    }
}

/// Says the first wrong field of the header, which stands at byte `at`, what it says, and between which numbers it must
/// lie.
pub(crate) fn say_head(
    lines: &mut Lines,
    field: HeadField,
    at: u64,
    found: u32,
    least: u32,
    most: u32,
)
    ensures { lines.new ≡ and_lines (head_lines field at found least most) lines.old }
{
    say_field(lines, head_word(field), at);
    lines.say(&[Word("found: ", Number(found as u64))]);
    say_range(lines, field, least, most);
}

/// Says a byte with which no frame begins that may stand there: `found: kind 0x10 (Replica)`.
fn say_byte(lines: &mut Lines, byte: u8)
    ensures { lines.new ≡ and_line (byte_line byte all_kinds) lines.old }
{
    let bytes = [byte];
    match FrameKind::of(byte) {
        None => lines.say(&[Word("found: kind 0x", Digits(&bytes[..]))]),
        Some(kind) => lines.say(&[
            Word("found: kind 0x", Digits(&bytes[..])),
            Word(" (", Kind(kind)),
            Word(")", Nothing),
        ]),
    }
}

/// Says what stands where a frame is due.
fn say_no_frame(lines: &mut Lines, wrong: &FrameFault)
    ensures { lines.new ≡ and_line (no_frame_line wrong.now) lines.old }
{
    match wrong {
        FrameFault::AfterEnd(count) => lines.say(&[
            Word("found: ", Number(*count)),
            Word(" bytes after End", Nothing),
        ]),
        FrameFault::TooFew(count) => lines.say(&[
            Word("found: ", Number(*count)),
            Word(" bytes where a frame has 5", Nothing),
        ]),
        FrameFault::Kind(byte) => say_byte(lines, *byte),
        FrameFault::Cut { kind, body, left } => lines.say(&[
            Word("found: ", Kind(*kind)),
            Word(" with a body of ", Number(*body as u64)),
            Word(" bytes where ", Number(*left)),
            Word(" are left", Nothing),
        ]),
    }
}

/// Says how many access records the last attempt has so far: `records: 1 of 2, of Attempt at byte 126`.
fn say_records(lines: &mut Lines, records: &Option<RecordsBefore>)
    ensures { lines.new ≡ and_lines (records_lines records.now) lines.old }
{
    if let Some(before) = records {
        lines.say(&[
            Word("records: ", Number(before.found as u64)),
            Word(" of ", Number(before.due as u64)),
            Word(", of ", Frame(FrameKind::Attempt, before.attempt)),
        ]);
    }
}

/// Says what stands where a frame is due, which frames may stand there, and the records before.
pub(crate) fn say_frame_fault(
    lines: &mut Lines,
    wrong: &FrameFault,
    due: &[bool; FRAME_KINDS],
    records: &Option<RecordsBefore>,
)
    ensures { lines.new ≡ and_lines (frame_fault_lines wrong.now due.now records.now) lines.old }
{
    say_no_frame(lines, wrong);
    lines.say(&[Word("due: ", Kinds(due))]);
    say_records(lines, records);
}

/// The name of a field of a body; `end` behind the last.
fn body_word(field: BodyField) -> &'static str
    ensures word { result.now ≡ body_word field }
    ensures short { length result.now ≤ 13 }
{
    match field {
        BodyField::End => "end",
        BodyField::Length => "length",
        BodyField::Name => "name",
        BodyField::Saving => "saving",
        BodyField::Checking => "checking",
        BodyField::Number => "number",
        BodyField::Groups => "groups",
        BodyField::Size => "size",
        BodyField::Client => "client",
        BodyField::Code => "code",
        BodyField::SecondLength => "second length",
        BodyField::SecondName => "second name",
        BodyField::Amount => "amount",
        BodyField::View => "view",
        BodyField::Mode => "mode",
        BodyField::Requests => "requests",
        BodyField::Index => "index",
        BodyField::ReplyCode => "reply code",
        BodyField::ReplyValue => "reply value",
        BodyField::Token => "token",
        BodyField::Worker => "worker",
        BodyField::Place => "place",
        BodyField::Count => "count",
        BodyField::Row => "row",
        BodyField::Kind => "kind",
        BodyField::Version => "version",
        BodyField::Seen => "seen",
        BodyField::After => "after",
        BodyField::To => "to",
        BodyField::Value => "value",
        BodyField::Choice => "choice",
        BodyField::Replica => "replica",
        BodyField::Batch => "batch",
    }
}

/// Says a frame, and the first field of its body that is wrong.
pub(crate) fn say_body(
    lines: &mut Lines,
    frame: FrameKind,
    at: u64,
    field: BodyField,
    field_at: u64,
)
    ensures { lines.new ≡ and_lines (body_lines frame at field field_at) lines.old }
{
    lines.say(&[Word("frame: ", Frame(frame, at))]);
    say_field(lines, body_word(field), field_at);
}
