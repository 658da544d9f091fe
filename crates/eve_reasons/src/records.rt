//! In what a record differs from what its request must note, and which entry doesn't see what it must.

ghost use Rattle.std.specs.Prelude.{◌≡◌, ◌≤◌, [], length};
ghost use Rattle.eve_reasons.specs.Lines.{and_line, and_lines};
ghost use Rattle.eve_reasons.specs.Records.{chain_lines, entry_line, record_at, record_fault_lines, record_lines};
ghost use Rattle.eve_reasons.specs.Records.{restoring, seen_by_lines, seen_from, seen_line};

use crate::lines::Lines;
use crate::shared::{say_access, say_attempt};
use crate::word::Value::{
    Access, Frame, Has, Nothing, Number, Reply, Request, Row, Signed, Source,
};
use crate::word::Word;
use eve_evidence::{RecordFault, SeenFrom, Source as Left, ToldAttempt, ToldRequest, WrongEntry};
use eve_grammar::FrameKind;

/// Says which record it is: its attempt, its request, and its Access frame, which begins at byte `at`.
fn say_record_at<'e>(
    lines: &mut Lines,
    attempt: &ToldAttempt,
    request: &'e ToldRequest<'e>,
    at: u64,
)
    ensures { lines.new ≡ and_lines (record_at attempt.now request.now at []) lines.old }
{
    say_attempt(lines, attempt);
    lines.say(&[Word("request: ", Request(request))]);
    say_access(lines, at);
}

/// Says the field in which a record differs, what was found in it, and what was due.
fn say_record_field<'e>(lines: &mut Lines, wrong: &'e RecordFault<'e>)
    ensures { lines.new ≡ and_lines (record_fault_lines wrong.now) lines.old }
{
    match wrong {
        RecordFault::Entries { found, due } => {
            lines.say(&[Word("field: entries", Nothing)]);
            lines.say(&[Word("found: ", Number(*found as u64))]);
            lines.say(&[Word("due: ", Number(*due as u64))]);
        }
        RecordFault::Row { entry, found, due } => {
            lines.say(&[Word("field: row of entry ", Number(*entry as u64))]);
            lines.say(&[Word("found: ", Row(found))]);
            lines.say(&[Word("due: ", Row(due))]);
        }
        RecordFault::Kind { entry, found, due } => {
            lines.say(&[Word("field: kind of entry ", Number(*entry as u64))]);
            lines.say(&[Word("found: ", Access(*found))]);
            lines.say(&[Word("due: ", Access(*due))]);
        }
        RecordFault::After { entry, found, due } => {
            lines.say(&[Word("field: after of entry ", Number(*entry as u64))]);
            lines.say(&[Word("found: ", Signed(*found))]);
            lines.say(&[Word("due: ", Signed(*due))]);
        }
        RecordFault::Reply { found, due } => {
            lines.say(&[Word("field: reply", Nothing)]);
            lines.say(&[Word("found: ", Reply(*found))]);
            lines.say(&[Word("due: ", Reply(*due))]);
        }
    }
}

/// Says how a record differs from what its request must note.
pub(crate) fn say_record<'e>(
    lines: &mut Lines,
    attempt: &ToldAttempt,
    request: &'e ToldRequest<'e>,
    at: u64,
    wrong: &'e RecordFault<'e>,
)
    ensures { lines.new ≡ and_lines (record_lines attempt.now request.now at wrong.now) lines.old }
{
    say_record_at(lines, attempt, request, at);
    say_record_field(lines, wrong);
}

/// What a rollback did to a row, behind its frame.
fn restoring(restores: bool) -> &'static str
    ensures word { result.now ≡ restoring restores }
    ensures short { length result.now ≤ 40 }
{
    if restores {
        ", which restores the row"
    } else {
        ", which leaves the row out"
    }
}

/// Says where what an entry saw comes from.
fn say_seen<'e>(lines: &mut Lines, from: &'e SeenFrom)
    ensures { lines.new ≡ and_line (seen_line from.now) lines.old }
{
    match from {
        SeenFrom::Overwritten(source) => lines.say(&[
            Word("seen from: ", Source(source)),
            Word(", overwritten since", Nothing),
        ]),
        SeenFrom::BehindIt(source) => lines.say(&[
            Word("seen from: ", Source(source)),
            Word(", behind it in the certificate", Nothing),
        ]),
        SeenFrom::Restored(at) => lines.say(&[
            Word("seen from: ", Frame(FrameKind::Rollback, *at)),
            Word(", which restores that", Nothing),
        ]),
        SeenFrom::RolledBack {
            source,
            by,
            restores,
        } => lines.say(&[
            Word("seen from: ", Source(source)),
            Word(", discarded by ", Frame(FrameKind::Rollback, *by)),
            Word(restoring(*restores), Nothing),
        ]),
        SeenFrom::Discarded { source, by } => lines.say(&[
            Word("seen from: ", Source(source)),
            Word(", discarded by ", Frame(FrameKind::Transfer, *by)),
        ]),
        SeenFrom::BeforeState { source, state } => lines.say(&[
            Word("seen from: ", Source(source)),
            Word(", before ", Frame(FrameKind::Transfer, *state)),
        ]),
        SeenFrom::Later(source) => lines.say(&[
            Word("seen from: ", Source(source)),
            Word(", later in the section", Nothing),
        ]),
        SeenFrom::Nobody => lines.say(&[Word("seen from: nobody", Nothing)]),
    }
}

/// Says that, where it is told.
fn say_seen_from<'e>(lines: &mut Lines, seen: &'e Option<SeenFrom>)
    ensures { lines.new ≡ and_lines (seen_from seen.now []) lines.old }
{
    if let Some(from) = seen {
        say_seen(lines, from);
    }
}

/// Says who saw what an entry left, before it in the certificate.
fn say_seen_by<'e>(lines: &mut Lines, by: &'e Option<Left>)
    ensures { lines.new ≡ and_lines (seen_by_lines by.now) lines.old }
{
    if let Some(source) = by {
        lines.say(&[
            Word("seen by: ", Source(source)),
            Word(", before it in the certificate", Nothing),
        ]);
    }
}

/// Says which entry it is: `entry: 0, write of row 1 (checking of ann)`.
fn say_entry<'e>(lines: &mut Lines, wrong: &'e WrongEntry<'e>)
    ensures { lines.new ≡ and_line (entry_line wrong.now) lines.old }
{
    lines.say(&[
        Word("entry: ", Number(wrong.entry as u64)),
        Word(", ", Access(wrong.kind)),
        Word(" of ", Row(&wrong.row)),
    ]);
}

/// Says the first entry of a record that doesn't see what it must, and where what it saw comes from.
pub(crate) fn say_chain<'e>(
    lines: &mut Lines,
    attempt: &ToldAttempt,
    request: &'e ToldRequest<'e>,
    at: u64,
    wrong: &'e WrongEntry<'e>,
    seen: &'e Option<SeenFrom>,
)
    ensures { lines.new ≡ and_lines (chain_lines attempt.now request.now at wrong.now seen.now) lines.old }
{
    say_record_at(lines, attempt, request, at);
    say_entry(lines, wrong);
    lines.say(&[Word("saw: ", Has(wrong.saw))]);
    say_seen_from(lines, seen);
    lines.say(&[Word("due: ", Has(wrong.due))]);
    lines.say(&[Word("left by: ", Source(&wrong.left_by))]);
    say_seen_by(lines, &wrong.seen_by);
}
