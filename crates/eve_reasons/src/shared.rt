//! Lines that several kinds of evidence have.

ghost use Rattle.std.specs.Prelude.{◌≡◌, ◌≤◌, length};
ghost use Rattle.eve_reasons.specs.Lines.{and_line, and_lines};
ghost use Rattle.eve_reasons.specs.Shared.{access_line, attempt_line, numbers_lines, transfer_line};

use crate::lines::Lines;
use crate::word::Value::{Batch, Frame, Mode, Number, Text};
use crate::word::Word;
use eve_evidence::{Numbers, ToldAttempt, ToldTransfer};
use eve_grammar::FrameKind;

/// Says an attempt: `attempt: batch 1, view 0, parallel, Attempt at byte 126`.
pub(crate) fn say_attempt(lines: &mut Lines, attempt: &ToldAttempt)
    ensures { lines.new ≡ and_line (attempt_line attempt.now) lines.old }
{
    lines.say(&[
        Word("attempt: ", Batch(attempt.batch, attempt.view)),
        Word(", ", Mode(attempt.serial)),
        Word(", ", Frame(FrameKind::Attempt, attempt.at)),
    ]);
}

/// Says a state that was transferred: `transfer: batch 2, view 1, Transfer at byte 1235`.
pub(crate) fn say_transfer(lines: &mut Lines, state: &ToldTransfer)
    ensures { lines.new ≡ and_line (transfer_line state.now) lines.old }
{
    lines.say(&[
        Word("transfer: ", Batch(state.batch, state.view)),
        Word(", ", Frame(FrameKind::Transfer, state.at)),
    ]);
}

/// Says an Access frame: `frame: Access at byte 196`.
pub(crate) fn say_access(lines: &mut Lines, at: u64)
    ensures { lines.new ≡ and_line (access_line at) lines.old }
{
    lines.say(&[Word("frame: ", Frame(FrameKind::Access, at))]);
}

/// Says a field, the number that was found in it, and the one that was due, behind how that bounds it.
pub(crate) fn say_numbers<'w>(lines: &mut Lines, field: &'w str, is: &Numbers, due: &'w str)
    requires field { length field.now ≤ 40 }
    requires due { length due.now ≤ 40 }
    ensures { lines.new ≡ and_lines (numbers_lines field.now is.now due.now) lines.old }
{
    lines.say(&[Word("field: ", Text(field))]);
    lines.say(&[Word("found: ", Number(is.found))]);
    lines.say(&[Word(due, Number(is.due))]);
}
