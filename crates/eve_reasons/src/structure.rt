//! What is wrong with a commit, a rollback or a state that was transferred.

ghost use Rattle.std.specs.Prelude.{◌≡◌};
ghost use Rattle.eve_reasons.specs.Lines.{and_lines};
ghost use Rattle.eve_reasons.specs.Structure.{commit_lines, rollback_lines, transfer_fault_lines, transfer_lines};

use crate::lines::Lines;
use crate::shared::{say_numbers, say_transfer};
use crate::word::Value::{Digits, Nothing};
use crate::word::Word;
use eve_evidence::{CommitFault, RollbackFault, ToldTransfer, TransferFault};

/// Says what is wrong with a commit.
pub(crate) fn say_commit<'e>(lines: &mut Lines, wrong: &'e CommitFault<'e>)
    ensures { lines.new ≡ and_lines (commit_lines wrong.now) lines.old }
{
    match wrong {
        CommitFault::Number(is) => say_numbers(lines, "number", is, "due: "),
        CommitFault::NoneOpen => {
            lines.say(&[Word("field: attempt", Nothing)]);
            lines.say(&[Word("found: none open", Nothing)]);
        }
        CommitFault::View(is) => say_numbers(lines, "view", is, "due: "),
        CommitFault::Token { found, due } => {
            lines.say(&[Word("field: token", Nothing)]);
            lines.say(&[Word("found: ", Digits(found))]);
            lines.say(&[Word("due: ", Digits(due))]);
        }
    }
}

/// Says what is wrong with a rollback.
pub(crate) fn say_rollback(lines: &mut Lines, wrong: &RollbackFault)
    ensures { lines.new ≡ and_lines (rollback_lines wrong.now) lines.old }
{
    match wrong {
        RollbackFault::To(is) => say_numbers(lines, "to", is, "due: "),
        RollbackFault::NothingLeft(is) => say_numbers(lines, "to", is, "due: below "),
        RollbackFault::View(is) => say_numbers(lines, "view", is, "due: "),
    }
}

/// Says what is wrong with the number or the view of a state that was transferred.
fn say_transfer_numbers(lines: &mut Lines, wrong: &TransferFault)
    ensures { lines.new ≡ and_lines (transfer_fault_lines wrong.now) lines.old }
{
    match wrong {
        TransferFault::Number(is) => say_numbers(lines, "number", is, "due: above "),
        TransferFault::PastBatches(is) => say_numbers(lines, "number", is, "due: at most "),
        TransferFault::View(is) => say_numbers(lines, "view", is, "due: at least "),
    }
}

/// Says what is wrong with a state that was transferred.
pub(crate) fn say_transfer_fault(lines: &mut Lines, state: &ToldTransfer, wrong: &TransferFault)
    ensures { lines.new ≡ and_lines (transfer_lines state.now wrong.now) lines.old }
{
    say_transfer(lines, state);
    say_transfer_numbers(lines, wrong);
}
