//! In which row a rollback restores something else, and a token that is not the one due.

ghost use Rattle.std.specs.Prelude.{◌≡◌, ◌≤◌, length};
ghost use Rattle.eve_reasons.specs.Lines.{and_line, and_lines};
ghost use Rattle.eve_reasons.specs.Rows.{match_line, restore_lines, state_line, token_lines};

use crate::lines::Lines;
use crate::shared::say_attempt;
use crate::word::Value::{Digits, Has, Nothing, Number, Row};
use crate::word::Word;
use eve_evidence::{RestoreFault, TokenMatch, ToldAttempt, ToldState};

/// Says a row and what it has: `missing: row 1 (checking of ann), version 1, value 100`.
fn say_state<'e>(lines: &mut Lines, label: &'e str, state: &'e ToldState<'e>)
    requires { length label.now ≤ 40 }
    ensures { lines.new ≡ and_line (state_line label.now state.now) lines.old }
{
    lines.say(&[Word(label, Row(&state.row)), Word(", ", Has(state.has))]);
}

/// Says the first row in which restores differ from those that are due.
pub(crate) fn say_restore<'e>(lines: &mut Lines, wrong: &'e RestoreFault<'e>)
    ensures { lines.new ≡ and_lines (restore_lines wrong.now) lines.old }
{
    match wrong {
        RestoreFault::Missing(state) => say_state(lines, "missing: ", state),
        RestoreFault::Extra(state) => say_state(lines, "extra: ", state),
        RestoreFault::Another { found, due } => {
            say_state(lines, "found: ", found);
            lines.say(&[Word("due: ", Has(due.has))]);
        }
    }
}

/// Says of what a token is made that is not the one due: `matches: batch 2`.
fn say_match(lines: &mut Lines, matches: TokenMatch)
    ensures { lines.new ≡ and_line (match_line matches) lines.old }
{
    match matches {
        TokenMatch::Before => lines.say(&[Word(
            "matches: the balances before the attempt",
            Nothing,
        )]),
        TokenMatch::Ordered => lines.say(&[Word(
            "matches: the replies in the certificate's order",
            Nothing,
        )]),
        TokenMatch::BeforeOrdered => lines.say(&[Word(
            "matches: the balances before the attempt and the replies in the certificate's order",
            Nothing,
        )]),
        TokenMatch::Batch(number) => lines.say(&[Word("matches: batch ", Number(number as u64))]),
        TokenMatch::Version(version) => {
            lines.say(&[Word("matches: version ", Number(version as u64))]);
        }
        TokenMatch::Nothing => lines.say(&[Word("matches: nothing that was tried", Nothing)]),
    }
}

/// Says an attempt's token that is not the one due, and of what it is made.
pub(crate) fn say_token<'e>(
    lines: &mut Lines,
    attempt: &ToldAttempt,
    found: &'e [u8],
    due: &'e [u8],
    matches: TokenMatch,
)
    ensures { lines.new ≡ and_lines (token_lines attempt.now found.now due.now matches) lines.old }
{
    say_attempt(lines, attempt);
    lines.say(&[Word("found: ", Digits(found))]);
    lines.say(&[Word("due: ", Digits(due))]);
    say_match(lines, matches);
}
