//! How a batch came out otherwise, and what is wrong with a reply that was sent.

ghost use Rattle.std.specs.Prelude.{◌≡◌};
ghost use Rattle.eve_reasons.specs.Lines.{and_line, and_lines};
ghost use Rattle.eve_reasons.specs.Outcomes.{amount_lines, difference_lines, first_line, given_line, outcome_lines};
ghost use Rattle.eve_reasons.specs.Outcomes.{sent_fault_lines, sent_line, sent_wrong_lines, state_fault_lines};
ghost use Rattle.eve_reasons.specs.Outcomes.{state_lines};

use crate::lines::Lines;
use crate::shared::{say_attempt, say_transfer};
use crate::word::Value::{Frame, Nothing, Number, Reply, Request, Row, Signed};
use crate::word::Word;
use eve_accounts::Cents;
use eve_evidence::{
    GivenBy, OutcomeFault, SentFault, StateFault, ToldAttempt, ToldSent, ToldTransfer,
};
use eve_grammar::FrameKind;

/// Says the replica that a batch is compared with, whose attempt's frame begins at byte `at`.
fn say_first(lines: &mut Lines, replica: u8, at: u64)
    ensures { lines.new ≡ and_line (first_line replica at) lines.old }
{
    lines.say(&[
        Word("first: replica ", Number(replica as u64)),
        Word(", ", Frame(FrameKind::Attempt, at)),
    ]);
}

/// Says the amount of money that was found, and the one that was due.
fn say_amounts(lines: &mut Lines, found: Cents, due: Cents)
    ensures { lines.new ≡ and_lines (amount_lines found due) lines.old }
{
    lines.say(&[Word("found: ", Signed(found))]);
    lines.say(&[Word("due: ", Signed(due))]);
}

/// Says how an outcome differs: the row or the request, what was found, and what was due.
fn say_difference<'e>(lines: &mut Lines, wrong: &'e OutcomeFault<'e>)
    ensures { lines.new ≡ and_lines (difference_lines wrong.now) lines.old }
{
    match wrong {
        OutcomeFault::Row { row, found, due } => {
            lines.say(&[Word("row: ", Row(row))]);
            say_amounts(lines, *found, *due);
        }
        OutcomeFault::Reply {
            request,
            found,
            due,
        } => {
            lines.say(&[Word("reply: ", Request(request))]);
            lines.say(&[Word("found: ", Reply(*found))]);
            lines.say(&[Word("due: ", Reply(*due))]);
        }
    }
}

/// Says how the outcome of a batch differs from that of replica `first`, whose attempt's frame begins at byte
/// `first_at`.
pub(crate) fn say_outcome<'e>(
    lines: &mut Lines,
    attempt: &ToldAttempt,
    first: u8,
    first_at: u64,
    wrong: &'e OutcomeFault<'e>,
)
    ensures { lines.new ≡ and_lines (outcome_lines attempt.now first first_at wrong.now) lines.old }
{
    say_attempt(lines, attempt);
    say_first(lines, first, first_at);
    say_difference(lines, wrong);
}

/// Says how a state that was transferred differs from the one that was committed.
fn say_state<'e>(lines: &mut Lines, wrong: &'e StateFault<'e>)
    ensures { lines.new ≡ and_lines (state_lines wrong.now) lines.old }
{
    match wrong {
        StateFault::NoneCommitted => lines.say(&[Word("first: none", Nothing)]),
        StateFault::Row {
            first,
            first_at,
            row,
            found,
            due,
        } => {
            say_first(lines, *first, *first_at);
            lines.say(&[Word("row: ", Row(row))]);
            say_amounts(lines, *found, *due);
        }
    }
}

/// Says a state that was transferred, and how it differs from the one that was committed.
pub(crate) fn say_state_fault<'e>(
    lines: &mut Lines,
    state: &ToldTransfer,
    wrong: &'e StateFault<'e>,
)
    ensures { lines.new ≡ and_lines (state_fault_lines state.now wrong.now) lines.old }
{
    say_transfer(lines, state);
    say_state(lines, wrong);
}

/// Says a reply that was sent: `sent: client 7 number 1, replica 0, batch 1, Done`.
fn say_sent(lines: &mut Lines, sent: &ToldSent)
    ensures { lines.new ≡ and_line (sent_line sent.now) lines.old }
{
    lines.say(&[
        Word("sent: client ", Number(sent.client as u64)),
        Word(" number ", Number(sent.number)),
        Word(", replica ", Number(sent.replica as u64)),
        Word(", batch ", Number(sent.batch as u64)),
        Word(", ", Reply(sent.reply)),
    ]);
}

/// Says which attempt gave a reply and wasn't committed: `given by: Attempt at byte 101, open`.
fn say_given(lines: &mut Lines, given: &Option<GivenBy>)
    ensures { lines.new ≡ and_line (given_line given.now) lines.old }
{
    match given {
        None => lines.say(&[Word("given by: nobody", Nothing)]),
        Some(by) => lines.say(&[
            Word("given by: ", Frame(FrameKind::Attempt, by.at)),
            Word(if by.open { ", open" } else { ", discarded" }, Nothing),
        ]),
    }
}

/// Says what is wrong with a reply that was sent, and who gave it.
fn say_sent_wrong<'e>(
    lines: &mut Lines,
    sent: &ToldSent,
    given: &Option<GivenBy>,
    wrong: &'e SentFault<'e>,
)
    ensures { lines.new ≡ and_lines (sent_wrong_lines sent.now given.now wrong.now) lines.old }
{
    match wrong {
        SentFault::NoRequest => lines.say(&[
            Word("found: no request ", Number(sent.client as u64)),
            Word(" ", Number(sent.number)),
            Word(" in batch ", Number(sent.batch as u64)),
        ]),
        SentFault::NotCommitted => {
            lines.say(&[
                Word("found: batch ", Number(sent.batch as u64)),
                Word(
                    " not committed by an attempt of replica ",
                    Number(sent.replica as u64),
                ),
            ]);
            say_given(lines, given);
        }
        SentFault::Another { request, due } => {
            lines.say(&[Word("request: ", Request(request))]);
            lines.say(&[Word("found: ", Reply(sent.reply))]);
            lines.say(&[Word("due: ", Reply(*due))]);
            say_given(lines, given);
        }
    }
}

/// Says a reply that was sent, what is wrong with it, and who gave it.
pub(crate) fn say_sent_fault<'e>(
    lines: &mut Lines,
    sent: &ToldSent,
    wrong: &'e SentFault<'e>,
    given: &Option<GivenBy>,
)
    ensures { lines.new ≡ and_lines (sent_fault_lines sent.now wrong.now given.now) lines.old }
{
    say_sent(lines, sent);
    say_sent_wrong(lines, sent, given, wrong);
}
