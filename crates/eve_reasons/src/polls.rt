//! Who voted, and for what.

ghost use Rattle.std.specs.Prelude.{◌≡◌};
ghost use Rattle.eve_reasons.specs.Lines.{and_line, and_lines};
ghost use Rattle.eve_reasons.specs.Polls.{asked_line, choice_line, decision_line, earliest_line, found_lines};
ghost use Rattle.eve_reasons.specs.Polls.{poll_lines, second_line, transfer_poll_lines, two_decisions_lines};
ghost use Rattle.eve_reasons.specs.Polls.{two_votes_lines, vote_line};

use crate::lines::Lines;
use crate::shared::say_transfer;
use crate::word::Value::{Batch, Digits, Frame, Nothing, Number};
use crate::word::Word;
use eve_evidence::{
    Poll, SecondVote, ToldDecision, ToldTransfer, TransferPoll, VERIFIERS, VerifierChoice,
    VerifierVote,
};
use eve_grammar::{Choice, FrameKind};

/// Says a verifier's second vote on a batch in a view: `vote: verifier 1, batch 1, view 0, rollback`.
fn say_second<'e>(lines: &mut Lines, verifier: u8, batch: u32, view: u32, choice: &'e Choice<'e>)
    ensures { lines.new ≡ and_line (second_line verifier batch view choice.now) lines.old }
{
    match choice {
        Choice::ForRollback => lines.say(&[
            Word("vote: verifier ", Number(verifier as u64)),
            Word(", ", Batch(batch, view)),
            Word(", rollback", Nothing),
        ]),
        Choice::ForCommit(token) => lines.say(&[
            Word("vote: verifier ", Number(verifier as u64)),
            Word(", ", Batch(batch, view)),
            Word(", commit ", Digits(token)),
        ]),
    }
}

/// Says its earliest vote there: `first: Vote at byte 251, rollback`.
fn say_earliest<'e>(lines: &mut Lines, at: u64, choice: &'e Choice<'e>)
    ensures { lines.new ≡ and_line (earliest_line at choice.now) lines.old }
{
    match choice {
        Choice::ForRollback => lines.say(&[
            Word("first: ", Frame(FrameKind::Vote, at)),
            Word(", rollback", Nothing),
        ]),
        Choice::ForCommit(token) => lines.say(&[
            Word("first: ", Frame(FrameKind::Vote, at)),
            Word(", commit ", Digits(token)),
        ]),
    }
}

/// Says a verifier's second vote on a batch in a view, and its earliest there.
pub(crate) fn say_two_votes<'e>(lines: &mut Lines, second: &'e SecondVote<'e>)
    ensures { lines.new ≡ and_lines (two_votes_lines second.now) lines.old }
{
    say_second(
        lines,
        second.verifier,
        second.batch,
        second.view,
        &second.choice,
    );
    say_earliest(lines, second.first, &second.first_choice);
}

/// Says a view in which a batch is decided as commit.
fn say_decision(lines: &mut Lines, decision: &ToldDecision, verifiers: u8)
    ensures { lines.new ≡ and_line (decision_line decision.now verifiers) lines.old }
{
    lines.say(&[
        Word("decided: view ", Number(decision.view as u64)),
        Word(", token ", Digits(&decision.token[..])),
        Word(", by ", Number(decision.votes as u64)),
        Word(" of ", Number(verifiers as u64)),
        Word(" verifiers", Nothing),
    ]);
}

/// Says a batch, and two views in which it is decided as commit.
pub(crate) fn say_two_decisions(
    lines: &mut Lines,
    batch: u32,
    first: &ToldDecision,
    second: &ToldDecision,
    verifiers: u8,
)
    ensures { lines.new ≡ and_lines (two_decisions_lines batch first.now second.now verifiers) lines.old }
{
    lines.say(&[Word("batch: ", Number(batch as u64))]);
    say_decision(lines, first, verifiers);
    say_decision(lines, second, verifiers);
}

/// Says what votes are asked for: `for: rollback of batch 2, view 0`.
fn say_asked<'e>(lines: &mut Lines, batch: u32, view: u32, choice: &'e Choice<'e>)
    ensures { lines.new ≡ and_line (asked_line batch view choice.now) lines.old }
{
    match choice {
        Choice::ForRollback => lines.say(&[Word("for: rollback of ", Batch(batch, view))]),
        Choice::ForCommit(token) => lines.say(&[
            Word("for: commit of ", Batch(batch, view)),
            Word(", token ", Digits(token)),
        ]),
    }
}

/// Says how many verifiers count for it, of how many, and how many must.
fn say_found(lines: &mut Lines, found: u8, verifiers: u8, due: u8)
    ensures { lines.new ≡ and_lines (found_lines found verifiers due) lines.old }
{
    lines.say(&[
        Word("found: ", Number(found as u64)),
        Word(" of ", Number(verifiers as u64)),
        Word(" verifiers", Nothing),
    ]);
    lines.say(&[Word("due: ", Number(due as u64))]);
}

/// Says what the verifier of a number did: `verifier 0: for it, Vote at byte 251`.
fn say_vote(lines: &mut Lines, verifier: usize, vote: &VerifierVote)
    ensures { lines.new ≡ and_line (vote_line (verifier, vote.now)) lines.old }
{
    match vote {
        VerifierVote::For(at) => lines.say(&[
            Word("verifier ", Number(verifier as u64)),
            Word(": for it, ", Frame(FrameKind::Vote, *at)),
        ]),
        VerifierVote::Otherwise(at) => lines.say(&[
            Word("verifier ", Number(verifier as u64)),
            Word(": otherwise, ", Frame(FrameKind::Vote, *at)),
        ]),
        VerifierVote::NoVote => lines.say(&[
            Word("verifier ", Number(verifier as u64)),
            Word(": no vote", Nothing),
        ]),
    }
}

/// Says who voted for a commit or a rollback that has no majority.
pub(crate) fn say_poll<'e>(lines: &mut Lines, poll: &'e Poll<'e>)
    ensures { lines.new ≡ and_lines (poll_lines poll.now) lines.old }
{
    say_asked(lines, poll.batch, poll.view, &poll.choice);
    say_found(lines, poll.found, poll.verifiers, poll.due);
    let votes = &poll.votes[..(poll.verifiers as usize).min(VERIFIERS)];
    'votes: for i in 0..votes.len() {
        say_vote(lines, i, &votes[i]);
    }
}

/// Says what the verifier of a number said: `verifier 0: rollback, Vote at byte 251`.
fn say_choice<'e>(lines: &mut Lines, verifier: usize, choice: &'e VerifierChoice<'e>)
    ensures { lines.new ≡ and_line (choice_line (verifier, choice.now)) lines.old }
{
    match choice {
        VerifierChoice::Commit { token, at } => lines.say(&[
            Word("verifier ", Number(verifier as u64)),
            Word(": commit ", Digits(token)),
            Word(", ", Frame(FrameKind::Vote, *at)),
        ]),
        VerifierChoice::Rollback(at) => lines.say(&[
            Word("verifier ", Number(verifier as u64)),
            Word(": rollback, ", Frame(FrameKind::Vote, *at)),
        ]),
        VerifierChoice::NoVote => lines.say(&[
            Word("verifier ", Number(verifier as u64)),
            Word(": no vote", Nothing),
        ]),
    }
}

/// Says who voted for the commit of a batch whose state was transferred at byte `at`, where no token has a majority.
pub(crate) fn say_transfer_poll<'e>(lines: &mut Lines, at: u64, poll: &'e TransferPoll<'e>)
    ensures { lines.new ≡ and_lines (transfer_poll_lines at poll.now) lines.old }
{
    let batch = poll.batch;
    let view = poll.view;
    say_transfer(lines, &ToldTransfer { batch, view, at });
    lines.say(&[
        Word("for: commit of ", Batch(batch, view)),
        Word(", any token", Nothing),
    ]);
    say_found(lines, poll.found, poll.verifiers, poll.due);
    let votes = &poll.votes[..(poll.verifiers as usize).min(VERIFIERS)];
    'votes: for i in 0..votes.len() {
        say_choice(lines, i, &votes[i]);
    }
}
