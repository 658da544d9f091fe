//! The lines of evidence.

ghost use Rattle.std.specs.Prelude.{◌≡◌, map, slice_get};
ghost use Rattle.std.specs.Option.{option_map};
ghost use Rattle.eve_reasons.specs.Lines.{and_lines, ended};
ghost use Rattle.eve_reasons.specs.Reasons.{agreement_lines, reason_lines, section_lines};

use crate::attempts::{say_attempt_fault, say_certificate, say_record_place, say_worker_order};
use crate::form::{say_body, say_frame_fault, say_head, say_length, say_magic};
use crate::lines::Lines;
use crate::orders::{say_same_name, say_same_request};
use crate::outcomes::{say_outcome, say_sent_fault, say_state_fault};
use crate::polls::{say_poll, say_transfer_poll, say_two_decisions, say_two_votes};
use crate::records::{say_chain, say_record};
use crate::rows::{say_restore, say_token};
use crate::structure::{say_commit, say_rollback, say_transfer_fault};
use eve_evidence::Evidence;
use eve_lines::Line;

/// Says the lines of evidence, a case for each kind: here of form, and of what stands twice.
fn say_evidence<'e>(lines: &mut Lines, evidence: &'e Evidence<'e>)
    ensures { lines.new ≡ and_lines (reason_lines evidence.now) lines.old }
{
    match evidence {
        Evidence::Length {
            found,
            wrong,
            magic,
        } => say_length(lines, *found, wrong, magic),
        Evidence::Magic { found } => say_magic(lines, found),
        Evidence::Head {
            field,
            at,
            found,
            least,
            most,
        } => say_head(lines, *field, *at, *found, *least, *most),
        Evidence::Frame {
            wrong,
            due,
            records,
        } => say_frame_fault(lines, wrong, due, records),
        Evidence::Body {
            frame,
            at,
            field,
            field_at,
        } => say_body(lines, *frame, *at, *field, *field_at),
        Evidence::SameName {
            name,
            first,
            first_at,
        } => say_same_name(lines, name, *first, *first_at),
        Evidence::SameRequest {
            request,
            first,
            first_at,
        } => say_same_request(lines, request, first, *first_at),
        _ => say_section(lines, evidence),
    }
}

/// Says the lines of evidence of what a replica's section says, and of later phases.
fn say_section<'e>(lines: &mut Lines, evidence: &'e Evidence<'e>)
    ensures { lines.new ≡ and_lines (section_lines evidence.now) lines.old }
{
    match evidence {
        Evidence::Attempt(wrong) => say_attempt_fault(lines, wrong),
        Evidence::Certificate { attempt, wrong } => say_certificate(lines, attempt, wrong),
        Evidence::Access { attempt, at, wrong } => say_record_place(lines, attempt, *at, wrong),
        Evidence::WorkerOrder { attempt, at, place } => say_worker_order(
            lines, attempt, *at, place,
        ),
        Evidence::Commit(wrong) => say_commit(lines, wrong),
        Evidence::Rollback(wrong) => say_rollback(lines, wrong),
        Evidence::Transfer { state, wrong } => say_transfer_fault(lines, state, wrong),
        Evidence::Record {
            attempt,
            request,
            at,
            wrong,
        } => say_record(lines, attempt, request, *at, wrong),
        Evidence::Chain {
            attempt,
            request,
            at,
            wrong,
            seen,
        } => say_chain(lines, attempt, request, *at, wrong, seen),
        Evidence::Restore(wrong) => say_restore(lines, wrong),
        Evidence::Token {
            attempt,
            found,
            due,
            matches,
        } => say_token(lines, attempt, found, due, *matches),
        _ => say_agreement(lines, evidence),
    }
}

/// Says the lines of evidence of votes, outcomes and replies. Evidence of a code that isn't told has none.
fn say_agreement<'e>(lines: &mut Lines, evidence: &'e Evidence<'e>)
    ensures { lines.new ≡ and_lines (agreement_lines evidence.now) lines.old }
{
    match evidence {
        Evidence::TwoVotes(second) => say_two_votes(lines, second),
        Evidence::TwoDecisions {
            batch,
            first,
            second,
            verifiers,
        } => say_two_decisions(lines, *batch, first, second, *verifiers),
        Evidence::Majority(poll) => say_poll(lines, poll),
        Evidence::TransferMajority { at, poll } => say_transfer_poll(lines, *at, poll),
        Evidence::Outcome {
            attempt,
            first,
            first_at,
            wrong,
        } => say_outcome(lines, attempt, *first, *first_at, wrong),
        Evidence::TransferState { state, wrong } => say_state_fault(lines, state, wrong),
        Evidence::Reply { sent, wrong, given } => say_sent_fault(lines, sent, wrong, given),
        _ => {}
    }
}

/// Line `i`, from 0, of why a verdict is no, with its line feed. None, where there is no such line.
///
/// docs/USING.md, "What `explain` prints", has each line.
pub fn reason_line<'e>(i: usize, evidence: &'e Evidence<'e>) -> Option<Line>
    ensures { option_map (λ line. line.items) result ≡ slice_get (map ended (reason_lines evidence.now)) i }
{
    let mut lines = Lines::keeping(i);
    say_evidence(&mut lines, evidence);
    lines.kept()
}
