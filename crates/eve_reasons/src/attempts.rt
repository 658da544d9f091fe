//! What is wrong with an attempt, its certificate, or where its records stand.

ghost use Rattle.std.specs.Prelude.{◌≡◌};
ghost use Rattle.eve_reasons.specs.Lines.{and_line, and_lines};
ghost use Rattle.eve_reasons.specs.Attempts.{access_fault_lines, access_lines, attempt_fault_lines, certificate_lines};
ghost use Rattle.eve_reasons.specs.Attempts.{due_index_line, index_line, worker_lines, worker_order_lines};

use crate::lines::Lines;
use crate::shared::{say_access, say_attempt, say_numbers};
use crate::word::Value::{Frame, Mode, Nothing, Number};
use crate::word::Word;
use eve_evidence::{AccessFault, AttemptFault, CertificateFault, Numbers, ToldAttempt};
use eve_grammar::FrameKind;

/// Says what is wrong with an attempt's number, view, requests or mode.
pub(crate) fn say_attempt_fault(lines: &mut Lines, wrong: &AttemptFault)
    ensures { lines.new ≡ and_lines (attempt_fault_lines wrong.now) lines.old }
{
    match wrong {
        AttemptFault::Number(is) => say_numbers(lines, "number", is, "due: "),
        AttemptFault::PastBatches(is) => say_numbers(lines, "number", is, "due: at most "),
        AttemptFault::PastWindow(is) => say_numbers(lines, "number", is, "due: at most "),
        AttemptFault::View(is) => say_numbers(lines, "view", is, "due: "),
        AttemptFault::Requests(is) => say_numbers(lines, "requests", is, "due: "),
        AttemptFault::Mode { found, due } => {
            lines.say(&[Word("field: mode", Nothing)]);
            lines.say(&[Word("found: ", Mode(*found))]);
            lines.say(&[Word("due: ", Mode(*due))]);
        }
    }
}

/// Says which index stands where in a certificate: `found: index 1 at place 0`.
fn say_index(lines: &mut Lines, wrong: &CertificateFault)
    ensures { lines.new ≡ and_line (index_line wrong.now) lines.old }
{
    match wrong {
        CertificateFault::NoRequest { index, place, .. }
        | CertificateFault::OutOfOrder { index, place } => lines.say(&[
            Word("found: index ", Number(*index as u64)),
            Word(" at place ", Number(*place as u64)),
        ]),
        CertificateFault::Again {
            index,
            place,
            first,
        } => lines.say(&[
            Word("found: index ", Number(*index as u64)),
            Word(" at places ", Number(*first as u64)),
            Word(" and ", Number(*place as u64)),
        ]),
        CertificateFault::BeforeGroup {
            index,
            place,
            before,
        } => lines.say(&[
            Word("found: index ", Number(*index as u64)),
            Word(" at place ", Number(*place as u64)),
            Word(" before index ", Number(*before as u64)),
        ]),
    }
}

/// Says what was due there.
fn say_due_index(lines: &mut Lines, wrong: &CertificateFault)
    ensures { lines.new ≡ and_line (due_index_line wrong.now) lines.old }
{
    match wrong {
        CertificateFault::NoRequest { requests, .. } => {
            lines.say(&[Word("due: below ", Number(*requests as u64))]);
        }
        CertificateFault::Again { .. } => lines.say(&[Word("due: each index once", Nothing)]),
        CertificateFault::OutOfOrder { place, .. } => lines.say(&[
            Word("due: index ", Number(*place as u64)),
            Word(", in serial mode", Nothing),
        ]),
        CertificateFault::BeforeGroup { .. } => {
            lines.say(&[Word("due: parallelBatch after parallelBatch", Nothing)]);
        }
    }
}

/// Says what is wrong with an attempt's certificate.
pub(crate) fn say_certificate(lines: &mut Lines, attempt: &ToldAttempt, wrong: &CertificateFault)
    ensures { lines.new ≡ and_lines (certificate_lines attempt.now wrong.now) lines.old }
{
    say_attempt(lines, attempt);
    say_index(lines, wrong);
    say_due_index(lines, wrong);
}

/// Says which worker isn't there: in serial mode there is worker 0 alone.
fn say_worker(lines: &mut Lines, serial: bool, is: &Numbers)
    ensures { lines.new ≡ and_lines (worker_lines serial is.now) lines.old }
{
    if serial {
        lines.say(&[Word("field: worker", Nothing)]);
        lines.say(&[Word("found: ", Number(is.found))]);
        lines.say(&[Word("due: 0", Nothing)]);
    } else {
        say_numbers(lines, "worker", is, "due: below ");
    }
}

/// Says what is wrong with a record's worker or index.
fn say_access_fault(lines: &mut Lines, serial: bool, wrong: &AccessFault)
    ensures { lines.new ≡ and_lines (access_fault_lines serial wrong.now) lines.old }
{
    match wrong {
        AccessFault::Worker(is) => say_worker(lines, serial, is),
        AccessFault::Index(is) => say_numbers(lines, "index", is, "due: below "),
        AccessFault::Again { index, first } => {
            lines.say(&[Word("field: index", Nothing)]);
            lines.say(&[Word("found: ", Number(*index as u64))]);
            lines.say(&[Word("due: once", Nothing)]);
            lines.say(&[Word("first: ", Frame(FrameKind::Access, *first))]);
        }
    }
}

/// Says what is wrong with the worker or index of the record in the Access frame that begins at byte `at`.
pub(crate) fn say_record_place(
    lines: &mut Lines,
    attempt: &ToldAttempt,
    at: u64,
    wrong: &AccessFault,
)
    ensures { lines.new ≡ and_lines (access_lines attempt.now at wrong.now) lines.old }
{
    say_attempt(lines, attempt);
    say_access(lines, at);
    say_access_fault(lines, attempt.serial, wrong);
}

/// Says that the record in the Access frame that begins at byte `at` isn't its worker's next.
pub(crate) fn say_worker_order(lines: &mut Lines, attempt: &ToldAttempt, at: u64, place: &Numbers)
    ensures { lines.new ≡ and_lines (worker_order_lines attempt.now at place.now) lines.old }
{
    say_attempt(lines, attempt);
    say_access(lines, at);
    say_numbers(lines, "place", place, "due: ");
}
