//! Trials.

use crate::bytes::Bytes;
use crate::calls::{Answer, Terms, said};
use crate::each::tell_each;
use crate::fault::Fault;
use crate::runs::tell_run;
use std::fs::Files;
use std::random::RandomSource;
use std::sync::Wait;
use std::thread::Threads;

/// What fails in a trial.
#[derive(Clone, Copy)]
pub(crate) enum Failure {
    Nothing,
    Read,
    Write,
    Word,
    Random,
    Rest,
    Long,
    Each,
}

impl Failure {
    /// What the first word of a line lets fail. Where that is no word of a trial, the line's page notes it.
    pub(crate) fn of(page: &mut Bytes, word: &str) -> Failure {
        match word {
            "run" | "nothing" => Failure::Nothing,
            "read" => Failure::Read,
            "write" => Failure::Write,
            "word" => Failure::Word,
            "random" => Failure::Random,
            "rest" => Failure::Rest,
            "long" => Failure::Long,
            "each" => Failure::Each,
            _ => {
                page.fail(Fault::Word);
                Failure::Nothing
            }
        }
    }
}

/// A trial, which may be the run of a workload.
#[derive(Drop)]
pub(crate) struct Trial<'a> {
    /// The line that asks for it.
    pub(crate) line: &'a str,
    pub(crate) is_run: bool,
    pub(crate) failure: Failure,
    /// The file that is read, and its bytes.
    pub(crate) file: &'a str,
    pub(crate) bytes: Vec<u8>,
    /// The arguments of the call.
    pub(crate) arguments: Vec<&'a str>,
}

/// How many failures a trial tries at most.
const MOST: u32 = 10_000;

/// What a call meets where number `at` fails, counted from 1.
fn terms_of(failure: Failure, at: u32) -> Terms {
    let mut terms = Terms::fine();
    match failure {
        Failure::Nothing | Failure::Rest | Failure::Each => {}
        Failure::Read => terms.read = u64::from(at),
        Failure::Write => terms.write = u64::from(at),
        Failure::Word => terms.word = u64::from(at),
        Failure::Random => terms.has_random = false,
        Failure::Long => terms.limit = Some(at.saturating_sub(1)),
    }
    terms
}

/// The bytes that are read where number `at` fails.
fn bytes_of<'a>(trial: &'a Trial<'_>, at: u32) -> &'a [u8] {
    let bytes = trial.bytes.as_slice();
    match trial.failure {
        Failure::Rest => bytes.get(..at.saturating_sub(1) as usize).unwrap_or(bytes),
        _ => bytes,
    }
}

/// What `eve` answers where number `at` fails, counted from 1.
pub(crate) fn tried<R: AllocGlobal + RandomSource + Threads + Wait + Sync>(
    rt: &R,
    trial: &Trial<'_>,
    at: u32,
) -> Answer {
    let terms = terms_of(trial.failure, at);
    said(rt, trial.arguments.as_slice(), bytes_of(trial, at), terms)
}

/// What failures came to, from one number to another: the answer to the first, and what stood on out.
#[derive(Drop)]
struct Outcome {
    from: u32,
    to: u32,
    answer: Answer,
    out: &'static str,
}

impl Outcome {
    /// Whether two failures came to the same.
    fn is_like(&self, other: &Outcome) -> bool {
        self.answer.status() == other.answer.status()
            && self.out == other.out
            && self.answer.err() == other.answer.err()
    }

    /// Whether the failure changes nothing of `whole`.
    fn is_without_change(&self, whole: &Answer) -> bool {
        self.answer.status() == whole.status()
            && self.answer.out() == whole.out()
            && self.answer.err() == whole.err()
    }
}

/// How the bytes on out stand where number `at` fails, and `whole` where nothing does.
fn stood(at: u32, out: &[u8], whole: &[u8]) -> &'static str {
    if out.is_empty() {
        "nothing"
    } else if out == whole {
        "all"
    } else if out.len() == at.saturating_sub(1) as usize && whole.starts_with(out) {
        "the bytes before"
    } else {
        "something else"
    }
}

/// What the failure of this number came to, where `whole` is what is said where nothing fails.
fn outcome_of<R: AllocGlobal + RandomSource + Threads + Wait + Sync>(
    rt: &R,
    trial: &Trial<'_>,
    at: u32,
    whole: &Answer,
) -> Outcome {
    let answer = tried(rt, trial, at);
    let out = stood(at, answer.out(), whole.out());
    Outcome {
        from: at,
        to: at,
        answer,
        out,
    }
}

/// Tells what failures came to.
fn tell_outcome(page: &mut Bytes, outcome: &Outcome) {
    page.number("  ", u64::from(outcome.from));
    if outcome.from != outcome.to {
        page.number(" to ", u64::from(outcome.to));
    }
    page.number(": ", u64::from(outcome.answer.status()));
    page.words(", ");
    page.words(outcome.out);
    page.words("; ");
    page.append(outcome.answer.err());
    if outcome.answer.err().is_empty() {
        page.words("\n");
    }
}

/// Lets each number fail in turn, until the failure changes nothing of what is said where nothing fails, and tells
/// what came of it.
fn tell_in_turn<R: AllocGlobal + RandomSource + Threads + Wait + Sync>(
    rt: &R,
    trial: &Trial<'_>,
    page: &mut Bytes,
) {
    let whole = said(
        rt,
        trial.arguments.as_slice(),
        trial.bytes.as_slice(),
        Terms::fine(),
    );
    let mut last = outcome_of(rt, trial, 1, &whole);
    for at in 2..MOST {
        if last.is_without_change(&whole) {
            break;
        }
        let next = outcome_of(rt, trial, at, &whole);
        if next.is_like(&last) {
            drop(next);
            last.to = at;
        } else {
            tell_outcome(page, &last);
            last = next;
        }
    }
    drop(whole);
    tell_outcome(page, &last);
    drop(last);
}

/// Tells all that is said where the first fails.
fn tell_answer<R: AllocGlobal + RandomSource + Threads + Wait + Sync>(
    rt: &R,
    trial: &Trial<'_>,
    page: &mut Bytes,
) {
    let answer = tried(rt, trial, 1);
    page.number("  ", u64::from(answer.status()));
    page.words("\n");
    page.append(answer.out());
    page.append(answer.err());
    drop(answer);
}

/// Tells what came of a trial.
pub(crate) fn tell_trial<R: AllocGlobal + Files + RandomSource + Threads + Wait + Sync>(
    rt: &R,
    trial: &Trial<'_>,
    page: &mut Bytes,
) {
    if trial.is_run {
        return tell_run(rt, trial, page);
    }
    page.words(trial.line);
    page.words("\n");
    match trial.failure {
        Failure::Nothing | Failure::Word | Failure::Random => tell_answer(rt, trial, page),
        Failure::Read | Failure::Write | Failure::Rest | Failure::Long => {
            tell_in_turn(rt, trial, page)
        }
        Failure::Each => tell_each(rt, trial.bytes.as_slice(), page),
    }
}
