//! Stripes, schedules, recorders and tickets. The line of a case says how many things were as they are due, or the
//! first that wasn't.
//!
//! A call that is refused memory is made once more, so that what is printed stays the same whichever request is
//! refused.

mod drawing;
mod parts;
mod recording;
mod stripes;
mod worked;

use eve_testing::{Seen, Text};
use std::alloc::Global;
use std::hash::RandomState;
use std::random::RandomSource;
use std::sync::Wait;
use std::thread::Threads;

/// What is looked at.
enum Case {
    Stripes(stripes::Case),
    Schedule(worked::Case),
    Tickets(drawing::Case),
    FullQueue,
    Threads,
}

/// A case, and the name that a line has for it.
struct Named(&'static str, Case);

static CASES: [Named; 18] = [
    Named(
        "stripe-deposit-and-undo",
        Case::Stripes(stripes::DEPOSIT_AND_UNDO),
    ),
    Named(
        "stripe-too-little-room",
        Case::Stripes(stripes::TOO_LITTLE_ROOM),
    ),
    Named(
        "stripe-settled-and-went-back",
        Case::Stripes(stripes::SETTLED_AND_WENT_BACK),
    ),
    Named("stripe-installed", Case::Stripes(stripes::INSTALLED)),
    Named(
        "stripe-worn-and-untouched",
        Case::Stripes(stripes::WORN_AND_UNTOUCHED),
    ),
    Named("stripes-amalgamate", Case::Stripes(stripes::TWO_STRIPES)),
    Named(
        "stripes-that-share-a-row",
        Case::Stripes(stripes::SHARED_ROW),
    ),
    Named(
        "stripes-the-second-past",
        Case::Stripes(stripes::SECOND_PAST),
    ),
    Named("schedule-two-workers", Case::Schedule(worked::TWO_WORKERS)),
    Named("schedule-no-row", Case::Schedule(worked::NO_ROW)),
    Named("schedule-later-group", Case::Schedule(worked::LATER_GROUP)),
    Named("schedule-two-stripes", Case::Schedule(worked::TWO_STRIPES)),
    Named("schedule-nobody", Case::Schedule(worked::NOBODY)),
    Named("tickets-two-seats", Case::Tickets(drawing::TWO_SEATS)),
    Named("tickets-eight-seats", Case::Tickets(drawing::EIGHT_SEATS)),
    Named("tickets-limit-zero", Case::Tickets(drawing::LIMIT_ZERO)),
    Named("queue-full-and-drained", Case::FullQueue),
    Named("queue-eight-threads", Case::Threads),
];

/// The case of that name, None where none has it.
fn case_of(name: &str) -> Option<&'static Case> {
    for named in &CASES {
        if named.0 == name {
            return Some(&named.1);
        }
    }
    None
}

/// Looks at the case of that name.
fn look<R: Threads + Wait + Sync>(
    rt: &R,
    alloc: Global,
    random: RandomState,
    name: &str,
    seen: &mut Seen,
) {
    match case_of(name) {
        Some(Case::Stripes(case)) => stripes::play(alloc, random, case, seen),
        Some(Case::Schedule(case)) => worked::play(alloc, random, case, seen),
        Some(Case::Tickets(case)) => drawing::play(rt, alloc, case, seen),
        Some(Case::FullQueue) => recording::fill_and_drain(rt, alloc, seen),
        Some(Case::Threads) => recording::note_at_once(rt, alloc, seen),
        None => seen.want(false, "the name of a case"),
    }
}

/// Tells what is seen of the case of that name, on its line.
pub(crate) fn tell<R: AllocGlobal + RandomSource + Threads + Wait + Sync>(
    rt: &R,
    name: &str,
    said: &mut Text,
) {
    let mut seen = Seen::nothing();
    match RandomState::new(rt) {
        Ok(random) => look(rt, rt.alloc(), random, name, &mut seen),
        Err(why) => seen.fail(why),
    }
    said.words(name);
    said.words(": ");
    if !seen.tell_wrong(said) {
        said.value("", seen.count());
        said.words(" as they are due");
    }
    said.words("\n");
}
