//! Worked schedules.

use crate::stamps::parts::{Ask, Given, opened, plan_of};
use eve_smallbank::{Abort, Reply};
use eve_stamps_schedule::{Event, Schedule, StepFault};
use eve_testing::Seen;
use std::alloc::{AllocError, Global};
use std::hash::RandomState;

/// An event, and whether it is allowed where it comes.
pub struct Step(Event, bool);

/// What has to be so.
pub enum Due {
    /// Each of the events, which are carried out, is allowed or refused as it says.
    Carried(&'static [Step]),
    /// Whether every request is noted.
    IsDone(bool),
    /// That is the order of what is applied.
    HasOrder(&'static [u16]),
    /// The first worker's last record has this reply, and this number of entries.
    Noted(Reply, usize),
    /// There are this many workers.
    Workers(usize),
}

/// What has to be so, and in words.
pub struct Want(Due, &'static str);

/// What a worked schedule begins with, and what has to be so of it, in this order.
pub struct Case {
    given: Given<'static>,
    wants: &'static [Want],
}

/// Two deposits to one customer by two workers, of which the second goes first.
pub const TWO_WORKERS: Case = Case {
    given: Given {
        customers: 1,
        workers: 2,
        values: &[0, 0],
        sizes: &[2],
        asks: &[Ask::Deposit(0, 5), Ask::Deposit(0, 7)],
    },
    wants: &[
        Want(
            Due::Carried(&[
                Step(Event::Claim(0), true),
                Step(Event::Claim(1), true),
                Step(Event::LockStripe(1), true),
                Step(Event::LockStripe(0), false),
                Step(Event::Tick(1), true),
                Step(Event::Apply(1), true),
                Step(Event::Unlock(1), true),
                Step(Event::Note(1), true),
            ]),
            "worker 1 goes first",
        ),
        Want(Due::IsDone(false), "a request is left"),
        Want(
            Due::Carried(&[
                Step(Event::LockStripe(0), true),
                Step(Event::Tick(0), true),
                Step(Event::Apply(0), true),
                Step(Event::Unlock(0), true),
                Step(Event::Note(0), true),
            ]),
            "worker 0 follows",
        ),
        Want(Due::IsDone(true), "all is noted"),
        Want(Due::HasOrder(&[1, 0]), "the order is 1, 0"),
    ],
};

/// A request that touches no row locks no stripe.
pub const NO_ROW: Case = Case {
    given: Given {
        customers: 1,
        workers: 1,
        values: &[10, 10],
        sizes: &[1],
        asks: &[Ask::Deposit(0, -1)],
    },
    wants: &[
        Want(
            Due::Carried(&[
                Step(Event::Claim(0), true),
                Step(Event::LockStripe(0), false),
                Step(Event::Tick(0), true),
                Step(Event::Apply(0), true),
                Step(Event::Note(0), true),
            ]),
            "it locks nothing",
        ),
        Want(
            Due::Noted(Reply::Aborted(Abort::BadAmount), 0),
            "the reason is noted, and no entry",
        ),
    ],
};

/// A request of a later parallelBatch waits until those before it are noted.
pub const LATER_GROUP: Case = Case {
    given: Given {
        customers: 2,
        workers: 2,
        values: &[10, 10, 10, 10],
        sizes: &[1, 1],
        asks: &[Ask::Deposit(0, 5), Ask::Deposit(1, 7)],
    },
    wants: &[
        Want(
            Due::Carried(&[
                Step(Event::Claim(0), true),
                Step(Event::Claim(1), false),
                Step(Event::LockStripe(0), true),
                Step(Event::Tick(0), true),
                Step(Event::Apply(0), true),
                Step(Event::Unlock(0), true),
                Step(Event::Note(0), true),
                Step(Event::Claim(1), true),
            ]),
            "the second waits for the first",
        ),
        Want(Due::IsDone(false), "a request is left"),
    ],
};

/// A request of two stripes locks both before its tick.
pub const TWO_STRIPES: Case = Case {
    given: Given {
        customers: 3,
        workers: 1,
        values: &[10, 10, 10, 10, 10, 10],
        sizes: &[1],
        asks: &[Ask::Amalgamate(2, 1)],
    },
    wants: &[
        Want(
            Due::Carried(&[
                Step(Event::Claim(0), true),
                Step(Event::LockStripe(0), true),
                Step(Event::Tick(0), false),
                Step(Event::LockStripe(0), true),
                Step(Event::Tick(0), true),
                Step(Event::Apply(0), true),
                Step(Event::Unlock(0), true),
                Step(Event::Note(0), false),
                Step(Event::Unlock(0), true),
                Step(Event::Note(0), true),
            ]),
            "both are locked, and given back",
        ),
        Want(Due::Noted(Reply::Done, 3), "three rows are noted"),
    ],
};

/// A worker that isn't there may do nothing.
pub const NOBODY: Case = Case {
    given: Given {
        customers: 1,
        workers: 1,
        values: &[10, 10],
        sizes: &[1],
        asks: &[Ask::Deposit(0, 5)],
    },
    wants: &[
        Want(
            Due::Carried(&[Step(Event::Claim(1), false), Step(Event::Claim(0), true)]),
            "the second isn't there",
        ),
        Want(Due::Workers(1), "there is one"),
    ],
};

/// Takes the step; where no memory was left, once more. Whether it is allowed.
fn stepped(schedule: &mut Schedule, event: Event, seen: &mut Seen) -> bool {
    let stepped = match schedule.step(event) {
        Err(StepFault::Memory) => schedule.step(event),
        stepped => stepped,
    };
    match stepped {
        Ok(()) => true,
        Err(StepFault::NotAllowed) => false,
        Err(StepFault::Memory) => {
            seen.needs(false);
            false
        }
    }
}

/// The order of what is applied; where no memory was left, asked for again.
fn ordered(alloc: Global, schedule: &Schedule, seen: &mut Seen) -> Vec<u16> {
    let order = match schedule.order(alloc) {
        Err(AllocError) => schedule.order(alloc),
        order => order,
    };
    match order {
        Ok(order) => order,
        Err(AllocError) => {
            seen.needs(false);
            Vec::new(alloc)
        }
    }
}

/// Carries out the events. Whether each is allowed or refused as it says.
fn carried(schedule: &mut Schedule, steps: &[Step], seen: &mut Seen) -> bool {
    for step in steps {
        if stepped(schedule, step.0, seen) != step.1 {
            return false;
        }
    }
    true
}

/// Whether the first worker's last record has this reply, and this number of entries.
fn has_noted(schedule: &Schedule, reply: Reply, entries: usize) -> bool {
    if schedule.workers() == 0 {
        return false;
    }
    match schedule.noted(0).last() {
        Some(made) => made.reply() == reply && made.entries().len() == entries,
        None => false,
    }
}

/// Whether it is as it is due.
fn is_so(alloc: Global, schedule: &mut Schedule, due: &Due, seen: &mut Seen) -> bool {
    match due {
        Due::Carried(steps) => carried(schedule, steps, seen),
        Due::IsDone(is_done) => schedule.done() == *is_done,
        Due::HasOrder(order) => ordered(alloc, schedule, seen).as_slice() == *order,
        Due::Noted(reply, entries) => has_noted(schedule, *reply, *entries),
        Due::Workers(workers) => schedule.workers() == *workers,
    }
}

/// Carries out a worked schedule, and looks at it.
fn look(alloc: Global, schedule: &mut Schedule, wants: &[Want], seen: &mut Seen) {
    for want in wants {
        let is_so = is_so(alloc, schedule, &want.0, seen);
        seen.want(is_so, want.1);
    }
}

/// Carries out the worked schedule, and looks at it.
pub fn play(alloc: Global, random: RandomState, case: &Case, seen: &mut Seen) {
    let Ok(plan) = plan_of(alloc, random, &case.given) else {
        return seen.needs(false);
    };
    let Ok(mut schedule) = opened(alloc, &plan, case.given.workers) else {
        return seen.needs(false);
    };
    look(alloc, &mut schedule, case.wants, seen);
}
