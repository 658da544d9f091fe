//! The cases that aren't the run of the workload with their name alone.

use crate::replica::gates::{Held, Turn};
use crate::replica::replicas::{Attempted, Closed, Deed, Due, OPENING, Seen, Setting, Want};
use crate::replica::taking::{KEEPS_ITS_TREE, TRANSFERS, TRANSFERS_NOTHING};
use eve_grammar::MOST_VERSIONS;
use eve_replica::eve_workload::Mixer;
use eve_replica::{AttemptFault, CloseFault, CommitFault};

/// What is done in a case.
#[derive(Clone, Copy)]
pub enum Doing {
    /// Calls of replicas in this setting, each list with a new one.
    Calls(Setting, &'static [&'static [Want]]),
    /// A run, whose attempts are held so.
    Run(Running),
}

/// A run: its format, how its attempts are held, and whether what each replica did hangs on no schedule.
#[derive(Clone, Copy)]
pub struct Running {
    pub format: u16,
    pub turns: &'static [Turn],
    pub has_sections: bool,
}

/// A case: its name, the file with its workload, and what is done in it.
#[derive(Clone, Copy)]
pub struct Case {
    pub name: &'static str,
    pub file: &'static str,
    pub doing: Doing,
}

/// Batches of one parallelBatch, replicas of version 1.
const WHOLE: Setting = Setting {
    mixer: Mixer::Whole,
    version: 1,
};

/// Batches cut by first fit.
const FIRST_FIT: Setting = Setting {
    mixer: Mixer::First,
    version: 1,
};

/// Replicas of version 2.
const OF_VERSION_2: Setting = Setting {
    mixer: Mixer::Whole,
    version: 2,
};

/// As her deposit of 500 leaves it.
const DEPOSITED: Seen = Seen(1, 500);

/// As it is in one after which no deposit is taken.
const WORN: Seen = Seen(MOST_VERSIONS, 30);

/// The first attempt is parallel, and sees the opening rows.
pub const FIRST: Want = Want {
    deed: Deed::Attempt(
        1,
        Attempted::Met(Due {
            seq: 1,
            view: 0,
            serial: false,
            seen: OPENING,
        }),
    ),
    what: "the first attempt is parallel and sees version 0",
};

/// Ann's deposit is attempted and committed, and gives the trace that is wanted.
const ATTEMPTED: &[Want] = &[
    Want {
        deed: Deed::Commit(1, Some(CommitFault::NotOpen)),
        what: "nothing is open at first",
    },
    Want {
        deed: Deed::Attempt(1, Attempted::Given),
        what: "the trace of the attempt",
    },
    Want {
        deed: Deed::Commit(1, Some(CommitFault::NotOpen)),
        what: "what is committed isn't open",
    },
    Want {
        deed: Deed::GoBack(1, None),
        what: "nothing to restore",
    },
];

/// Once more, of records that were taken by hand. No records are no attempt of the batch, and neither is one that saw
/// another version.
const CLOSED: &[Want] = &[
    Want {
        deed: Deed::CloseNone(1, Closed::Refused(CloseFault::Mismatch)),
        what: "no records are no attempt",
    },
    Want {
        deed: Deed::Close(1, Closed::Refused(CloseFault::Mismatch)),
        what: "the row isn't at version 1",
    },
    Want {
        deed: Deed::Close(0, Closed::Given),
        what: "the trace of the records",
    },
];

/// Two deposits in one parallelBatch, by two workers: each is held until the other has entered.
const GATES_HELD: &[Want] = &[Want {
    deed: Deed::Hold(Held {
        request: 0,
        other: 1,
        comes: true,
    }),
    what: "an attempt with both inside at one moment",
}];

/// A batch of 64 requests by two workers, and then one of 256: the first request is held until the last one has
/// entered, so that the other worker notes all between them, for which a recorder of the first batch has no room.
const LARGER_LATER: &[Want] = &[
    FIRST,
    Want {
        deed: Deed::Hold(Held {
            request: 0,
            other: 255,
            comes: true,
        }),
        what: "one worker notes 255 requests while the other is held",
    },
];

/// Three parallelBatches of 2, 2 and 1 requests by two workers: a request of the second is held, and the third doesn't
/// begin meanwhile.
const IN_TURN: &[Want] = &[Want {
    deed: Deed::Hold(Held {
        request: 2,
        other: 4,
        comes: false,
    }),
    what: "the third parallelBatch begins after the second",
}];

/// Two parallelBatches of 2 and 1 requests by two workers. Whichever runs the first request gives it up, since ann's
/// row may be written no more, and the other, who waits for it, is told.
const GIVEN_UP: &[Want] = &[
    Want {
        deed: Deed::ApplyTransfer(1, 0, WORN, None),
        what: "her row may be written no more",
    },
    Want {
        deed: Deed::Attempt(1, Attempted::Failed(AttemptFault::Worn)),
        what: "a deposit on it is given up",
    },
    Want {
        deed: Deed::BeBroken(true),
        what: "a broken replica",
    },
    Want {
        deed: Deed::GoBack(1, None),
        what: "nothing to restore",
    },
    Want {
        deed: Deed::HaveState(WORN),
        what: "her row is as it was",
    },
];

/// A rollback puts the stripes back, so that the serial attempt sees version 0 again.
const ROLLED_BACK: &[Want] = &[
    FIRST,
    Want {
        deed: Deed::GoBack(0, Some(OPENING)),
        what: "her row is restored",
    },
    Want {
        deed: Deed::Attempt(
            1,
            Attempted::Met(Due {
                seq: 1,
                view: 1,
                serial: true,
                seen: OPENING,
            }),
        ),
        what: "a serial attempt in view 1 that sees version 0 again",
    },
];

/// Of two attempts one is committed, and the other one's writes alone are undone: attempted again, serial after the
/// first, it sees the row as the first left it.
const ONE_COMMITTED: &[Want] = &[
    FIRST,
    Want {
        deed: Deed::Attempt(
            1,
            Attempted::Met(Due {
                seq: 2,
                view: 0,
                serial: false,
                seen: DEPOSITED,
            }),
        ),
        what: "the second batch sees version 1",
    },
    Want {
        deed: Deed::Commit(1, None),
        what: "the first is committed",
    },
    Want {
        deed: Deed::GoBack(1, Some(DEPOSITED)),
        what: "her row is restored, and what is committed stays",
    },
    Want {
        deed: Deed::Attempt(
            1,
            Attempted::Met(Due {
                seq: 2,
                view: 1,
                serial: true,
                seen: DEPOSITED,
            }),
        ),
        what: "the second batch sees version 1 again",
    },
];

/// A batch of 256 requests is attempted and rolled back four times, which takes more than a thousand ticks; then it is
/// committed, by one worker of two, and a rollback behind it leaves its rows settled.
const MANY_TICKS: &[Want] = &[
    Want {
        deed: Deed::Discard(4),
        what: "four attempts, each rolled back",
    },
    Want {
        deed: Deed::Attempt(
            1,
            Attempted::Met(Due {
                seq: 1,
                view: 4,
                serial: true,
                seen: OPENING,
            }),
        ),
        what: "a serial attempt in view 4 that sees version 0 again",
    },
    Want {
        deed: Deed::Attempt(
            2,
            Attempted::Met(Due {
                seq: 2,
                view: 4,
                serial: false,
                seen: DEPOSITED,
            }),
        ),
        what: "the second batch sees version 1",
    },
    Want {
        deed: Deed::Commit(1, None),
        what: "the first is committed",
    },
    Want {
        deed: Deed::GoBack(1, Some(DEPOSITED)),
        what: "her row is restored, and what is committed stays",
    },
    Want {
        deed: Deed::Attempt(
            2,
            Attempted::Met(Due {
                seq: 2,
                view: 5,
                serial: true,
                seen: DEPOSITED,
            }),
        ),
        what: "the second batch sees version 1 again",
    },
];

/// Ann's deposit is closed of a record that was taken by hand, so that the stripes don't have it, and an attempt over
/// her row fails. Every call but a rollback is refused then. Rows that only the failed attempt wrote are put back and
/// not listed. Where one request for memory is refused, wherever that is, the same holds.
const BROKEN: &[Want] = &[
    Want {
        deed: Deed::Close(0, Closed::Made),
        what: "her deposit is closed",
    },
    Want {
        deed: Deed::Attempt(2, Attempted::Failed(AttemptFault::Mismatch)),
        what: "an attempt over her row fails",
    },
    Want {
        deed: Deed::BeBroken(true),
        what: "a broken replica",
    },
    Want {
        deed: Deed::Commit(1, Some(CommitFault::Broken)),
        what: "no commit while broken",
    },
    Want {
        deed: Deed::CloseNone(2, Closed::Refused(CloseFault::Broken)),
        what: "no close while broken",
    },
    Want {
        deed: Deed::Attempt(2, Attempted::Broken),
        what: "no attempt while broken",
    },
    Want {
        deed: Deed::GoBackAtLast(OPENING),
        what: "her row is restored, the replica broken where a rollback was refused",
    },
    Want {
        deed: Deed::BeBroken(false),
        what: "not broken any more",
    },
    Want {
        deed: Deed::Attempt(
            2,
            Attempted::Met(Due {
                seq: 1,
                view: 1,
                serial: true,
                seen: OPENING,
            }),
        ),
        what: "a serial attempt in view 1 that sees version 0 again",
    },
];

const CHECK: Turn = Turn::CheckFirst;

const ORDER: Turn = Turn::InOrder;

const FREE: Turn = Turn::Free;

/// A run in format 1 in which nothing is held.
pub const FREE_RUN: Running = Running {
    format: 1,
    turns: &[],
    has_sections: false,
};

/// The same in format 2.
const FREE_RUN_OF_FORMAT_2: Running = Running {
    format: 2,
    turns: &[],
    has_sections: false,
};

static CASES: [Case; 24] = [
    Case {
        name: "replica-attempt-and-close",
        file: "deposit",
        doing: Doing::Calls(WHOLE, &[ATTEMPTED, CLOSED]),
    },
    Case {
        name: "gates-held",
        file: "deposits-of-ann-and-bob",
        doing: Doing::Calls(WHOLE, &[GATES_HELD]),
    },
    Case {
        name: "larger-later",
        file: "64-requests-and-256",
        doing: Doing::Calls(WHOLE, &[LARGER_LATER]),
    },
    Case {
        name: "parallel-batches-in-turn",
        file: "three-parallel-batches",
        doing: Doing::Calls(FIRST_FIT, &[IN_TURN]),
    },
    Case {
        name: "given-up",
        file: "deposits-and-a-stranger",
        doing: Doing::Calls(FIRST_FIT, &[GIVEN_UP]),
    },
    Case {
        name: "rollback",
        file: "deposits-of-ann-and-bob",
        doing: Doing::Calls(WHOLE, &[ROLLED_BACK]),
    },
    Case {
        name: "commit-and-rollback",
        file: "deposits-of-ann-and-bob",
        doing: Doing::Calls(WHOLE, &[ONE_COMMITTED]),
    },
    Case {
        name: "settled-past-a-thousand-ticks",
        file: "256-requests-and-a-deposit",
        doing: Doing::Calls(WHOLE, &[MANY_TICKS]),
    },
    Case {
        name: "broken-until-rollback",
        file: "deposits-of-ann-and-bob",
        doing: Doing::Calls(WHOLE, &[BROKEN]),
    },
    Case {
        name: "replica-transfer",
        file: "deposits-of-100-and-5",
        doing: Doing::Calls(OF_VERSION_2, &[TRANSFERS]),
    },
    Case {
        name: "transfer-while-broken",
        file: "deposit",
        doing: Doing::Calls(OF_VERSION_2, &[TRANSFERS_NOTHING]),
    },
    Case {
        name: "tree-follows-replica",
        file: "deposits-of-100-and-5",
        doing: Doing::Calls(OF_VERSION_2, &[KEEPS_ITS_TREE]),
    },
    Case {
        name: "run-of-one-deposit",
        file: "deposit",
        doing: Doing::Run(Running {
            format: 1,
            turns: &[],
            has_sections: true,
        }),
    },
    Case {
        name: "run-two-deposits-whole",
        file: "two-deposits-twice-run",
        doing: Doing::Run(Running {
            format: 1,
            turns: &[],
            has_sections: true,
        }),
    },
    Case {
        name: "two-replicas-disagree",
        file: "knot-of-two-replicas",
        doing: Doing::Run(Running {
            format: 1,
            turns: &[CHECK, FREE, ORDER],
            has_sections: true,
        }),
    },
    Case {
        name: "first-of-three-disagrees",
        file: "knot-of-three-replicas",
        doing: Doing::Run(Running {
            format: 1,
            turns: &[CHECK, ORDER, ORDER],
            has_sections: true,
        }),
    },
    Case {
        name: "half-of-four-agree",
        file: "knots-of-four-replicas",
        doing: Doing::Run(Running {
            format: 1,
            turns: &[CHECK, ORDER, ORDER, ORDER, CHECK, ORDER, ORDER],
            has_sections: true,
        }),
    },
    Case {
        name: "takes-over",
        file: "knot-of-three-replicas",
        doing: Doing::Run(Running {
            format: 2,
            turns: &[CHECK, ORDER, ORDER],
            has_sections: true,
        }),
    },
    Case {
        name: "takes-three-over",
        file: "knots-in-one-window",
        doing: Doing::Run(Running {
            format: 2,
            turns: &[
                CHECK, ORDER, ORDER, ORDER, ORDER, ORDER, ORDER, ORDER, ORDER,
            ],
            has_sections: true,
        }),
    },
    Case {
        name: "takes-over-and-goes-back",
        file: "knots-in-one-window",
        doing: Doing::Run(Running {
            format: 2,
            turns: &[
                CHECK, ORDER, ORDER, ORDER, CHECK, ORDER, ORDER, ORDER, ORDER, FREE, ORDER, FREE,
                ORDER, FREE, ORDER,
            ],
            has_sections: true,
        }),
    },
    Case {
        name: "majorities-change",
        file: "knots-in-three-windows",
        doing: Doing::Run(Running {
            format: 2,
            turns: &[
                CHECK, ORDER, ORDER, ORDER, CHECK, ORDER, ORDER, ORDER, CHECK,
            ],
            has_sections: true,
        }),
    },
    Case {
        name: "deposit-in-format-2",
        file: "deposit",
        doing: Doing::Run(Running {
            format: 2,
            turns: &[],
            has_sections: true,
        }),
    },
    Case {
        name: "state-transfer",
        file: "deposits-and-a-check",
        doing: Doing::Run(FREE_RUN_OF_FORMAT_2),
    },
    Case {
        name: "five-replicas-in-format-2",
        file: "five-replicas-four-workers",
        doing: Doing::Run(FREE_RUN_OF_FORMAT_2),
    },
];

/// The format of the workload of a case: that of its run, and 1 where only replicas are called.
pub fn format_of(case: Option<&'static Case>) -> u16 {
    match case {
        Some(case) => match case.doing {
            Doing::Run(running) => running.format,
            Doing::Calls(_, _) => 1,
        },
        None => FREE_RUN.format,
    }
}

/// The case with this name, if it isn't a run in format 1 of the workload with its name alone.
pub fn case_of(name: &str) -> Option<&'static Case> {
    for case in &CASES {
        if case.name == name {
            return Some(case);
        }
    }
    None
}
