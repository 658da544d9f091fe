//! What is done in the cases that are told act by act.

use crate::floor::cases::{Act, Plan};
use crate::floor::gates::Held;
use crate::floor::opening::Ask;

/// The name of a case, the words with which its line begins, its plan, what is done in it, one thing after another, and
/// whether the worker at hand is taken apart then.
#[derive(Clone, Copy)]
pub struct Script {
    pub name: &'static str,
    pub begin: &'static str,
    pub plan: Plan,
    pub acts: &'static [Act],
    pub is_taken_apart: bool,
}

/// The cases, in the order in which they are told.
pub static SCRIPTS: [Script; 10] = [
    // Two deposits to one customer, the second by another worker.
    Script {
        name: "replica-attempt-and-close",
        begin: "",
        plan: Plan {
            asks: &[Ask::Deposit(b"a"), Ask::Deposit(b"a")],
            room: 2,
            limit: 8,
            held: Held::Nothing,
        },
        acts: &[
            Act::Run(0),
            Act::Turn,
            Act::Run(1),
            Act::Take,
            Act::Take,
            Act::Take,
        ],
        is_taken_apart: false,
    },
    // A queue with room for one record: the second waits, and its worker does nothing until it is noted.
    Script {
        name: "queue-full-and-drained",
        begin: "",
        plan: Plan {
            asks: &[Ask::Deposit(b"a"), Ask::Deposit(b"a")],
            room: 1,
            limit: 8,
            held: Held::Nothing,
        },
        acts: &[
            Act::Run(0),
            Act::Run(1),
            Act::Run(0),
            Act::Flush,
            Act::Take,
            Act::Flush,
            Act::Flush,
            Act::Take,
        ],
        is_taken_apart: false,
    },
    // No number may be drawn.
    Script {
        name: "tickets-two-seats",
        begin: "",
        plan: Plan {
            asks: &[Ask::Deposit(b"a")],
            room: 2,
            limit: 0,
            held: Held::Nothing,
        },
        acts: &[Act::Run(0), Act::Run(0), Act::Take],
        is_taken_apart: false,
    },
    // One number may be drawn.
    Script {
        name: "tickets-two-seats",
        begin: "",
        plan: Plan {
            asks: &[Ask::Deposit(b"a")],
            room: 2,
            limit: 1,
            held: Held::Nothing,
        },
        acts: &[Act::Run(0), Act::Run(0), Act::Take],
        is_taken_apart: false,
    },
    // Customers 0 and 16 share a stripe, 0 and 1 don't, and `z` is none.
    Script {
        name: "one-lock-or-two",
        begin: "",
        plan: Plan {
            asks: &[
                Ask::Deposit(b"a"),
                Ask::Move(b"a", b"q"),
                Ask::Move(b"q", b"b"),
                Ask::Move(b"b", b"a"),
                Ask::Move(b"a", b"a"),
                Ask::Move(b"a", b"z"),
            ],
            room: 8,
            limit: 8,
            held: Held::Nothing,
        },
        acts: &[
            Act::Run(0),
            Act::Take,
            Act::Run(1),
            Act::Take,
            Act::Run(2),
            Act::Take,
            Act::Run(3),
            Act::Take,
            Act::Run(4),
            Act::Take,
            Act::Run(5),
            Act::Take,
        ],
        is_taken_apart: false,
    },
    // Two deposits for each of two customers, of which the first two are settled and the others undone: what comes
    // next sees the settled ones. Their rows lie in the first stripe and in the last.
    Script {
        name: "settled-and-went-back",
        begin: "",
        plan: Plan {
            asks: &[Ask::Deposit(b"a"), Ask::Deposit(b"p")],
            room: 8,
            limit: 8,
            held: Held::Nothing,
        },
        acts: &[
            Act::Run(0),
            Act::Run(1),
            Act::Settle(1),
            Act::Turn,
            Act::Run(0),
            Act::Run(1),
            Act::GoBack,
            Act::Run(0),
            Act::Run(1),
            Act::Take,
            Act::Take,
            Act::Take,
            Act::Take,
            Act::Take,
            Act::Take,
        ],
        is_taken_apart: false,
    },
    // A state is transferred after a deposit for each of two customers, whose rows lie in the first stripe and in the
    // last: what comes next sees the state, and neither a settled tick nor going back brings a deposit in.
    Script {
        name: "installed",
        begin: "",
        plan: Plan {
            asks: &[Ask::Deposit(b"a"), Ask::Deposit(b"p")],
            room: 8,
            limit: 8,
            held: Held::Nothing,
        },
        acts: &[
            Act::Run(0),
            Act::Run(1),
            Act::Install,
            Act::Settle(1),
            Act::GoBack,
            Act::Run(0),
            Act::Run(1),
            Act::Take,
            Act::Take,
            Act::Take,
            Act::Take,
        ],
        is_taken_apart: false,
    },
    // A record waits in a worker: it keeps its seats, until the record is taken out.
    Script {
        name: "waiting-worker",
        begin: "",
        plan: Plan {
            asks: &[Ask::Deposit(b"a"), Ask::Deposit(b"a")],
            room: 1,
            limit: 8,
            held: Held::Nothing,
        },
        acts: &[Act::Run(0), Act::Run(1)],
        is_taken_apart: true,
    },
    // Two deposits to one customer in two threads, with room for one record: one of the two waits, and its worker does
    // nothing more until it is noted. A third deposit sees both.
    Script {
        name: "waiting-record",
        begin: " one waits",
        plan: Plan {
            asks: &[Ask::Deposit(b"a"), Ask::Deposit(b"a"), Ask::Deposit(b"a")],
            room: 1,
            limit: 8,
            held: Held::Nothing,
        },
        acts: &[
            Act::RunBoth,
            Act::Run(2),
            Act::TakeBoth,
            Act::Run(2),
            Act::TakeEntries,
        ],
        is_taken_apart: false,
    },
    // The same with deposits to two customers, whose stripes differ: each is held in the gate until both are executing.
    Script {
        name: "waiting-record-apart",
        begin: " one waits",
        plan: Plan {
            asks: &[Ask::Deposit(b"a"), Ask::Deposit(b"b"), Ask::Deposit(b"a")],
            room: 1,
            limit: 8,
            held: Held::Each,
        },
        acts: &[
            Act::RunBoth,
            Act::Run(2),
            Act::TakeBoth,
            Act::Run(2),
            Act::TakeEntries,
        ],
        is_taken_apart: false,
    },
];
