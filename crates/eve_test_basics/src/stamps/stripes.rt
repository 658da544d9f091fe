//! Stripes: what is noted, settled, undone and gone back from, and what is refused. Where memory is refused, each call
//! is made once more.

ghost use Rattle.std.specs.Prelude.{◌≤◌, IfOk};
ghost use Rattle.eve_stamps.specs.Stripes.{HaveRightVersions};

use crate::stamps::parts::{cents, name_of, names, row_of};
use eve_accounts::{Amount, Names};
use eve_grammar::{MOST_VERSIONS, TransferData};
use eve_smallbank::{Abort, Entry, Kind, Reply, Request, UpToThree, Versioned, touched};
use eve_stamps::{AccessRecord, HeldRow, Stamp, StampFault, Stripe, apply, apply_two, untouched};
use eve_testing::Seen;
use std::alloc::{AllocError, Global};
use std::hash::RandomState;

/// A row, its version, and the cents in it.
struct Held(u16, u64, i64);

/// A row that is written, the version and the cents that it had, and the cents that it has afterwards.
struct Written(u16, u64, i64, i64);

/// Both rows of a customer.
struct Opening {
    saving: Held,
    checking: Held,
}

/// Which of the two stripes are lent to a request.
enum Lent {
    First,
    Second,
    Both,
}

/// What is done, or looked at.
enum Step {
    /// Deposits 500 cents in the first customer's checking row, at this tick.
    Deposit(Lent, u64),
    /// Moves all that the first customer has to the second's checking row, at this tick.
    Amalgamate(Lent, u64),
    /// Notes a deposit below 0, which touches no row, at this tick.
    BadDeposit(u64),
    /// Settles the first stripe up to this tick.
    Settle(u64),
    /// The first stripe goes back.
    GoBack,
    /// The first stripe has a state transferred in which the first customer's rows are so.
    Install(Opening),
    /// Undoes the first stripe; whether there is room for what is told.
    Undo(bool, &'static str),
    /// Looks whether that is so.
    Want(Due, &'static str),
}

/// What has to be so.
enum Due {
    /// The last request was done at this tick, by worker 1, at place 2, with index 3, and wrote these rows.
    Made(u64, &'static [Written]),
    /// The last request was refused by the stripes for that reason.
    Refused(StampFault),
    /// The last request was replied to so.
    Replied(Reply),
    /// The last request wrote these rows.
    Wrote(&'static [Written]),
    /// That row was told by the undo, and no other.
    Told(Held),
    /// No row was told by it.
    NoneTold,
    /// The row of the first stripe is so.
    First(Held),
    /// The row of the second stripe is so.
    Second(Held),
    /// The row isn't in the first stripe.
    Lacks(u16),
}

/// What is done with two stripes, step by step, and how much room there is for what an undo tells.
pub struct Case {
    first: Opening,
    second: Opening,
    room: usize,
    steps: &'static [Step],
}

/// The first customer's rows.
const SAVING: u16 = 0;

const CHECKING: u16 = 1;

/// The second customer's checking row.
const OTHERS: u16 = 3;

/// The first customer without cents.
const EMPTY: Opening = Opening {
    saving: Held(SAVING, 0, 0),
    checking: Held(CHECKING, 0, 0),
};

/// The second customer without cents.
const OTHER: Opening = Opening {
    saving: Held(2, 0, 0),
    checking: Held(OTHERS, 0, 0),
};

/// The first customer with seven cents in the checking row.
const SEVEN: Opening = Opening {
    saving: Held(SAVING, 0, 0),
    checking: Held(CHECKING, 0, 7),
};

const NINE: Opening = Opening {
    saving: Held(SAVING, 0, 0),
    checking: Held(CHECKING, 0, 9),
};

/// The first customer with cents in both rows.
const FIVE_AND_SEVEN: Opening = Opening {
    saving: Held(SAVING, 0, 5),
    checking: Held(CHECKING, 0, 7),
};

/// The first customer, whose checking row is at the greatest version, or one before it.
const WORN: Opening = Opening {
    saving: Held(SAVING, 0, 0),
    checking: Held(CHECKING, MOST_VERSIONS, 0),
};

const NEARLY_WORN: Opening = Opening {
    saving: Held(SAVING, 0, 0),
    checking: Held(CHECKING, MOST_VERSIONS - 1, 0),
};

/// A deposit is noted once at its tick; undone, the row is told as it was.
pub const DEPOSIT_AND_UNDO: Case = Case {
    first: EMPTY,
    second: OTHER,
    room: 1,
    steps: &[
        Step::Deposit(Lent::First, 5),
        Step::Want(
            Due::Made(5, &[Written(CHECKING, 0, 0, 500)]),
            "the deposit is noted",
        ),
        Step::Deposit(Lent::First, 5),
        Step::Want(Due::Refused(StampFault::TickOrder), "the tick was had"),
        Step::Undo(true, "there is room"),
        Step::Want(Due::Told(Held(CHECKING, 0, 0)), "the row is told"),
        Step::Want(Due::First(Held(CHECKING, 0, 0)), "the row is as it was"),
        Step::Deposit(Lent::First, 5),
        Step::Want(Due::Refused(StampFault::TickOrder), "the tick stays"),
        Step::Deposit(Lent::First, 6),
        Step::Want(
            Due::Made(6, &[Written(CHECKING, 0, 0, 500)]),
            "the deposit is noted anew",
        ),
    ],
};

/// Nothing is undone where the rows can't be told.
pub const TOO_LITTLE_ROOM: Case = Case {
    first: EMPTY,
    second: OTHER,
    room: 0,
    steps: &[
        Step::Deposit(Lent::First, 5),
        Step::Want(
            Due::Made(5, &[Written(CHECKING, 0, 0, 500)]),
            "the deposit is noted",
        ),
        Step::Undo(false, "there is no room"),
        Step::Want(Due::NoneTold, "no row is told"),
        Step::Want(
            Due::First(Held(CHECKING, 1, 500)),
            "the row is as it is now",
        ),
    ],
};

/// To go back needs no room, and reaches what isn't settled alone.
pub const SETTLED_AND_WENT_BACK: Case = Case {
    first: EMPTY,
    second: OTHER,
    room: 0,
    steps: &[
        Step::Deposit(Lent::First, 5),
        Step::Want(
            Due::Made(5, &[Written(CHECKING, 0, 0, 500)]),
            "the first is noted",
        ),
        Step::Settle(5),
        Step::GoBack,
        Step::Want(Due::First(Held(CHECKING, 1, 500)), "what is settled stays"),
        Step::Deposit(Lent::First, 6),
        Step::Want(
            Due::Made(6, &[Written(CHECKING, 1, 500, 1000)]),
            "the second is noted",
        ),
        Step::Settle(5),
        Step::Want(
            Due::First(Held(CHECKING, 2, 1000)),
            "settled rows stay as they are",
        ),
        Step::GoBack,
        Step::Want(Due::First(Held(CHECKING, 1, 500)), "the second is gone"),
        Step::Deposit(Lent::First, 6),
        Step::Want(Due::Refused(StampFault::TickOrder), "the tick stays"),
        Step::Want(Due::Lacks(OTHERS), "another's row isn't there"),
    ],
};

/// A state that is transferred stands as committed, with its versions, and what was noted before is gone.
pub const INSTALLED: Case = Case {
    first: SEVEN,
    second: OTHER,
    room: 0,
    steps: &[
        Step::Deposit(Lent::First, 5),
        Step::Want(
            Due::Made(5, &[Written(CHECKING, 0, 7, 507)]),
            "the first is noted",
        ),
        Step::Install(Opening {
            saving: Held(SAVING, 4, 2),
            checking: Held(CHECKING, 3, 30),
        }),
        Step::Want(Due::First(Held(CHECKING, 3, 30)), "the row is the state's"),
        Step::Settle(5),
        Step::Want(
            Due::First(Held(CHECKING, 3, 30)),
            "the first was noted in vain",
        ),
        Step::Deposit(Lent::First, 5),
        Step::Want(Due::Refused(StampFault::TickOrder), "the tick stays"),
        Step::Deposit(Lent::First, 6),
        Step::Want(
            Due::Made(6, &[Written(CHECKING, 3, 30, 530)]),
            "the second sees the state",
        ),
        Step::GoBack,
        Step::Want(Due::First(Held(CHECKING, 3, 30)), "the state is committed"),
        Step::Want(Due::First(Held(SAVING, 4, 2)), "in both rows"),
    ],
};

/// A row at the greatest version isn't written, and a request that touches no row is noted as it is told.
pub const WORN_AND_UNTOUCHED: Case = Case {
    first: WORN,
    second: NEARLY_WORN,
    room: 0,
    steps: &[
        Step::Deposit(Lent::First, 5),
        Step::Want(Due::Refused(StampFault::Worn), "the row is worn"),
        Step::Deposit(Lent::Second, 5),
        Step::Want(
            Due::Made(5, &[Written(CHECKING, MOST_VERSIONS - 1, 0, 500)]),
            "a version before, it isn't",
        ),
        Step::BadDeposit(6),
        Step::Want(
            Due::Replied(Reply::Aborted(Abort::BadAmount)),
            "the reason is told",
        ),
        Step::Want(Due::Wrote(&[]), "no row is touched"),
    ],
};

/// All that one customer has is moved over two stripes; one alone has too few rows.
pub const TWO_STRIPES: Case = Case {
    first: FIVE_AND_SEVEN,
    second: OTHER,
    room: 0,
    steps: &[
        Step::Amalgamate(Lent::First, 5),
        Step::Want(Due::Refused(StampFault::NoRow), "a row isn't there"),
        Step::Amalgamate(Lent::Both, 5),
        Step::Want(
            Due::Made(
                5,
                &[
                    Written(SAVING, 0, 5, 0),
                    Written(CHECKING, 0, 7, 0),
                    Written(OTHERS, 0, 0, 12),
                ],
            ),
            "it is noted",
        ),
        Step::Want(Due::First(Held(CHECKING, 1, 0)), "the first gave"),
        Step::Want(Due::Second(Held(OTHERS, 1, 12)), "the second got"),
    ],
};

/// A row that lies in both stripes is seen and written in the first; the second has had the tick too.
pub const SHARED_ROW: Case = Case {
    first: SEVEN,
    second: NINE,
    room: 0,
    steps: &[
        Step::Deposit(Lent::Both, 5),
        Step::Want(Due::Made(5, &[Written(CHECKING, 0, 7, 507)]), "it is noted"),
        Step::Want(
            Due::First(Held(CHECKING, 1, 507)),
            "the first's row is written",
        ),
        Step::Want(Due::Second(Held(CHECKING, 0, 9)), "the second's isn't"),
        Step::Deposit(Lent::Second, 5),
        Step::Want(
            Due::Refused(StampFault::TickOrder),
            "the second had the tick",
        ),
    ],
};

/// Two stripes that share a row, of which the second alone is past the tick: nothing is done in either.
pub const SECOND_PAST: Case = Case {
    first: FIVE_AND_SEVEN,
    second: NINE,
    room: 0,
    steps: &[
        Step::Deposit(Lent::Second, 7),
        Step::Want(
            Due::Made(7, &[Written(CHECKING, 0, 9, 509)]),
            "the second is at 7",
        ),
        Step::Deposit(Lent::Both, 6),
        Step::Want(Due::Refused(StampFault::TickOrder), "6 is past"),
        Step::Want(Due::First(Held(CHECKING, 0, 7)), "the first is as it was"),
        Step::Want(Due::Second(Held(CHECKING, 1, 509)), "the second too"),
        Step::Deposit(Lent::First, 1),
        Step::Want(
            Due::Made(1, &[Written(CHECKING, 0, 7, 507)]),
            "the first had no tick",
        ),
    ],
};

fn held_row(held: &Held) -> HeldRow {
    HeldRow {
        row: row_of(held.0),
        version: held.1,
        value: cents(held.2),
    }
}

fn versioned(held: &Held) -> Versioned
    ensures { result.version ≤ MOST_VERSIONS }
{
    Versioned {
        version: held.1.min(MOST_VERSIONS),
        value: cents(held.2),
    }
}

/// A state with both rows of the first customer.
fn state_of(alloc: Global, opening: &Opening) -> Result<TransferData, AllocError>
    ensures { IfOk result (λ state. HaveRightVersions state.rows.items) }
{
    let rows = [versioned(&opening.saving), versioned(&opening.checking)];
    Ok(TransferData {
        seq: 2,
        view: 0,
        rows: Vec::from_slice(alloc, &rows)?,
    })
}

/// A stripe with both rows of a customer; none where memory is refused twice.
fn stripe_of(alloc: Global, opening: &Opening, seen: &mut Seen) -> Option<Stripe> {
    let rows = [held_row(&opening.saving), held_row(&opening.checking)];
    if rows[1].row.number() <= rows[0].row.number()
        || MOST_VERSIONS < rows[0].version
        || MOST_VERSIONS < rows[1].version
    {
        seen.want(false, "the rows are a stripe's");
        return None;
    }
    let stripe = match Stripe::new(alloc, &rows) {
        Err(AllocError) => Stripe::new(alloc, &rows),
        stripe => stripe,
    };
    seen.needs(stripe.is_ok());
    stripe.ok()
}

/// Worker 1 runs the request with index 3 at this tick, and notes it at place 2.
fn stamp_at(tick: u64) -> Stamp {
    Stamp {
        worker: 1,
        place: 2,
        index: 3,
        tick,
    }
}

/// Whether the record has these rows.
fn has_written(made: &AccessRecord, written: &[Written]) -> bool {
    let mut entries = UpToThree::new();
    for row in written {
        if entries.len() < 3 {
            entries.push(Entry {
                row: row_of(row.0),
                kind: Kind::Write,
                version: row.1,
                seen: cents(row.2),
                after: cents(row.3),
            });
        }
    }
    *made.entries() == entries
}

/// Whether that is the record of worker 1, at place 2, with index 3, which did these things at this tick.
fn is_made(made: &AccessRecord, tick: u64, written: &[Written]) -> bool {
    let is_its = made.worker() == 1 && made.place() == 2 && made.index() == 3;
    is_its && made.tick() == tick && made.reply() == Reply::Done && has_written(made, written)
}

/// Whether the row is so.
fn has_now(stripe: &Stripe, held: &Held) -> bool {
    let row = row_of(held.0);
    stripe.has(row) && stripe.get(row) == held_row(held)
}

/// Two stripes, what came of the last request, and what is told by an undo.
#[derive(Drop)]
struct Stripes {
    first: Stripe,
    second: Stripe,
    restores: Vec<HeldRow>,
    answer: Result<AccessRecord, StampFault>,
}

impl Stripes {
    /// Runs the request at this tick.
    fn apply(
        &mut self,
        names: &Names,
        request: &Request,
        lent: &Lent,
        tick: u64,
    ) -> Result<AccessRecord, StampFault> {
        let touched = touched(request, names);
        let stamp = stamp_at(tick);
        match lent {
            Lent::First => apply(&mut self.first, request, &touched, stamp),
            Lent::Second => apply(&mut self.second, request, &touched, stamp),
            Lent::Both => apply_two(&mut self.first, &mut self.second, request, &touched, stamp),
        }
    }

    /// The same; where no memory was left, once more.
    fn run(&mut self, names: &Names, request: &Request, lent: &Lent, tick: u64) {
        self.answer = match self.apply(names, request, lent, tick) {
            Err(StampFault::Memory) => self.apply(names, request, lent, tick),
            answer => answer,
        };
    }

    /// The first stripe has a state transferred; where no memory was left for it, it is made once more.
    fn install(&mut self, alloc: Global, opening: &Opening, seen: &mut Seen) {
        let state = match state_of(alloc, opening) {
            Err(AllocError) => state_of(alloc, opening),
            state => state,
        };
        seen.needs(state.is_ok());
        if let Ok(state) = state {
            self.first.install(&state);
        }
    }

    /// Does what the step says, or looks.
    fn take(&mut self, alloc: Global, names: &Names, step: &Step, seen: &mut Seen) {
        match step {
            Step::Deposit(lent, tick) => {
                let deposit = Request::DepositChecking(name_of(0), Amount::of(500));
                self.run(names, &deposit, lent, *tick);
            }
            Step::Amalgamate(lent, tick) => {
                let amalgamate = Request::Amalgamate(name_of(0), name_of(1));
                self.run(names, &amalgamate, lent, *tick);
            }
            Step::BadDeposit(tick) => {
                self.answer = Ok(untouched(Abort::BadAmount, stamp_at(*tick)));
            }
            Step::Settle(tick) => self.first.settle(*tick),
            Step::GoBack => self.first.go_back(),
            Step::Install(opening) => self.install(alloc, opening, seen),
            Step::Undo(has_room, what) => {
                let is_undone = self.first.undo(&mut self.restores).is_ok();
                seen.want(is_undone == *has_room, what);
            }
            Step::Want(due, what) => seen.want(self.is_so(due), what),
        }
    }

    /// Whether it is as it is due.
    fn is_so(&self, due: &Due) -> bool {
        match due {
            Due::Told(held) => self.restores.as_slice() == [held_row(held)].as_slice(),
            Due::NoneTold => self.restores.is_empty(),
            Due::First(held) => has_now(&self.first, held),
            Due::Second(held) => has_now(&self.second, held),
            Due::Lacks(row) => !self.first.has(row_of(*row)),
            of_answer => is_answer(&self.answer, of_answer),
        }
    }
}

/// Whether the last request was answered so.
fn is_answer(answer: &Result<AccessRecord, StampFault>, due: &Due) -> bool {
    match (answer, due) {
        (Ok(made), Due::Made(tick, written)) => is_made(made, *tick, written),
        (Ok(made), Due::Replied(reply)) => made.reply() == *reply,
        (Ok(made), Due::Wrote(written)) => has_written(made, written),
        (Err(told), Due::Refused(why)) => told == why,
        _ => false,
    }
}

/// Plays the case, which both customers' names are lent to.
fn play_with(alloc: Global, names: &Names, case: &Case, seen: &mut Seen) {
    let Some(first) = stripe_of(alloc, &case.first, seen) else {
        return;
    };
    let Some(second) = stripe_of(alloc, &case.second, seen) else {
        return;
    };
    let mut stripes = Stripes {
        first,
        second,
        restores: Vec::new(alloc),
        answer: Err(StampFault::Memory),
    };
    seen.needs(stripes.restores.reserve_exact(case.room).is_ok());
    for step in case.steps {
        stripes.take(alloc, names, step, seen);
    }
}

/// Plays the case.
pub fn play(alloc: Global, random: RandomState, case: &Case, seen: &mut Seen) {
    let names = names(alloc, random, 2);
    seen.needs(names.len() == 2);
    play_with(alloc, &names, case, seen);
}
