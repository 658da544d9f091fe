//! Cases in which a replica has a state transferred, or may not.

use crate::replica::cases::FIRST;
use crate::replica::replicas::{Attempted, Closed, Deed, Due, OPENING, Seen, Want};
use eve_replica::{AttemptFault, CommitFault, TransferFault};

/// As one of 100 does.
const HUNDRED: Seen = Seen(1, 100);

/// As it is in a state that is transferred.
const TRANSFERRED: Seen = Seen(3, 30);

/// A deposit of 100 is committed, one of 5 is open, and a state is transferred in its place: a deposit of 5 sees that
/// state then, and no earlier one is transferred.
pub const TRANSFERS: &[Want] = &[
    FIRST,
    Want {
        deed: Deed::Commit(1, None),
        what: "the first is committed",
    },
    Want {
        deed: Deed::Attempt(
            2,
            Attempted::Met(Due {
                seq: 2,
                view: 0,
                serial: false,
                seen: HUNDRED,
            }),
        ),
        what: "the second sees the hundred",
    },
    Want {
        deed: Deed::HaveState(HUNDRED),
        what: "the state is without what is open",
    },
    Want {
        deed: Deed::HaveCents(105),
        what: "the balances are with it",
    },
    Want {
        deed: Deed::ApplyTransfer(1, 0, TRANSFERRED, Some(TransferFault::NotDue)),
        what: "its number is committed",
    },
    Want {
        deed: Deed::HaveState(HUNDRED),
        what: "nothing is taken over",
    },
    Want {
        deed: Deed::HaveCents(105),
        what: "nothing is discarded",
    },
    Want {
        deed: Deed::ApplyTransfer(2, 0, TRANSFERRED, None),
        what: "the state is taken over",
    },
    Want {
        deed: Deed::HaveState(TRANSFERRED),
        what: "the state is that one",
    },
    Want {
        deed: Deed::HaveCents(30),
        what: "nothing is open on it",
    },
    Want {
        deed: Deed::ApplyTransfer(2, 0, HUNDRED, Some(TransferFault::NotDue)),
        what: "it isn't taken over again",
    },
    Want {
        deed: Deed::Commit(2, Some(CommitFault::NotOpen)),
        what: "what was open is discarded",
    },
    Want {
        deed: Deed::Attempt(
            2,
            Attempted::Met(Due {
                seq: 3,
                view: 0,
                serial: false,
                seen: TRANSFERRED,
            }),
        ),
        what: "the next deposit sees the state",
    },
    Want {
        deed: Deed::HaveCents(35),
        what: "the deposit leaves 35",
    },
    Want {
        deed: Deed::Commit(3, None),
        what: "the deposit is committed",
    },
    Want {
        deed: Deed::HaveState(Seen(4, 35)),
        what: "the state has the deposit",
    },
    Want {
        deed: Deed::GoBack(3, None),
        what: "nothing to restore",
    },
    Want {
        deed: Deed::ApplyTransfer(4, 0, TRANSFERRED, Some(TransferFault::NotDue)),
        what: "its view is an earlier one",
    },
    Want {
        deed: Deed::HaveState(Seen(4, 35)),
        what: "nothing is taken over in an earlier view",
    },
    Want {
        deed: Deed::ApplyTransfer(9, 4, TRANSFERRED, None),
        what: "numbers and views are skipped",
    },
    Want {
        deed: Deed::Attempt(
            2,
            Attempted::Met(Due {
                seq: 10,
                view: 4,
                serial: false,
                seen: TRANSFERRED,
            }),
        ),
        what: "the next attempt is parallel, in that view",
    },
    Want {
        deed: Deed::ApplyTransfer(u32::MAX, 4, TRANSFERRED, None),
        what: "no number is too great",
    },
    Want {
        deed: Deed::ApplyTransfer(u32::MAX, 5, HUNDRED, Some(TransferFault::NotDue)),
        what: "none comes after it",
    },
    Want {
        deed: Deed::GoBack(u32::MAX, None),
        what: "what was open is discarded, and the number stays",
    },
];

/// Ann's deposit is closed of a record that was taken by hand, so that another attempt fails. The broken replica has
/// its state and its balances, and has no other transferred, be it due or not.
pub const TRANSFERS_NOTHING: &[Want] = &[
    Want {
        deed: Deed::Close(0, Closed::Made),
        what: "her deposit is closed",
    },
    Want {
        deed: Deed::Attempt(1, Attempted::Failed(AttemptFault::Mismatch)),
        what: "an attempt over her row fails",
    },
    Want {
        deed: Deed::HaveState(OPENING),
        what: "the state of a broken replica",
    },
    Want {
        deed: Deed::HaveCents(500),
        what: "the balances of a broken replica",
    },
    Want {
        deed: Deed::ApplyTransfer(1, 0, TRANSFERRED, Some(TransferFault::Broken)),
        what: "it is due to no broken replica",
    },
    Want {
        deed: Deed::ApplyTransfer(0, 0, TRANSFERRED, Some(TransferFault::Broken)),
        what: "broken comes before what isn't due",
    },
    Want {
        deed: Deed::HaveState(OPENING),
        what: "nothing is taken over",
    },
    Want {
        deed: Deed::GoBackAtLast(OPENING),
        what: "her row is restored",
    },
    Want {
        deed: Deed::ApplyTransfer(1, 0, TRANSFERRED, Some(TransferFault::NotDue)),
        what: "its view is an earlier one",
    },
    Want {
        deed: Deed::ApplyTransfer(1, 1, TRANSFERRED, None),
        what: "the state is taken over",
    },
    Want {
        deed: Deed::HaveState(TRANSFERRED),
        what: "the state is that one",
    },
    Want {
        deed: Deed::Attempt(
            1,
            Attempted::Met(Due {
                seq: 2,
                view: 1,
                serial: false,
                seen: TRANSFERRED,
            }),
        ),
        what: "the next attempt sees the state",
    },
];

/// What happens to a replica happens to its tree.
pub const KEEPS_ITS_TREE: &[Want] = &[
    Want {
        deed: Deed::HaveRoot,
        what: "the root is that of a new tree, at first",
    },
    FIRST,
    Want {
        deed: Deed::HaveRoot,
        what: "the root is that of a new tree, after an attempt",
    },
    Want {
        deed: Deed::GoBack(0, Some(OPENING)),
        what: "her row is restored",
    },
    Want {
        deed: Deed::HaveRoot,
        what: "the root is that of a new tree, after a rollback",
    },
    Want {
        deed: Deed::Attempt(
            1,
            Attempted::Met(Due {
                seq: 1,
                view: 1,
                serial: true,
                seen: OPENING,
            }),
        ),
        what: "a serial attempt in view 1 that sees version 0",
    },
    Want {
        deed: Deed::HaveRoot,
        what: "the root is that of a new tree, after a serial attempt",
    },
    Want {
        deed: Deed::Commit(1, None),
        what: "the first is committed",
    },
    Want {
        deed: Deed::HaveRoot,
        what: "the root is that of a new tree, after a commit",
    },
    Want {
        deed: Deed::ApplyTransfer(2, 1, TRANSFERRED, None),
        what: "the state is taken over",
    },
    Want {
        deed: Deed::HaveRoot,
        what: "the root is that of a new tree, after a state is taken over",
    },
    Want {
        deed: Deed::Attempt(
            2,
            Attempted::Met(Due {
                seq: 3,
                view: 1,
                serial: false,
                seen: TRANSFERRED,
            }),
        ),
        what: "a deposit sees the state",
    },
    Want {
        deed: Deed::HaveRoot,
        what: "the root is that of a new tree, after one more attempt",
    },
];
