//! What a frame's fields hold, and why a text of it can't be written.

use eve_accounts::{Amount, Cents, Row};
use eve_smallbank::{Abort, Kind, Reply, Request};
use eve_testing::Text;
use std::io::Error;

/// Why a piece of a text can't be written, where it isn't for lack of memory.
#[derive(Clone, Copy)]
pub enum Missing {
    /// No random words were given for the keys of a table.
    Keys,
    /// The trace can't be read.
    Trace,
    /// The changes aren't in their order, or not within the trace, or memory was refused for them.
    Changes,
    /// No such call.
    Call,
    /// No such byte, or no such frame, in the trace.
    Place,
    /// The verdict is no, at a place beyond the bytes.
    Verdict,
}

impl Missing {
    /// The error that says so.
    pub fn error(self) -> Error {
        Error::other(match self {
            Missing::Keys => "no random words",
            Missing::Trace => "the trace can't be read",
            Missing::Changes => "changes in their order, within the trace, and memory for them",
            Missing::Call => "no such call",
            Missing::Place => "no such place in the trace",
            Missing::Verdict => "no verdict within the bytes",
        })
    }
}

/// A request, as a workload has it.
pub fn push_request(text: &mut Text, request: &Request) {
    match request {
        Request::Balance(name) => text.bytes("balance ", name),
        Request::DepositChecking(name, amount) => push_paid(text, "deposit ", name, *amount),
        Request::TransactSaving(name, amount) => push_paid(text, "transact ", name, *amount),
        Request::Amalgamate(name, to) => {
            text.bytes("amalgamate ", name);
            text.bytes(" ", to);
        }
        Request::WriteCheck(name, amount) => push_paid(text, "check ", name, *amount),
    }
}

/// A call with an amount of cents.
fn push_paid(text: &mut Text, call: &str, name: &[u8], amount: Amount) {
    text.bytes(call, name);
    text.value(" ", amount.get());
}

/// What a client is answered.
pub fn push_reply(text: &mut Text, reply: Reply) {
    match reply {
        Reply::Done => text.words("Done"),
        Reply::Total(cents) => text.value("Total ", cents),
        Reply::Aborted(Abort::NoSuchName) => text.words("NoSuchName"),
        Reply::Aborted(Abort::BadAmount) => text.words("BadAmount"),
        Reply::Aborted(Abort::Insufficient) => text.words("Insufficient"),
        Reply::Aborted(Abort::OutOfRange) => text.words("OutOfRange"),
    }
}

/// What is done to a row.
pub fn push_done(text: &mut Text, kind: Kind, row: Row) {
    let words = if kind.is_write() {
        ", writes row "
    } else {
        ", reads row "
    };
    text.value(words, u64::from(row.number()));
}

/// The value seen, and the value after it.
pub fn push_change(text: &mut Text, seen: Cents, after: Cents) {
    text.value(" from ", seen.get());
    text.value(" to ", after.get());
}
