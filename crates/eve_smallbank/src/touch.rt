//! Which rows a request touches, or why it is refused before it reads any.

ghost use Rattle.std.specs.Prelude.{◌≡◌, ◌<◌};
ghost use Rattle.eve_smallbank.specs.SmallBank.{plain};
ghost use Rattle.eve_smallbank.specs.Access.{amalgamated_rows};
ghost use Rattle.eve_smallbank.specs.Touch.{touched_of};

use crate::{Abort, Kind, Request, Touched, UpToThree};
use eve_accounts::{MOST_NAMES, Names, Row};

/// The rows that the request touches, or why it is refused whatever the balances are.
///
/// docs/MODEL.md, "Transactions". An unknown name is found before an amount below 0.
pub fn touched(request: &Request, names: &Names) -> Touched
    ensures { result ≡ touched_of names.now.items (plain request.now) }
{
    match request {
        Request::Balance(name) => match names.number(name) {
            Some(customer) => Touched::Rows(UpToThree::two(
                (Row::saving(customer), Kind::Read),
                (Row::checking(customer), Kind::Read),
            )),
            None => Touched::Refused(Abort::NoSuchName),
        },
        Request::DepositChecking(name, amount) => match names.number(name) {
            Some(_) if amount.get() < 0 => Touched::Refused(Abort::BadAmount),
            Some(customer) => Touched::Rows(UpToThree::one((Row::checking(customer), Kind::Write))),
            None => Touched::Refused(Abort::NoSuchName),
        },
        Request::TransactSaving(name, _) => match names.number(name) {
            Some(customer) => Touched::Rows(UpToThree::one((Row::saving(customer), Kind::Write))),
            None => Touched::Refused(Abort::NoSuchName),
        },
        Request::Amalgamate(from, to) => match (names.number(from), names.number(to)) {
            (Some(from), Some(to)) => Touched::Rows(amalgamated(from, to)),
            _ => Touched::Refused(Abort::NoSuchName),
        },
        Request::WriteCheck(name, amount) => match names.number(name) {
            Some(_) if amount.get() < 0 => Touched::Refused(Abort::BadAmount),
            Some(customer) => Touched::Rows(UpToThree::two(
                (Row::saving(customer), Kind::Read),
                (Row::checking(customer), Kind::Write),
            )),
            None => Touched::Refused(Abort::NoSuchName),
        },
    }
}

fn amalgamated(from: u32, to: u32) -> UpToThree<(Row, Kind)>
    requires from_small { from < MOST_NAMES }
    requires to_small { to < MOST_NAMES }
    ensures { result ≡ amalgamated_rows from to }
{
    let saving = (Row::saving(from), Kind::Write);
    let checking = (Row::checking(from), Kind::Write);
    if from == to {
        UpToThree::two(saving, checking)
    } else {
        UpToThree::three(saving, checking, (Row::checking(to), Kind::Write))
    }
}
