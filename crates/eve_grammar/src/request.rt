//! Requests, and who sent them.

ghost use Rattle.std.specs.Prelude.{◌≡◌, ◌==◌, if◌then◌else◌};
ghost use Rattle.eve_smallbank.specs.SmallBank.{plain, DepositChecking, TransactSaving, WriteCheck};
ghost use Rattle.eve_grammar.specs.Readers.{Gives, both, name_at, coded_at, asked_at};
ghost use Rattle.eve_grammar.specs.Bodies.{borrowed_asked};

use crate::fields::{move_at, name_at, u8_at, u32_at, u64_at};
use eve_accounts::Amount;
use eve_smallbank::Request;

/// A request with who sent it and under which number.
///
/// docs/TRACE.md, "Parts".
#[derive(Clone, Copy)]
pub struct Asked<'a> {
    /// The client.
    pub client: u32,
    /// The client's number for it.
    pub number: u64,
    /// What is asked for.
    pub request: Request<'a>,
}

/// What is asked for with an amount: a deposit, a saving, or else a check.
fn moved(code: u8, name: &[u8], amount: Amount) -> Request<'_>
    ensures { plain result ≡ (if code == 2 then DepositChecking name.now amount
        else if code == 3 then TransactSaving name.now amount else WriteCheck name.now amount) }
{
    match code {
        2 => Request::DepositChecking(name, amount),
        3 => Request::TransactSaving(name, amount),
        _ => Request::WriteCheck(name, amount),
    }
}

/// Two names.
fn names_at(bytes: &[u8]) -> Option<((&[u8], &[u8]), &[u8])>
    ensures { Gives (λ x. ((x.0.0.now, x.0.1.now), x.1.now)) result (both name_at name_at bytes.now) }
{
    let Some((first, rest)) = name_at(bytes) else {
        return None;
    };
    let Some((second, rest)) = name_at(rest) else {
        return None;
    };
    Some(((first, second), rest))
}

/// What stands after the code of a request.
#[tactic(auto, unfolding(crate::specs::Readers::coded_at))]
fn coded_at(code: u8, bytes: &[u8]) -> Option<(Request<'_>, &[u8])>
    ensures { Gives (λ x. (plain x.0, x.1.now)) result (coded_at code bytes.now) }
{
    match code {
        1 => {
            let Some((name, rest)) = name_at(bytes) else {
                return None;
            };
            Some((Request::Balance(name), rest))
        }
        4 => {
            let Some(((from, to), rest)) = names_at(bytes) else {
                return None;
            };
            Some((Request::Amalgamate(from, to), rest))
        }
        2 | 3 | 5 => {
            let Some(((name, amount), rest)) = move_at(bytes) else {
                return None;
            };
            Some((moved(code, name, amount), rest))
        }
        _ => None,
    }
}

/// A client, its number for the request, and the request.
#[tactic(auto, unfolding(crate::specs::Readers::asked_at, crate::specs::Readers::request_at))]
pub(crate) fn asked_at(bytes: &[u8]) -> Option<(Asked<'_>, &[u8])>
    ensures { Gives (λ x. (borrowed_asked x.0, x.1.now)) result (asked_at bytes.now) }
{
    let Some((client, rest)) = u32_at(bytes) else {
        return None;
    };
    let Some((number, rest)) = u64_at(rest) else {
        return None;
    };
    let Some((code, rest)) = u8_at(rest) else {
        return None;
    };
    let Some((request, rest)) = coded_at(code, rest) else {
        return None;
    };
    Some((
        Asked {
            client,
            number,
            request,
        },
        rest,
    ))
}
