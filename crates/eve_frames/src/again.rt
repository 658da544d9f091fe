//! Requests that were found right, read again: by their lengths alone, and no name or code is tested a second time.

ghost use Rattle.std.specs.Prelude.{◌≡◌, IsTrue, Some, is_some};
ghost use Rattle.eve_smallbank.specs.SmallBank.{plain};
ghost use Rattle.eve_grammar.specs.Readers.{name_at, move_at, coded_at, asked_at};
ghost use Rattle.eve_grammar.specs.Bodies.{borrowed_asked};

use byteorder::{BigEndian, ByteOrder};
use eve_accounts::Amount;
use eve_grammar::{Asked, u8_at, u32_at, u64_at};
use eve_smallbank::Request;

/// The name that stands in front, and the bytes after it.
#[inline(always)]
#[tactic(auto, unfolding(eve_grammar::specs::Readers::name_at))]
fn name_again(bytes: &[u8]) -> (&[u8], &[u8])
    requires { IsTrue (is_some (name_at bytes.now)) }
    ensures { name_at bytes.now ≡ Some (result.0.now, result.1.now) }
{
    let Some((len, rest)) = u8_at(bytes) else {
        unreachable!();
    };
    rest.split_at(len as usize)
}

/// The name and the amount that stand in front, and the bytes after them.
#[inline(always)]
#[tactic(auto, unfolding(eve_grammar::specs::Readers::move_at, eve_grammar::specs::Readers::amount_at))]
fn move_again(bytes: &[u8]) -> ((&[u8], Amount), &[u8])
    requires { IsTrue (is_some (move_at bytes.now)) }
    ensures { move_at bytes.now ≡ Some ((result.0.0.now, result.0.1), result.1.now) }
{
    let (name, rest) = name_again(bytes);
    let amount = Amount::of(BigEndian::read_i64(rest));
    ((name, amount), &rest[8..])
}

/// What stands after the code of a request.
#[inline(always)]
#[tactic(auto, unfolding(eve_grammar::specs::Readers::coded_at))]
fn coded_again(code: u8, bytes: &[u8]) -> (Request<'_>, &[u8])
    requires { IsTrue (is_some (coded_at code bytes.now)) }
    ensures { coded_at code bytes.now ≡ Some (plain result.0, result.1.now) }
{
    match code {
        1 => {
            let (name, rest) = name_again(bytes);
            (Request::Balance(name), rest)
        }
        2 => {
            let ((name, amount), rest) = move_again(bytes);
            (Request::DepositChecking(name, amount), rest)
        }
        3 => {
            let ((name, amount), rest) = move_again(bytes);
            (Request::TransactSaving(name, amount), rest)
        }
        4 => {
            let (from, rest) = name_again(bytes);
            let (to, rest) = name_again(rest);
            (Request::Amalgamate(from, to), rest)
        }
        5 => {
            let ((name, amount), rest) = move_again(bytes);
            (Request::WriteCheck(name, amount), rest)
        }
        _ => unreachable!(),
    }
}

/// The request that stands in front, with who sent it, and the bytes after it.
#[inline(always)]
#[tactic(auto, unfolding(eve_grammar::specs::Readers::asked_at, eve_grammar::specs::Readers::request_at))]
pub(crate) fn asked_again(bytes: &[u8]) -> (Asked<'_>, &[u8])
    requires { IsTrue (is_some (asked_at bytes.now)) }
    ensures { asked_at bytes.now ≡ Some (borrowed_asked result.0, result.1.now) }
{
    let Some((client, rest)) = u32_at(bytes) else {
        unreachable!();
    };
    let Some((number, rest)) = u64_at(rest) else {
        unreachable!();
    };
    let Some((code, rest)) = u8_at(rest) else {
        unreachable!();
    };
    let (request, rest) = coded_again(code, rest);
    (
        Asked {
            client,
            number,
            request,
        },
        rest,
    )
}
