//! Requests, and replies to them.

ghost use Rattle.std.specs.Prelude.{◌≡◌, ◌++◌, OnOk};
ghost use Rattle.eve_smallbank.specs.SmallBank.{plain};
ghost use Rattle.eve_grammar.specs.Bodies.{borrowed_asked};
ghost use Rattle.eve_lines.specs.Words.{abort_words};
ghost use Rattle.eve_objects.specs.FrameObjects.{asked_item, asked_members, move_members, operand_members};
ghost use Rattle.eve_objects.specs.FrameObjects.{reply_item, reply_members, request_name};

use crate::members::{put_name, put_number, put_signed, put_string};
use eve_accounts::Amount;
use eve_grammar::Asked;
use eve_smallbank::{Abort, Reply, Request};
use json::Writer;
use std::alloc::AllocError;

/// What is asked for, as a workload has it.
fn request_name(request: &Request) -> &'static str
    ensures { result.now ≡ request_name (plain request.now) }
{
    match request {
        Request::Balance(_) => "balance",
        Request::DepositChecking(_, _) => "deposit",
        Request::TransactSaving(_, _) => "transact",
        Request::Amalgamate(_, _) => "amalgamate",
        Request::WriteCheck(_, _) => "check",
    }
}

/// Appends a name and an amount.
fn put_move(writer: &mut Writer, name: &[u8], amount: Amount) -> Result<(), AllocError>
    ensures tokens { OnOk result (writer.new.tokens ≡ writer.old.tokens ++ move_members name.now amount) }
    ensures before { OnOk result (writer.new.before ≡ writer.old.before) }
{
    put_name(writer, "name", name)?;
    put_signed(writer, "amount", amount.get())
}

/// Appends the names and the amount of a request.
fn put_operands(writer: &mut Writer, request: &Request) -> Result<(), AllocError>
    ensures tokens { OnOk result (writer.new.tokens ≡ writer.old.tokens ++ operand_members (plain request.now)) }
    ensures before { OnOk result (writer.new.before ≡ writer.old.before) }
{
    match request {
        Request::Balance(name) => put_name(writer, "name", name),
        Request::DepositChecking(name, amount) => put_move(writer, name, *amount),
        Request::TransactSaving(name, amount) => put_move(writer, name, *amount),
        Request::WriteCheck(name, amount) => put_move(writer, name, *amount),
        Request::Amalgamate(from, to) => {
            put_name(writer, "from", from)?;
            put_name(writer, "to", to)
        }
    }
}

/// Appends a request's members.
fn put_asked(writer: &mut Writer, asked: &Asked) -> Result<(), AllocError>
    ensures tokens { OnOk result (writer.new.tokens
        ≡ writer.old.tokens ++ asked_members (borrowed_asked asked.now)) }
    ensures before { OnOk result (writer.new.before ≡ writer.old.before) }
{
    put_string(writer, "request", request_name(&asked.request))?;
    put_number(writer, "client", u64::from(asked.client))?;
    put_number(writer, "number", asked.number)?;
    put_operands(writer, &asked.request)
}

/// Appends a request: `{"request":"deposit","client":7,"number":1,"name":"ann","amount":500}`.
#[tactic(auto, unfolding(crate::specs::Members::object))]
pub(crate) fn put_request(writer: &mut Writer, asked: &Asked) -> Result<(), AllocError>
    ensures tokens { OnOk result (writer.new.tokens ≡ writer.old.tokens ++ asked_item (borrowed_asked asked.now)) }
    ensures before { OnOk result (writer.new.before ≡ writer.old.before) }
{
    writer.begin_object()?;
    put_asked(writer, asked)?;
    writer.end_object()
}

/// Why a transaction changed nothing, in one word.
fn abort_word(why: Abort) -> &'static str
    ensures { result.now ≡ abort_words why }
{
    match why {
        Abort::NoSuchName => "NoSuchName",
        Abort::BadAmount => "BadAmount",
        Abort::Insufficient => "Insufficient",
        Abort::OutOfRange => "OutOfRange",
    }
}

/// Appends a reply's members: `"reply":"Done"`, `"reply":"Total","total":2000`, or why nothing changed.
pub(crate) fn put_reply(writer: &mut Writer, reply: Reply) -> Result<(), AllocError>
    ensures tokens { OnOk result (writer.new.tokens ≡ writer.old.tokens ++ reply_members reply) }
    ensures before { OnOk result (writer.new.before ≡ writer.old.before) }
{
    match reply {
        Reply::Done => put_string(writer, "reply", "Done"),
        Reply::Total(total) => {
            put_string(writer, "reply", "Total")?;
            put_signed(writer, "total", total)
        }
        Reply::Aborted(why) => put_string(writer, "reply", abort_word(why)),
    }
}

/// Appends a reply.
#[tactic(auto, unfolding(crate::specs::Members::object))]
pub(crate) fn put_reply_item(writer: &mut Writer, reply: Reply) -> Result<(), AllocError>
    ensures tokens { OnOk result (writer.new.tokens ≡ writer.old.tokens ++ reply_item reply) }
    ensures before { OnOk result (writer.new.before ≡ writer.old.before) }
{
    writer.begin_object()?;
    put_reply(writer, reply)?;
    writer.end_object()
}
