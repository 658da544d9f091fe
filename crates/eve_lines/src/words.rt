//! The words of what frames have in common: kinds, modes, replies, requests, entries.

ghost use Rattle.std.specs.Prelude.{◌≡◌, ◌+◌, ◌≤◌, ◌++◌, length};
ghost use Rattle.arrayvec.specs.ArrayVec.{array_vec_len};
ghost use Rattle.eve_smallbank.specs.SmallBank.{plain};
ghost use Rattle.eve_grammar.specs.Bodies.{borrowed_asked};
ghost use Rattle.eve_grammar.specs.Kinds.{kind_byte};
ghost use Rattle.eve_frames.specs.Kinds.{kind_name};
ghost use Rattle.eve_lines.specs.Words.{asked_words, entry_words, kind_word, mode_words, move_words};
ghost use Rattle.eve_lines.specs.Words.{operand_words, parting, reply_words, request_word, row_words};
ghost use Rattle.eve_lines.specs.Words.{versioned_words};

use crate::line::{LINE_ROOM, Line, put, put_name};
use crate::number::{put_number, put_numbered, put_signed};
use eve_accounts::{Amount, Cents};
use eve_frames::FrameView;
use eve_grammar::{Asked, FrameKind};
use eve_smallbank::{Abort, Entry, Kind, Reply, Request};

/// The name of a kind, as `eve show` prints it: of 8 bytes at most.
pub fn kind_name(kind: FrameKind) -> &'static str
    ensures name { result.now ≡ kind_name (kind_byte kind) }
    ensures short { length result.now ≤ 8 }
{
    let frame = FrameView {
        offset: 0,
        bytes: &[kind.byte(), 0, 0, 0, 0],
    };
    frame.kind_name()
}

/// `serial` or `parallel`.
pub fn mode_word(serial: bool) -> &'static str
    ensures word { result.now ≡ mode_words serial }
    ensures short { length result.now ≤ 8 }
{
    if serial { "serial" } else { "parallel" }
}

/// What parts an item from what stands before it: `: ` before the first, and then `; `.
#[inline(always)]
pub(crate) fn parting(has_begun: bool) -> &'static str
    ensures words { result.now ≡ parting has_begun }
    ensures len { length result.now ≡ 2 }
{
    if has_begun { "; " } else { ": " }
}

/// Appends a reply: `Done`, `Total 2000`, or why nothing changed.
#[inline(always)]
pub fn put_reply(line: &mut Line, reply: Reply)
    requires { array_vec_len line.old + 26 ≤ LINE_ROOM }
    ensures items { line.new.items ≡ line.old.items ++ reply_words reply }
    ensures len { array_vec_len line.new ≤ array_vec_len line.old + 26 }
{
    match reply {
        Reply::Done => put(line, "Done"),
        Reply::Total(total) => {
            put(line, "Total ");
            put_signed(line, total);
        }
        Reply::Aborted(Abort::NoSuchName) => put(line, "NoSuchName"),
        Reply::Aborted(Abort::BadAmount) => put(line, "BadAmount"),
        Reply::Aborted(Abort::Insufficient) => put(line, "Insufficient"),
        Reply::Aborted(Abort::OutOfRange) => put(line, "OutOfRange"),
    }
}

/// What a line of a workload that asks for it begins with.
fn request_word(request: &Request) -> &'static str
    ensures word { result.now ≡ request_word (plain request.now) }
    ensures short { length result.now ≤ 11 }
{
    match request {
        Request::Balance(_) => "balance ",
        Request::DepositChecking(_, _) => "deposit ",
        Request::TransactSaving(_, _) => "transact ",
        Request::Amalgamate(_, _) => "amalgamate ",
        Request::WriteCheck(_, _) => "check ",
    }
}

/// Appends a name and an amount.
fn put_move(line: &mut Line, name: &[u8], amount: Amount)
    requires { array_vec_len line.old + 45 ≤ LINE_ROOM }
    ensures items { line.new.items ≡ line.old.items ++ move_words name.now amount }
    ensures len { array_vec_len line.new ≤ array_vec_len line.old + 45 }
{
    put_name(line, name);
    put(line, " ");
    put_signed(line, amount.get());
}

/// Appends what is asked for behind the client's number: the names and the amount.
fn put_operands(line: &mut Line, request: &Request)
    requires { array_vec_len line.old + 49 ≤ LINE_ROOM }
    ensures items { line.new.items ≡ line.old.items ++ operand_words (plain request.now) }
    ensures len { array_vec_len line.new ≤ array_vec_len line.old + 49 }
{
    match request {
        Request::Balance(name) => put_name(line, name),
        Request::DepositChecking(name, amount) => put_move(line, name, *amount),
        Request::TransactSaving(name, amount) => put_move(line, name, *amount),
        Request::WriteCheck(name, amount) => put_move(line, name, *amount),
        Request::Amalgamate(from, to) => {
            put_name(line, from);
            put(line, " ");
            put_name(line, to);
        }
    }
}

/// Appends a request as a workload has it: `deposit 7 2 ann 7`.
pub fn put_request(line: &mut Line, asked: &Asked)
    requires { array_vec_len line.old + 102 ≤ LINE_ROOM }
    ensures items { line.new.items ≡ line.old.items ++ asked_words (borrowed_asked asked.now) }
    ensures len { array_vec_len line.new ≤ array_vec_len line.old + 102 }
{
    put(line, request_word(&asked.request));
    put_number(line, u64::from(asked.client));
    put_numbered(line, " ", asked.number);
    put(line, " ");
    put_operands(line, &asked.request);
}

/// `read` or `write`.
pub fn kind_word(kind: Kind) -> &'static str
    ensures word { result.now ≡ kind_word kind }
    ensures short { length result.now ≤ 5 }
{
    match kind {
        Kind::Read => "read",
        Kind::Write => "write",
    }
}

/// Appends what a row has: ` version 1 value 100`.
#[tactic(auto, unfolding(crate::specs::Words::versioned_words))]
fn put_versioned(line: &mut Line, version: u64, value: Cents)
    requires { array_vec_len line.old + 56 ≤ LINE_ROOM }
    ensures items { line.new.items ≡ line.old.items ++ versioned_words version value }
    ensures len { array_vec_len line.new ≤ array_vec_len line.old + 56 }
{
    put_numbered(line, " version ", version);
    put(line, " value ");
    put_signed(line, value.get());
}

/// Appends a row and what it has: `row 1 version 1 value 100`.
pub(crate) fn put_row(line: &mut Line, row: u64, version: u64, value: Cents)
    requires { array_vec_len line.old + 80 ≤ LINE_ROOM }
    ensures items { line.new.items
        ≡ line.old.items ++ row_words (row, record { version = version; value = value }) }
    ensures len { array_vec_len line.new ≤ array_vec_len line.old + 80 }
{
    put_numbered(line, "row ", row);
    put_versioned(line, version, value);
}

/// Appends an entry: `read row 0 version 0 value 0`, `write row 1 version 0 value 0 to 500`.
#[inline(always)]
#[tactic(auto, unfolding(crate::specs::Words::entry_words))]
pub fn put_entry(line: &mut Line, entry: &Entry)
    requires { array_vec_len line.old + 110 ≤ LINE_ROOM }
    ensures items { line.new.items ≡ line.old.items ++ entry_words entry.now }
    ensures len { array_vec_len line.new ≤ array_vec_len line.old + 110 }
{
    let row = u64::from(entry.row.number());
    match entry.kind {
        Kind::Read => {
            put_numbered(line, "read row ", row);
            put_versioned(line, entry.version, entry.seen);
        }
        Kind::Write => {
            put_numbered(line, "write row ", row);
            put_versioned(line, entry.version, entry.seen);
            put(line, " to ");
            put_signed(line, entry.after.get());
        }
    }
}
