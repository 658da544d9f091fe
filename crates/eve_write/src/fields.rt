//! How numbers, names, money, replies, entries, restores and rows are spelled.
//!
//! docs/TRACE.md, "Parts".

ghost use Rattle.std.specs.Prelude.{◌≡◌, ◌+◌, ◌*◌, ◌≤◌, ◌∷◌, ◌++◌, true, length, IsTrue, if◌then◌else◌};
ghost use Rattle.std.specs.List.{flat_map, list_all};
ghost use Rattle.arrayvec.specs.ArrayVec.{array_vec_len};
ghost use Rattle.byteorder.specs.Endian.{big_bytes};
ghost use Rattle.eve_smallbank.specs.Spelling.{money_text, reply_text};
ghost use Rattle.eve_smallbank.specs.SmallBank.{plain};
ghost use Rattle.eve_smallbank.specs.Access.{is_write};
ghost use Rattle.eve_grammar.specs.Spelling.{name_text, request_text, entry_text, restore_text, versioned_text};
ghost use Rattle.eve_grammar.specs.Limits.{is_number, is_request};
ghost use Rattle.eve_write.specs.Writes.{Puts};

use crate::pieces::put;
use crate::short::{MOST_GATHERED, Short};
use crate::spell::{Spell, send_texts};
use arrayvec::ArrayVec;
use eve_accounts::{Amount, Cents, MOST_NAME_BYTES, Row};
use eve_grammar::Restore;
use eve_smallbank::{Entry, Kind, Reply, Request, UpToThree, Versioned, reply_bytes};
use eve_streams::{SendFault, Sink};

/// The length of a name.
pub(crate) fn name_len(name: &[u8]) -> u8
    requires { length name.now ≤ MOST_NAME_BYTES }
    ensures { result ≡ length name.now }
{
    name.len() as u8
}

/// A number in one byte.
pub(crate) fn byte(number: u8) -> [u8; 1]
    ensures { result ≡ big_bytes 1 number }
{
    [number]
}

/// The length of a token.
pub(crate) fn token_len(token: &[u8; 32]) -> u32
    ensures len { result ≡ length token.now }
    ensures fixed { result ≡ 32 }
{
    token.len() as u32
}

/// Indices are numbers of two bytes.
pub(crate) fn indexes_fit(indexes: &[u16])
    ensures { IsTrue (list_all (is_number 2) indexes.now) }
{
    let _indexes = indexes;
}

/// A balance in eight bytes.
pub(crate) fn cents_bytes(cents: Cents) -> [u8; 8]
    ensures { result ≡ money_text cents }
{
    cents.get().to_be_bytes()
}

fn amount_bytes(amount: Amount) -> [u8; 8]
    ensures { result ≡ money_text amount }
{
    amount.get().to_be_bytes()
}

fn row_bytes(row: Row) -> [u8; 4]
    ensures { result ≡ big_bytes 4 row }
{
    row.number().to_be_bytes()
}

fn kind_byte(kind: Kind) -> [u8; 1]
    ensures { result ≡ big_bytes 1 (if is_write kind then 1 else 0) }
{
    match kind {
        Kind::Read => byte(0),
        Kind::Write => byte(1),
    }
}

impl Spell for u16 {
    ghost text = { λ n. big_bytes 2 n };

    ghost fits = { λ _. true };

    fn write<W: Sink>(&self, out: &mut W) -> Result<(), SendFault> {
        send_texts(out, &[&self.to_be_bytes()])
    }
}

/// Appends indexes one after the other.
pub(crate) fn put_indexes<const N: usize>(frame: &mut ArrayVec<u8, N>, indexes: &[u16])
    requires { array_vec_len frame.old + 2 * length indexes.now ≤ N }
    ensures puts { Puts frame.old.items frame.new.items (flat_map (big_bytes 2) indexes.now) }
    ensures len { array_vec_len frame.new ≡ array_vec_len frame.old + 2 * length indexes.now }
{
    for index in indexes {
        put(frame, &index.to_be_bytes());
    }
}

/// Appends a reply.
pub(crate) fn put_reply<const N: usize>(frame: &mut ArrayVec<u8, N>, reply: Reply)
    requires { array_vec_len frame.old + 9 ≤ N }
    ensures puts { Puts frame.old.items frame.new.items (reply_text reply) }
    ensures len { array_vec_len frame.new ≡ array_vec_len frame.old + 9 }
{
    put(frame, &reply_bytes(reply));
}

/// Appends replies one after the other.
pub(crate) fn put_replies<const N: usize>(frame: &mut ArrayVec<u8, N>, replies: &[Reply])
    requires { array_vec_len frame.old + 9 * length replies.now ≤ N }
    ensures puts { Puts frame.old.items frame.new.items (flat_map reply_text replies.now) }
    ensures len { array_vec_len frame.new ≡ array_vec_len frame.old + 9 * length replies.now }
{
    for reply in replies {
        put_reply(frame, *reply);
    }
}

/// Appends an entry.
fn put_entry<const N: usize>(frame: &mut ArrayVec<u8, N>, entry: Entry)
    requires { array_vec_len frame.old + 29 ≤ N }
    ensures puts { Puts frame.old.items frame.new.items (entry_text entry) }
    ensures len { array_vec_len frame.new ≡ array_vec_len frame.old + 29 }
{
    put(frame, &row_bytes(entry.row));
    put(frame, &kind_byte(entry.kind));
    put(frame, &entry.version.to_be_bytes());
    put(frame, &cents_bytes(entry.seen));
    put(frame, &cents_bytes(entry.after));
}

impl Short for Restore {
    ghost text = { restore_text };

    ghost fits = { λ _. true };

    fn put(&self, texts: &mut ArrayVec<u8, MOST_GATHERED>) {
        put(texts, &row_bytes(self.row));
        put(texts, &self.version.to_be_bytes());
        put(texts, &cents_bytes(self.value));
    }
}

impl Short for Versioned {
    ghost text = { versioned_text };

    ghost fits = { λ _. true };

    fn put(&self, texts: &mut ArrayVec<u8, MOST_GATHERED>) {
        put(texts, &self.version.to_be_bytes());
        put(texts, &cents_bytes(self.value));
    }
}

/// Appends entries one after the other.
pub(crate) fn put_entries<const N: usize>(frame: &mut ArrayVec<u8, N>, entries: &UpToThree<Entry>)
    requires { array_vec_len frame.old + 29 * length entries.now ≤ N }
    ensures { Puts frame.old.items frame.new.items (flat_map entry_text entries.now) }
{
    for i in 0..entries.len() {
        put_entry(frame, entries.at(i));
    }
}

/// As `put_entries`, of at most three entries that stand in a list. A loop of three turns, whatever the number, is laid
/// out by the compiler as three cases, of which each knows how much room there is.
pub(crate) fn put_few_entries<const N: usize>(frame: &mut ArrayVec<u8, N>, entries: &[Entry])
    requires few { length entries.now ≤ 3 }
    requires room { array_vec_len frame.old + 29 * length entries.now ≤ N }
    ensures { Puts frame.old.items frame.new.items (flat_map entry_text entries.now) }
{
    for place in 0..3 {
        if place < entries.len() {
            put_entry(frame, entries[place]);
        }
    }
}

/// Appends a name after its length.
fn put_name<const N: usize>(frame: &mut ArrayVec<u8, N>, name: &[u8])
    requires short { length name.now ≤ MOST_NAME_BYTES }
    requires room { array_vec_len frame.old + 1 + length name.now ≤ N }
    ensures puts { Puts frame.old.items frame.new.items (name_text name.now) }
    ensures len { array_vec_len frame.new ≡ array_vec_len frame.old + 1 + length name.now }
{
    put(frame, &byte(name_len(name)));
    put(frame, name);
}

/// Appends a code, a name and an amount.
fn put_move<const N: usize>(frame: &mut ArrayVec<u8, N>, code: u8, name: &[u8], amount: Amount)
    requires short { length name.now ≤ MOST_NAME_BYTES }
    requires room { array_vec_len frame.old + 34 ≤ N }
    ensures { Puts frame.old.items frame.new.items (code ∷ (name_text name.now ++ money_text amount)) }
{
    put(frame, &byte(code));
    put_name(frame, name);
    put(frame, &amount_bytes(amount));
}

/// Appends a code and two names.
fn put_pair<const N: usize>(frame: &mut ArrayVec<u8, N>, code: u8, from: &[u8], to: &[u8])
    requires short { (length from.now ≤ MOST_NAME_BYTES) × (length to.now ≤ MOST_NAME_BYTES) }
    requires room { array_vec_len frame.old + 51 ≤ N }
    ensures { Puts frame.old.items frame.new.items (code ∷ (name_text from.now ++ name_text to.now)) }
{
    put(frame, &byte(code));
    put_name(frame, from);
    put_name(frame, to);
}

/// Appends a request after its client and number, of at most 51 bytes.
pub(crate) fn put_request<const N: usize>(frame: &mut ArrayVec<u8, N>, request: Request<'_>)
    requires right { IsTrue (is_request (plain request)) }
    requires room { array_vec_len frame.old + 51 ≤ N }
    ensures { Puts frame.old.items frame.new.items (request_text (plain request.entry)) }
{
    match request {
        Request::Balance(name) => {
            put(frame, &byte(1));
            put_name(frame, name);
        }
        Request::DepositChecking(name, amount) => put_move(frame, 2, name, amount),
        Request::TransactSaving(name, amount) => put_move(frame, 3, name, amount),
        Request::Amalgamate(from, to) => put_pair(frame, 4, from, to),
        Request::WriteCheck(name, amount) => put_move(frame, 5, name, amount),
    }
}
