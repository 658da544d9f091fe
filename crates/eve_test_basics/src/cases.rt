//! How the lines of the input say bytes, numbers, balances and replies. Where a word isn't as it must be, what is said
//! of the line keeps that, and something goes in its place.

ghost use Rattle.std.specs.Prelude.{◌<◌, length, IfSome};

use eve_accounts::{Balances, Cents, MOST_NAMES, Row};
use eve_smallbank::{Abort, Reply};
use eve_testing::Text;
use std::alloc::Global;

/// The word at this place, which must be there.
pub(crate) fn word_at<'a>(words: &[&'a str], at: usize, said: &mut Text) -> &'a str {
    match words.get(at) {
        Some(word) => *word,
        None => {
            said.needs(false);
            ""
        }
    }
}

/// The word at this place, which must be the last.
pub(crate) fn last_at<'a>(words: &[&'a str], at: usize, said: &mut Text) -> &'a str {
    said.needs(words.len().wrapping_sub(at) == 1);
    word_at(words, at, said)
}

/// The number at this place, which must be there, and not negative.
pub(crate) fn number_at(words: &[&str], at: usize, said: &mut Text) -> u32 {
    number_of(word_at(words, at, said), said)
}

/// The bytes of the word at this place, which must be the last.
pub(crate) fn bytes_at(alloc: Global, words: &[&str], at: usize, said: &mut Text) -> Vec<u8> {
    bytes_of(alloc, last_at(words, at, said), said)
}

/// The words from this place on, if there are some.
pub(crate) fn words_from<'a>(words: &'a [&'a str], at: usize) -> &'a [&'a str] {
    words.get(at..).unwrap_or(&[])
}

/// A whole number of 64 bits.
pub(crate) fn whole_of(word: &str, said: &mut Text) -> i64 {
    let number = word.parse::<i64>();
    said.needs(number.is_ok());
    number.unwrap_or(0)
}

/// A number that isn't negative.
pub(crate) fn number_of(word: &str, said: &mut Text) -> u32 {
    let number = word.parse::<u32>();
    said.needs(number.is_ok());
    number.unwrap_or(0)
}

/// The bytes of a word as they are written, but for one in braces, which is written in hexadecimal.
pub(crate) fn bytes_of(alloc: Global, written: &str, said: &mut Text) -> Vec<u8> {
    let mut bytes = Vec::new(alloc);
    for part in written.split('{') {
        let (digits, plain) = part.split_once('}').unwrap_or(("", part));
        match u8::from_str_radix(digits, 16) {
            Ok(byte) => said.stored(bytes.push(byte)),
            Err(_) => said.needs(digits.is_empty()),
        }
        said.stored(bytes.extend_from_slice(plain.as_bytes()));
    }
    bytes
}

/// A balance, in cents.
pub(crate) fn cents_of(word: &str, said: &mut Text) -> Cents {
    let cents = Cents::new(whole_of(word, said));
    said.needs(cents.is_some());
    cents.unwrap_or(Cents::ZERO)
}

/// The row with this number, if it is there.
pub(crate) fn row_in(balances: &Balances, number: u32) -> Option<Row>
    ensures { IfSome result (λ row. row < length balances.now) }
{
    let customer = number / 2;
    if customer >= MOST_NAMES || number as usize >= balances.len() {
        None
    } else if number % 2 == 0 {
        Some(Row::saving(customer))
    } else {
        Some(Row::checking(customer))
    }
}

/// The new balance of the row with this number.
#[derive(Clone, Copy)]
pub(crate) struct Change {
    pub row: u32,
    pub balance: Cents,
}

/// What a word changes: `ROW=CENTS`.
pub(crate) fn change_of(word: &str, said: &mut Text) -> Change {
    let (row, cents) = word.split_once('=').unwrap_or(("", ""));
    Change {
        row: number_of(row, said),
        balance: cents_of(cents, said),
    }
}

/// Changes the balance of a row, which must be there.
pub(crate) fn set_row(balances: &mut Balances, change: Change, said: &mut Text) {
    match row_in(balances, change.row) {
        Some(row) => balances.set(row, change.balance),
        None => said.needs(false),
    }
}

/// The balances of all rows, separated by commas.
pub(crate) fn balances_of(alloc: Global, words: &str, said: &mut Text) -> Option<Balances>
    ensures { IfSome result (λ balances. 0 < length balances) }
{
    let Ok(mut balances) = Balances::new(alloc, words.split(',').count()) else {
        said.refused();
        return None;
    };
    let mut row = 0u32;
    for word in words.split(',') {
        let balance = cents_of(word, said);
        set_row(&mut balances, Change { row, balance }, said);
        row = row.wrapping_add(1);
    }
    if balances.is_empty() {
        None
    } else {
        Some(balances)
    }
}

/// A reply: its kind, or the cents of a total.
fn reply_of(word: &str, said: &mut Text) -> Reply {
    match word {
        "Done" => Reply::Done,
        "NoSuchName" => Reply::Aborted(Abort::NoSuchName),
        "BadAmount" => Reply::Aborted(Abort::BadAmount),
        "Insufficient" => Reply::Aborted(Abort::Insufficient),
        "OutOfRange" => Reply::Aborted(Abort::OutOfRange),
        total => Reply::Total(whole_of(total, said)),
    }
}

/// Replies, separated by commas.
pub(crate) fn replies_of(alloc: Global, words: &str, said: &mut Text) -> Vec<Reply> {
    let mut replies = Vec::new(alloc);
    for word in words.split(',') {
        let reply = reply_of(word, said);
        said.stored(replies.push(reply));
    }
    replies
}
