//! Tokens and roots of worked cases.

ghost use Rattle.std.specs.Prelude.{◌<◌, length};

use crate::cases::{
    Change, balances_of, change_of, last_at, number_at, replies_of, word_at, words_from,
};
use crate::followed::{Followed, new_root};
use eve_accounts::{Balances, Cents};
use eve_smallbank::Reply;
use eve_testing::{Draws, Text};
use eve_token::{token, token_of};
use std::alloc::Global;
use std::io::ErrorKind;
use std::{fs, io};

/// Tells what a line about tokens and roots asks for; false where it asks for something else.
pub(crate) fn tell(rt: &HostRuntime, what: &str, words: &[&str], said: &mut Text) -> bool {
    match what {
        "token" => tell_token(rt, words, said),
        "writes" => tell_writes(rt.alloc(), words, said),
        "random" => tell_random(rt.alloc(), words, said),
        _ => return false,
    }
    true
}

/// Tells the token of a batch, and how often the trace of that name has it, if there is one; in version 2 the root too.
fn tell_token(rt: &HostRuntime, words: &[&str], said: &mut Text) {
    let alloc = rt.alloc();
    let replies = replies_of(alloc, last_at(words, 5, said), said);
    if let Some(balances) = balances_of(alloc, word_at(words, 4, said), said) {
        tell_batch(rt, words, &balances, replies.as_slice(), said);
    }
}

/// The same, of a batch with these replies, and with these balances after it.
fn tell_batch(
    rt: &HostRuntime,
    words: &[&str],
    balances: &Balances,
    replies: &[Reply],
    said: &mut Text,
)
    requires some { 0 < length balances.now }
{
    let (name, number) = (word_at(words, 1, said), number_at(words, 3, said));
    match number_at(words, 2, said) {
        1 => tell_due(rt, name, &token(1, number, balances, replies), said),
        2 if !replies.is_empty() => {
            tell_due(rt, name, &token(2, number, balances, replies), said);
            let root = new_root(rt.alloc(), balances, said);
            said.value("\n", name);
            said.hex(": root ", &root);
            said.hex(", whose token is ", &token_of(number, &root, replies));
        }
        _ => said.needs(false),
    }
}

/// Tells this token, and how often the trace of that name has it, if there is one.
fn tell_due(rt: &HostRuntime, name: &str, due: &[u8; 32], said: &mut Text) {
    said.words(name);
    said.hex(": token ", due.as_slice());
    match trace_of(rt, name) {
        Ok(trace) => tell_times(trace.as_slice(), due.as_slice(), said),
        Err(fault) => {
            if fault.kind() != ErrorKind::NotFound {
                said.fail(fault);
            }
        }
    }
}

/// The trace of that name.
fn trace_of(rt: &HostRuntime, name: &str) -> io::Result<Vec<u8>> {
    match format!(in rt.alloc(); "{name}.trace") {
        Ok(file) => fs::read(rt, file.as_str()),
        Err(_) => Err(io::Error::from(ErrorKind::OutOfMemory)),
    }
}

/// Tells how often a trace has this token.
fn tell_times(trace: &[u8], due: &[u8], said: &mut Text) {
    let mut times = 0u64;
    for part in trace.windows(32) {
        if part == due {
            times = times.wrapping_add(1);
        }
    }
    said.value(", ", times);
    said.words(" times in its trace");
}

/// Tells the root that a tree gives at first, and after each write.
fn tell_writes(alloc: Global, words: &[&str], said: &mut Text) {
    let name = word_at(words, 1, said);
    let Some(mut followed) = Followed::new(alloc, word_at(words, 2, said), said) else {
        return;
    };
    said.words(name);
    said.hex(": ", &followed.root());
    for word in words_from(words, 3) {
        followed.set(change_of(word, said), said);
        said.value("\n", name);
        said.value(": ", *word);
        said.hex(" ", &followed.root());
    }
}

/// Tells after how many random writes of the given number the root is that of a new tree, and the last root.
fn tell_random(alloc: Global, words: &[&str], said: &mut Text) {
    let count = number_at(words, 2, said);
    let Some(mut followed) = Followed::new(alloc, last_at(words, 3, said), said) else {
        return;
    };
    let (mut draws, mut same) = (Draws::new(1), 0u32);
    for _ in 0..count {
        followed.set(change_drawn(draws.bits(), followed.rows()), said);
        if followed.is_as_new(alloc, said) {
            same = same.wrapping_add(1);
        }
    }
    let name = word_at(words, 1, said);
    said.words(name);
    said.value(": ", same);
    said.hex(
        " roots are those of new trees, the last is ",
        &followed.root(),
    );
}

/// The change that was drawn; some write the balance that is there.
fn change_drawn(drawn: u64, rows: usize) -> Change
    requires some { 0 < rows }
{
    Change {
        row: ((drawn >> 33) % rows as u64) as u32,
        balance: Cents::new((drawn >> 61) as i64 - 4).unwrap_or(Cents::ZERO),
    }
}
