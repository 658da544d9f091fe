//! Pairs of requests that two threads execute while gates hold them.

use crate::floor::cases::{Plan, case_of};
use crate::floor::gates::Held;
use crate::floor::opening::Ask;
use crate::floor::telling::tell_whether;
use eve_accounts::Names;
use eve_testing::Text;
use std::alloc::{AllocError, Global};
use std::sync::Wait;
use std::thread::Threads;

/// Pairs of requests of different stripes.
static APART: [[Ask; 2]; 5] = [
    [Ask::Deposit(b"a"), Ask::Deposit(b"b")],
    [Ask::Move(b"a", b"q"), Ask::Deposit(b"b")],
    [Ask::Move(b"a", b"b"), Ask::Deposit(b"c")],
    [Ask::Move(b"a", b"z"), Ask::Deposit(b"a")],
    [Ask::Deposit(b"a"), Ask::Move(b"a", b"z")],
];

/// Pairs of requests that share a stripe.
static SHARED: [[Ask; 2]; 5] = [
    [Ask::Deposit(b"a"), Ask::Deposit(b"a")],
    [Ask::Deposit(b"a"), Ask::Deposit(b"q")],
    [Ask::Move(b"a", b"b"), Ask::Deposit(b"a")],
    [Ask::Move(b"a", b"b"), Ask::Deposit(b"b")],
    [Ask::Move(b"a", b"b"), Ask::Move(b"b", b"a")],
];

/// Requests of different stripes don't wait for one another, and those that share a stripe do.
pub fn tell_pairs<R: Threads + Wait + Sync>(rt: &R, alloc: Global, names: &Names, text: &mut Text) {
    text.words("gates-held:");
    for asks in &APART {
        tell_held(rt, alloc, names, asks, text);
    }
    text.words("; meet:");
    for asks in &SHARED {
        let is_met = is_shown(rt, alloc, names, asks, Held::Each, text);
        tell_whether(is_met, text);
    }
    text.words("\n");
}

/// Tells whether request 1 is noted by another thread in time, while request 0 is held in its gate.
fn tell_held<R: Threads + Wait + Sync>(
    rt: &R,
    alloc: Global,
    names: &Names,
    asks: &'static [Ask],
    text: &mut Text,
) {
    let mut is_held = is_shown(rt, alloc, names, asks, Held::First, text);
    if !is_held {
        // Where a thread couldn't be started, once more.
        is_held = is_shown(rt, alloc, names, asks, Held::First, text);
    }
    tell_whether(is_held, text);
}

/// Two requests in two threads, of which a gate holds so. Whether it shows what it looks for.
fn is_shown<R: Threads + Wait + Sync>(
    rt: &R,
    alloc: Global,
    names: &Names,
    asks: &'static [Ask],
    held: Held,
    text: &mut Text,
) -> bool {
    let plan = Plan {
        asks,
        room: 2,
        limit: 8,
        held,
    };
    match case_of(alloc, names, &plan, text) {
        Ok(case) => case.shows(rt, text),
        Err(AllocError) => {
            text.refused();
            false
        }
    }
}
