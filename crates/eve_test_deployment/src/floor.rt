//! Batches that two workers execute on floors, one after another and in two threads, and what came of it: the same
//! whatever the schedule.

mod cases;
mod crew;
mod gates;
mod opening;
mod pairs;
mod scripts;
mod site;
mod telling;

use crate::floor::cases::{Case, case_of};
use crate::floor::opening::customers;
use crate::floor::pairs::tell_pairs;
use crate::floor::scripts::{SCRIPTS, Script};
use crate::floor::telling::{tell_record, tell_whether};
use eve_accounts::Names;
use eve_floor::Worker;
use eve_testing::Text;
use std::alloc::{AllocError, Global};
use std::hash::RandomState;
use std::random::RandomSource;
use std::sync::Wait;
use std::thread::Threads;

/// Tells the case of a script.
fn tell_script<R: Threads + Wait + Sync>(
    rt: &R,
    alloc: Global,
    names: &Names,
    script: &Script,
    text: &mut Text,
) {
    text.words(script.name);
    text.words(":");
    text.words(script.begin);
    match case_of(alloc, names, &script.plan, text) {
        Ok(case) => play(rt, alloc, script, case, text),
        Err(AllocError) => text.refused(),
    }
    text.words("\n");
}

/// Does what the script says in its case.
fn play<R: Threads + Wait + Sync>(
    rt: &R,
    alloc: Global,
    script: &Script,
    mut case: Case,
    text: &mut Text,
) {
    case.play(rt, alloc, script.acts, text);
    if script.is_taken_apart {
        take_apart(case.into_hand(), text);
    } else {
        drop(case);
    }
}

/// Tells whether the worker gives its seats, and what waits in it otherwise.
fn take_apart(worker: Worker, text: &mut Text) {
    match worker.into_seats().err() {
        None => text.words(", its seats"),
        Some(worker) => take_waiting(worker, text),
    }
}

/// Tells what waits in the worker, and whether it gives its seats then.
fn take_waiting(mut worker: Worker, text: &mut Text) {
    tell_record(worker.take_waiting(), text);
    let kept = worker.into_seats().err();
    tell_whether(kept.is_none(), text);
    drop(kept);
}

/// Tells all cases with this name, of customers with their names. There has to be one.
fn tell_all<R: Threads + Wait + Sync>(
    rt: &R,
    alloc: Global,
    names: &Names,
    name: &str,
    text: &mut Text,
) {
    let mut is_there = false;
    for script in &SCRIPTS {
        if script.name == name {
            is_there = true;
            tell_script(rt, alloc, names, script, text);
        }
    }
    text.needs(is_there);
}

/// The same, where random words are there for the names.
fn tell_with<R: Threads + Wait + Sync>(
    rt: &R,
    alloc: Global,
    random: RandomState,
    name: &str,
    text: &mut Text,
) {
    let names = customers(alloc, random, text);
    match name {
        "gates-held" => tell_pairs(rt, alloc, &names, text),
        _ => tell_all(rt, alloc, &names, name, text),
    }
}

/// Tells the cases with this name, a line for each.
pub fn tell<R: AllocGlobal + RandomSource + Threads + Wait + Sync>(
    rt: &R,
    name: &str,
    text: &mut Text,
) {
    match RandomState::new(rt) {
        Ok(random) => tell_with(rt, rt.alloc(), random, name, text),
        Err(why) => text.fail(why),
    }
}
