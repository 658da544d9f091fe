//! Runs at the limits of the format, past a thousand batches and four megabytes, and changes in them. The traces are
//! made here: by runs, from the parts of runs, and by a change of one place. What has to be printed follows from the
//! rules: no two requests of a batch conflict, so all replicas commit all batches; and a change is a fault there, or
//! none.

mod changes;
mod lies;
mod places;
mod rerun;
mod sizes;
mod together;
mod verdicts;
mod workload;

use crate::bytes::Bytes;
use crate::calls::out_of;
use crate::fault::Fault;
use crate::limits::changes::{
    Change, LAST_REPLICA, RECORDED, THIRD_OF_CLIENT, tell_changed, tell_changes,
};
use crate::limits::lies::{sent_again, with_another_customer};
use crate::limits::places::Places;
use crate::limits::rerun::{leave_out, rerun, trace_of};
use crate::limits::sizes::{
    CLIENTS, CUSTOMERS, FALLING, GREATEST, LONGEST, WIDEST, WINDOW, WINDOWS,
};
use crate::limits::together::Matter;
use crate::limits::verdicts::{Asked, NOWHERE, spot_at, tell, tell_call};
use crate::limits::workload::{Size, workload};
use std::random::RandomSource;
use std::sync::Wait;
use std::thread::Threads;

/// The trace of a run of this size, in a format that may have its customers.
fn run_of<R: AllocGlobal + RandomSource + Threads + Wait + Sync>(
    rt: &R,
    page: &mut Bytes,
    size: &Size,
) -> Bytes {
    let text = workload(rt.alloc(), size);
    page.fail_as(&text);
    let format = if size.customers > GREATEST.customers {
        "2"
    } else {
        "1"
    };
    let arguments = ["eve", "run", "--mixer", "whole", "--format", format];
    out_of(rt, &arguments, text.written())
}

/// Tells what audits say of a run of this size.
fn tell_run<R: AllocGlobal + RandomSource + Threads + Wait + Sync>(
    rt: &R,
    page: &mut Bytes,
    name: &str,
    size: &Size,
) {
    let trace = run_of(rt, page, size);
    tell(rt, page, name, &trace, NOWHERE);
}

/// Tells what audits say of a run of as many customers as there may be, and of its trace with one more.
fn tell_customers<R: AllocGlobal + RandomSource + Threads + Wait + Sync>(rt: &R, page: &mut Bytes) {
    let trace = run_of(rt, page, &CUSTOMERS);
    tell(rt, page, "most customers", &trace, NOWHERE);
    let more = with_another_customer(rt.alloc(), trace.written(), 65_537);
    tell(rt, page, "one customer more", &more, NOWHERE);
}

/// Tells what audits say of a run of this size, of which the first request of a batch gets the client of an earlier
/// request with its number.
fn tell_asked_again<R: AllocGlobal + RandomSource + Threads + Wait + Sync>(
    rt: &R,
    page: &mut Bytes,
    name: &'static str,
    size: &Size,
    batch: u32,
) {
    let mut trace = run_of(rt, page, size);
    let places = Places::of(rt.alloc(), trace.written(), batch, RECORDED);
    let change = Change {
        name,
        frame: spot_at(page, places.batch, None),
        behind: THIRD_OF_CLIENT,
        asked: None,
    };
    tell_changed(rt, page, &mut trace, &change);
}

/// All batches rolled back and executed again, on all replicas; and a restore left out on the last.
fn tell_reruns<R: AllocGlobal + RandomSource + Threads + Wait + Sync>(rt: &R, page: &mut Bytes) {
    let text = workload(rt.alloc(), &WINDOW);
    page.fail_as(&text);
    match rerun(rt, page, text.written()) {
        Ok(mut parts) => {
            let right = trace_of(rt.alloc(), &parts);
            leave_out(&mut parts, LAST_REPLICA as usize);
            let wrong = trace_of(rt.alloc(), &parts);
            drop(parts);
            tell(rt, page, "rolled back", &right, NOWHERE);
            tell_left_out(rt, page, &wrong);
        }
        Err(fault) => page.fail(fault),
    }
}

fn tell_left_out<R: AllocGlobal + RandomSource + Threads + Wait + Sync>(
    rt: &R,
    page: &mut Bytes,
    trace: &Bytes,
) {
    let places = Places::of(rt.alloc(), trace.written(), 1, RECORDED);
    let spot = spot_at(page, places.rollback, Some(LAST_REPLICA));
    tell(rt, page, "a restore left out", trace, spot);
}

/// The last reply is sent again, and all of them, in a trace of several megabytes.
fn tell_sent_again<R: AllocGlobal + RandomSource + Threads + Wait + Sync>(
    rt: &R,
    page: &mut Bytes,
    trace: &Bytes,
) {
    let twice = sent_again(rt.alloc(), trace.written(), 1);
    tell(rt, page, "a reply sent twice", &twice, NOWHERE);
    let all = sent_again(rt.alloc(), trace.written(), 8 * 28 * 256);
    tell(rt, page, "all replies sent twice", &all, NOWHERE);
    tell_call(rt, page, &all, &ALL_TWICE);
}

/// What is asked of the widest trace as it is.
static AS_IT_IS: Asked = Asked {
    name: "the same balances, by themselves",
    matter: Matter::Outcomes,
    spot: NOWHERE,
};

/// What is asked of the widest trace with all replies sent twice.
static ALL_TWICE: Asked = Asked {
    name: "all replies sent twice, by themselves",
    matter: Matter::Replies,
    spot: NOWHERE,
};

/// What is said of a trace of several megabytes, and of what is changed in it.
fn tell_widest<R: AllocGlobal + RandomSource + Threads + Wait + Sync>(rt: &R, page: &mut Bytes) {
    let mut trace = run_of(rt, page, &WIDEST);
    let size = if trace.written().len() > 4 << 20 {
        "widest: more than 4 MiB\n"
    } else {
        "widest: no 4 MiB\n"
    };
    page.words(size);
    tell(rt, page, "widest", &trace, NOWHERE);
    tell_call(rt, page, &trace, &AS_IT_IS);
    tell_changes(rt, page, &mut trace);
    tell_sent_again(rt, page, &trace);
}

/// What is said of a run of many windows, and of its trace with all replies sent again, nine times over.
fn tell_windows<R: AllocGlobal + RandomSource + Threads + Wait + Sync>(rt: &R, page: &mut Bytes) {
    let mut trace = run_of(rt, page, &WINDOWS);
    tell(rt, page, "many windows", &trace, NOWHERE);
    let mut sent = WINDOWS.batches as usize;
    for _ in 0..9 {
        trace = sent_again(rt.alloc(), trace.written(), sent);
        page.fail_as(&trace);
        sent = sent.saturating_mul(2);
    }
    let size = if trace.written().len() > 16 << 20 {
        "many replies: more than 16 MiB\n"
    } else {
        "many replies: no 16 MiB\n"
    };
    page.words(size);
    tell(rt, page, "many replies", &trace, NOWHERE);
}

/// Tells what is said at the limits of this name.
pub(crate) fn tell_limits<R: AllocGlobal + RandomSource + Threads + Wait + Sync>(
    rt: &R,
    name: &str,
    page: &mut Bytes,
) {
    match name {
        "greatest" => tell_run(rt, page, name, &GREATEST),
        "longest" => tell_run(rt, page, name, &LONGEST),
        "falling" => tell_run(rt, page, name, &FALLING),
        "many-windows" => tell_windows(rt, page),
        // The request of client 773 gets the client of batch 518: both have the number 0, and lie in the parts of two
        // of the threads that judge the orders.
        "longest-asked-again" => {
            tell_asked_again(rt, page, "a request asked again", &LONGEST, 774)
        }
        "many-clients" => tell_run(rt, page, "many clients", &CLIENTS),
        // The first request of the last batch gets the client of the batch before's first, among more clients than
        // those of which the greatest numbers are kept.
        "many-clients-asked-again" => {
            let name = "a request of many clients asked again";
            tell_asked_again(rt, page, name, &CLIENTS, CLIENTS.batches)
        }
        "most-customers" => tell_customers(rt, page),
        "rolled-back" => tell_reruns(rt, page),
        "widest" => tell_widest(rt, page),
        _ => page.fail(Fault::Word),
    }
}
