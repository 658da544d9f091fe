//! What a worker met when it ran a request, and the record of it.

ghost use Rattle.std.specs.Prelude.{◌<◌};

use crate::ledger::framed::Framed;
use eve_accounts::Names;
use eve_frames::{AccessView, AttemptView};
use eve_grammar::MOST_VERSIONS;
use eve_smallbank::{Reply, Request, UpToThree, touched};
use eve_stamps::{AccessRecord, HeldRow, Stamp, StampFault, Stripe, apply, untouched};
use eve_testing::Text;
use eve_write::BatchData;
use std::alloc::Global;

/// The request that a worker ran, and the worker, place, index and tick that were noted of it; its reply, and what it
/// saw of the rows that it touches.
#[derive(Clone, Copy)]
pub struct Meeting {
    pub asked: u16,
    pub stamp: Stamp,
    pub reply: Reply,
    pub seen: UpToThree<HeldRow>,
}

/// What the attempt's access frames say that workers met, at ticks in the certificate's order.
pub fn meetings_of(alloc: Global, framed: Framed, said: &mut Text) -> Vec<Meeting> {
    let mut met = Vec::new(alloc);
    for place in 0..framed.accesses.len() {
        let meeting = meeting_of(framed.attempt, &framed.accesses.get(place));
        said.stored(met.push(meeting));
    }
    met
}

fn meeting_of(attempt: &AttemptView, access: &AccessView) -> Meeting {
    let index = access.index();
    Meeting {
        asked: index,
        stamp: Stamp {
            worker: access.worker(),
            place: access.place(),
            index,
            tick: rank_of(attempt, index),
        },
        reply: reply_of(attempt, index),
        seen: rows_seen(access),
    }
}

/// The place of the index in the certificate.
fn rank_of(attempt: &AttemptView, index: u16) -> u64 {
    for place in 0..attempt.len() {
        if attempt.index_at(place) == index {
            return place as u64;
        }
    }
    0
}

fn reply_of(attempt: &AttemptView, index: u16) -> Reply {
    if (index as usize) < attempt.len() {
        attempt.reply(index as usize)
    } else {
        Reply::Done
    }
}

fn rows_seen(access: &AccessView) -> UpToThree<HeldRow> {
    let mut seen = UpToThree::new();
    for place in 0..access.len() {
        let entry = access.entry(place);
        if seen.len() < 3 {
            seen.push(HeldRow {
                row: entry.row,
                version: entry.version,
                value: entry.seen,
            });
        }
    }
    seen
}

/// The record of a request that was run on rows as they were met, if they are its rows.
pub fn record_of(
    alloc: Global,
    met: &Meeting,
    batch: &BatchData,
    names: &Names,
    said: &mut Text,
) -> Option<AccessRecord> {
    if let Reply::Aborted(why) = met.reply {
        if met.seen.is_empty() {
            return Some(untouched(why, met.stamp));
        }
    }
    match batch.requests.get(met.asked as usize) {
        Some(asked) => record_on_rows(alloc, met, &asked.request(), names, said),
        None => None,
    }
}

/// The record of this request, run on rows as they were met, if they are its rows.
fn record_on_rows(
    alloc: Global,
    met: &Meeting,
    request: &Request,
    names: &Names,
    said: &mut Text,
) -> Option<AccessRecord> {
    let mut stripe = stripe_of(alloc, &met.seen, said)?;
    match apply(&mut stripe, request, &touched(request, names), met.stamp) {
        Ok(record) => Some(record),
        Err(why) => {
            if why == StampFault::Memory {
                said.refused();
            }
            None
        }
    }
}

/// The stripe of the rows as they were seen. Of three rows the first two are of one customer.
fn stripe_of(alloc: Global, seen: &UpToThree<HeldRow>, said: &mut Text) -> Option<Stripe> {
    match seen.len() {
        1 => of_one(alloc, seen.at(0), said),
        2 => of_two(alloc, seen.at(0), seen.at(1), said),
        3 if seen.at(2).row.number() < seen.at(0).row.number() => {
            of_three(alloc, seen.at(2), seen.at(0), seen.at(1), said)
        }
        3 => of_three(alloc, seen.at(0), seen.at(1), seen.at(2), said),
        _ => None,
    }
}

fn of_one(alloc: Global, row: HeldRow, said: &mut Text) -> Option<Stripe> {
    if row.version > MOST_VERSIONS {
        return None;
    }
    said.made(Stripe::new(alloc, &[row]))
}

fn of_two(alloc: Global, a: HeldRow, b: HeldRow, said: &mut Text) -> Option<Stripe> {
    if a.version > MOST_VERSIONS || b.version > MOST_VERSIONS {
        return None;
    }
    if a.row.number() >= b.row.number() {
        return None;
    }
    said.made(Stripe::new(alloc, &[a, b]))
}

fn of_three(alloc: Global, a: HeldRow, b: HeldRow, c: HeldRow, said: &mut Text) -> Option<Stripe> {
    if a.version > MOST_VERSIONS || b.version > MOST_VERSIONS || c.version > MOST_VERSIONS {
        return None;
    }
    if a.row.number() >= b.row.number() || b.row.number() >= c.row.number() {
        return None;
    }
    said.made(Stripe::new(alloc, &[a, b, c]))
}
