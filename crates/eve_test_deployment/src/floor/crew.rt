//! Two workers, with what their seats are of.

ghost use Rattle.std.specs.Prelude.{◌≡◌, ◌≤◌};
ghost use Rattle.eve_floor.specs.Executing.{IsSeatedAt};

use eve_floor::Worker;
use eve_recorder::{MOST_DRAWN, MOST_QUEUED, Recorder, TakerSeat, TicketSeat, Tickets, WorkerSeat};
use std::alloc::{AllocError, Global};

/// Two workers, one of which is at hand, with the recorder and the tickets of their seats.
#[derive(Drop)]
pub struct Crew {
    pub recorder: Recorder,
    pub tickets: Tickets,
    pub taker: TakerSeat,
    pub hand: Worker,
    pub other: Worker,
    pub ghost hand_at: { IsSeatedAt recorder tickets hand },
    pub ghost other_at: { IsSeatedAt recorder tickets other },
    pub ghost taker_at: { taker.recorder ≡ recorder.recorder },
}

/// A recorder with its seats, given out.
#[derive(Drop)]
struct Desk {
    recorder: Recorder,
    taker: TakerSeat,
    first: WorkerSeat,
    second: WorkerSeat,
    ghost taker_own: { taker.recorder ≡ recorder.recorder },
    ghost first_own: { first.recorder ≡ recorder.recorder },
    ghost second_own: { second.recorder ≡ recorder.recorder },
}

fn desk_of(alloc: Global, room: usize) -> Result<Desk, AllocError>
    requires { (1 ≤ room) × (room ≤ MOST_QUEUED) }
{
    let (recorder, mut seats) = Recorder::new(alloc, 2, room)?;
    let first = seats.worker(0).unwrap();
    let second = seats.worker(1).unwrap();
    let taker = seats.taker().unwrap();
    drop(seats);
    Ok(Desk {
        recorder,
        taker,
        first,
        second,
    })
}

/// Tickets with their seats, given out.
#[derive(Drop)]
struct Drawers {
    tickets: Tickets,
    first: TicketSeat,
    second: TicketSeat,
    ghost first_own: { first.tickets ≡ tickets },
    ghost second_own: { second.tickets ≡ tickets },
}

fn drawers_of(alloc: Global, limit: u64) -> Result<Drawers, AllocError>
    requires { limit ≤ MOST_DRAWN }
{
    let (tickets, mut seats) = Tickets::new(alloc, 2, limit)?;
    let first = seats.seat(0).unwrap();
    let second = seats.seat(1).unwrap();
    drop(seats);
    Ok(Drawers {
        tickets,
        first,
        second,
    })
}

/// Workers 0 and 1, the first of them at hand: a queue with room for 1 to `MOST_QUEUED` records, and a limit of
/// numbers for each, at most `MOST_DRAWN`.
pub fn crew_of(alloc: Global, room: usize, limit: u64) -> Result<Crew, AllocError> {
    if room < 1 || MOST_QUEUED < room || MOST_DRAWN < limit {
        return Err(AllocError);
    }
    let drawers = drawers_of(alloc, limit)?;
    let desk = desk_of(alloc, room)?;
    Ok(Crew {
        recorder: desk.recorder,
        tickets: drawers.tickets,
        taker: desk.taker,
        hand: Worker::new(desk.first, drawers.first),
        other: Worker::new(desk.second, drawers.second),
    })
}
