//! The workers of a replica.

ghost use Rattle.std.specs.Prelude.{◌≡◌, ◌≤◌, IfOk, vec_len, vec_capacity};
ghost use Rattle.eve_recorder.specs.TicketViews.{fresh_seats};
ghost use Rattle.eve_floor.specs.Crews.{fault_of_lowest};
ghost use Rattle.eve_floor.specs.SharedBatches.{AreSeatedAt};

use crate::ExecFault;
use crate::progress::Progress;
use crate::seats::OwnSeats;
use eve_grammar::MOST_WORKERS;
use eve_recorder::{MOST_DRAWN, TicketSeat, TicketSeats, Tickets};
use std::alloc::{AllocError, Global};
use std::marker::Model;

/// A worker: its seat at the tickets of ticks, and what it has while batches are run.
#[derive(Drop)]
pub(crate) struct Member {
    pub tick: TicketSeat,
    // its seats at each batch that is run, where it has some
    pub parts: Vec<Option<OwnSeats>>,
    // why it gave a request up
    pub fault: Option<ExecFault>,
}

/// The workers of a replica, the tickets from which ticks are drawn, and how far the workers are. Contracts see the
/// tickets and the number of workers (`Workforce`).
#[derive(Drop)]
pub struct Workers {
    pub(crate) ticks: Tickets,
    pub(crate) progress: Progress,
    pub(crate) members: Vec<Member>,
}

impl Model for Workers {
    ghost use Rattle.std.specs.Prelude.{◌≤◌, vec_len};
    ghost use Rattle.eve_floor.specs.Crews.{Workforce};
    ghost use Rattle.eve_floor.specs.SharedBatches.{AreSeatedAt};
    ghost use Rattle.eve_grammar.specs.declared.limits.TheConstants.{MOST_WORKERS};

    ghost Value = { Workforce };

    ghost view = { λ w. record { ticks = w.ticks; many = vec_len w.members } };

    ghost invariant = { λ w. AreSeatedAt w.ticks w.members.items
        × (1 ≤ vec_len w.members) × (vec_len w.members ≤ MOST_WORKERS) };
}

impl Workers {
    /// The given number of workers, at least 1, which have run nothing.
    pub fn new(alloc: Global, many: u8) -> Result<Workers, AllocError>
        requires { (1 ≤ many) × (many ≤ MOST_WORKERS) }
        ensures { IfOk result (λ w. w.many ≡ many) }
    {
        let members = Vec::with_capacity(alloc, many as usize)?;
        let (ticks, seats) = Tickets::new(alloc, many, MOST_DRAWN)?;
        let members = members_of(alloc, &ticks, seats, many, members);
        let progress = Progress::new();
        Ok(Workers {
            ticks,
            progress,
            members,
        })
    }

    /// The number of workers.
    pub fn many(&self) -> u8
        ensures is { result ≡ self.now.many }
        ensures range { (1 ≤ result) × (result ≤ MOST_WORKERS) }
    {
        self.members.len() as u8
    }
}

/// A worker for each of the seats.
fn members_of(
    alloc: Global,
    tickets: &Tickets,
    mut all: TicketSeats,
    workers: u8,
    mut members: Vec<Member>,
) -> Vec<Member>
    requires tickets { tickets.now.seats ≡ workers }
    requires all { all ≡ fresh_seats tickets.now }
    requires few { workers ≤ MOST_WORKERS }
    requires room { (vec_len members ≡ 0) × (workers ≤ vec_capacity members) }
    ensures own { AreSeatedAt tickets.now result.items }
    ensures many { vec_len result ≡ workers }
{
    for number in 0..workers {
        let Some(tick) = all.seat(number) else {
            unreachable!()
        };
        members.push_reserved(Member {
            tick,
            parts: Vec::new(alloc),
            fault: None,
        });
    }
    drop(all);
    members
}

/// Why the lowest worker that gave a request up did.
pub(crate) fn lowest_fault(members: &[Member]) -> Option<ExecFault>
    ensures { result ≡ fault_of_lowest members.now }
{
    for member in members {
        if let Some(why) = member.fault {
            return Some(why);
        }
    }
    None
}
