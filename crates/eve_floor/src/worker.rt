//! A worker, with its seats and the record that waits.

ghost use Rattle.std.specs.Prelude.{◌≡◌, IfOk, IfErr, IsSome, None, length};
ghost use Rattle.eve_floor.specs.Executing.{Executor};

use eve_recorder::{TicketSeat, WorkerSeat};
use eve_stamps::AccessRecord;
use std::marker::Model;

/// A worker of a floor: its seat at a recorder, its seat at the tickets that give ticks, and the record that waits
/// since the queue was full. Contracts see these three (`Executor`).
///
/// docs/DEPLOYMENT.md, "Executions".
#[derive(Drop)]
pub struct Worker {
    pub(crate) seat: WorkerSeat,
    pub(crate) tickets: TicketSeat,
    pub(crate) waiting: Option<AccessRecord>,
}

impl Model for Worker {
    ghost use Rattle.std.specs.Prelude.{IfSome};
    ghost use Rattle.eve_floor.specs.Executing.{Executor, IsNext};

    ghost Value = { Executor };

    ghost view = { λ w. record { seat = w.seat; tickets = w.tickets; waiting = w.waiting } };

    ghost invariant = { λ w. IfSome w.waiting (IsNext w.seat) };
}

impl Worker {
    /// A worker with these seats, where nothing waits.
    pub fn new(seat: WorkerSeat, tickets: TicketSeat) -> Worker
        ensures { result ≡ record { seat = seat; tickets = tickets; waiting = None } }
    {
        Worker {
            seat,
            tickets,
            waiting: None,
        }
    }

    /// The seats; where a record waits, the `Worker` is returned as it is.
    pub fn into_seats(self) -> Result<(WorkerSeat, TicketSeat), Worker>
        ensures seats { IfOk result (λ s. (s.0 ≡ self.seat) × (s.1 ≡ self.tickets) × (self.waiting ≡ None)) }
        ensures waits { IfErr result (λ w. (w ≡ self) × IsSome self.waiting) }
    {
        if self.waiting.is_some() {
            return Err(self);
        }
        let Worker { seat, tickets, .. } = self;
        Ok((seat, tickets))
    }

    /// Takes out the record that waits; `None`, where none does. It is noted no more, and the worker can be taken
    /// apart.
    pub fn take_waiting(&mut self) -> Option<AccessRecord>
        ensures out { result ≡ self.old.waiting }
        ensures rest { self.new ≡ record self.old { waiting = None } }
    {
        self.waiting.take()
    }

    /// The place of the next record that it notes, from 0.
    pub fn place(&self) -> u32
        ensures { result ≡ length self.now.seat.noted }
    {
        self.seat.place()
    }
}
