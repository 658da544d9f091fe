//! The seats that are not given out.

ghost use Rattle.std.specs.Prelude.{◌≡◌, ◌↔◌, IfSome, IsTrue, None, Some, slice_set, slice_index_or};
ghost use Rattle.eve_recorder.specs.TicketViews.{Drawers, HasAllDrawers};

use crate::drawn::CounterSeat;
use crate::seat_table::SeatTable;
use crate::ticket_seat::TicketSeat;
use std::marker::Model;

/// Eight places for the seats of tickets, from 0. A seat lies at its number until it is given out, and
/// again once it is given back. Contracts see which tickets they are, and what lies at each place
/// (`Drawers`).
///
/// docs/DEPLOYMENT.md, "Recorder lists, drawn numbers".
#[derive(Drop)]
pub struct TicketSeats {
    pub(crate) rest: CounterSeat,
    pub(crate) table: SeatTable<TicketSeat>,
    pub(crate) seats: u8,
    pub(crate) limit: u64,
}

impl Model for TicketSeats {
    ghost use Rattle.std.specs.Prelude.{◌≡◌, ◌-◌, ◌≤◌, []};
    ghost use Rattle.eve_recorder.specs.CounterRule.{drawn, all_parts};
    ghost use Rattle.eve_recorder.specs.SeatTables.{seats_in_table};
    ghost use Rattle.eve_recorder.specs.TicketViews.{Drawers, AreDrawersSeated, ticket_source};
    ghost use Rattle.eve_recorder.specs.declared.limits.TheConstants.{MOST_DRAWN, MOST_SEATS};

    ghost Value = { Drawers };

    ghost view = { λ s. record {
      tickets = ticket_source s.rest.table_id s.seats s.limit;
      places = seats_in_table s.table;
    } };

    ghost invariant = { λ s. (s.rest.me.1 ≡ []) × (s.rest.me.0 ≡ drawn (all_parts - s.seats) [])
        × (s.seats ≤ MOST_SEATS) × (s.limit ≤ MOST_DRAWN)
        × AreDrawersSeated (ticket_source s.rest.table_id s.seats s.limit) (seats_in_table s.table) };
}

impl TicketSeats {
    /// Gives out the seat with this number, from 0; None exactly where it is not there.
    pub fn seat(&mut self, number: u8) -> Option<TicketSeat>
        ensures out { result ≡ slice_index_or self.old.places number None }
        ensures rest { self.new ≡ record self.old { places = slice_set self.old.places number None } }
        ensures tickets { IfSome result (λ s. s.tickets ≡ self.old.tickets) }
        ensures number { IfSome result (λ s. s.number ≡ number) }
    {
        self.table.take(number)
    }

    /// Takes a seat of these tickets back, to its place.
    pub fn give_back(&mut self, seat: TicketSeat)
        requires { seat.tickets ≡ self.old.tickets }
        ensures { self.new ≡ record self.old { places = slice_set self.old.places seat.number (Some seat) } }
    {
        let number = seat.number;
        self.table.put(number, seat);
    }

    /// Whether every seat is back.
    pub fn whole(&self) -> bool
        ensures { IsTrue result ↔ HasAllDrawers self.now }
    {
        self.table.has_below(self.seats)
    }
}
