//! The right to draw.

use crate::drawn::CounterSeat;
use std::marker::Model;

/// The right of one thread to draw from the tickets that it came from. Contracts see these tickets, the
/// seat's number among their seats, from 0, and the numbers that were drawn on it, in their order
/// (`Drawer`).
///
/// docs/DEPLOYMENT.md, "Recorder lists, drawn numbers".
#[derive(Drop)]
pub struct TicketSeat {
    pub(crate) place: CounterSeat,
    pub(crate) number: u8,
    pub(crate) left: u64,
    pub(crate) seats: u8,
    pub(crate) limit: u64,
}

impl Model for TicketSeat {
    ghost use Rattle.std.specs.Prelude.{◌≡◌, ◌+◌, ◌<◌, ◌≤◌, [], length};
    ghost use Rattle.eve_recorder.specs.TicketViews.{Drawer, ticket_source};
    ghost use Rattle.eve_recorder.specs.declared.limits.TheConstants.{MOST_DRAWN, MOST_SEATS};

    ghost Value = { Drawer };

    ghost view = { λ s. record {
      tickets = ticket_source s.place.table_id s.seats s.limit;
      number = s.number;
      drawn = s.place.me.0.numbers;
    } };

    ghost invariant = { λ s. (s.place.me.1 ≡ []) × (s.place.me.0.parts ≡ 1)
        × (s.number < s.seats) × (s.seats ≤ MOST_SEATS)
        × (s.left + length s.place.me.0.numbers ≡ s.limit) × (s.limit ≤ MOST_DRAWN) };
}
