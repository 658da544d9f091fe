//! The counter, and what draws from it.

ghost use Rattle.std.specs.Prelude.{◌≡◌, ◌+◌, ◌-◌, ◌<◌, ◌≤◌, ◌↔◌, [], ◌∷◌, ◌++◌, length, min, All, IfNone, IfOk};
ghost use Rattle.std.specs.Prelude.{IfSome, IsNone, IsPermutation, IsSome};
ghost use Rattle.std.specs.List.{range_with_len};
ghost use Rattle.eve_recorder.specs.CounterRule.{drawn, all_parts};
ghost use Rattle.eve_recorder.specs.TicketViews.{TicketSource, all_drawn, drawn_on, fresh_seat, fresh_seats};
ghost use Rattle.eve_recorder.specs.TicketViews.{HasAllDrawers};

use crate::drawn::{Counter, CounterSeat, Draw, OnePart};
use crate::limits::{MOST_DRAWN, MOST_SEATS};
use crate::seat_table::SeatTable;
use crate::ticket_seat::TicketSeat;
use crate::ticket_seats::TicketSeats;
use std::alloc::{AllocError, Global};
use std::marker::Model;

/// A counter from which threads draw numbers: 0, 1, 2 and so on, each once. Contracts see which tickets
/// they are, how many seats they have, and how many numbers each seat may draw (`TicketSource`).
///
/// docs/DEPLOYMENT.md, "Recorder lists, drawn numbers".
#[derive(Drop)]
pub struct Tickets {
    counter: Counter,
    seats: u8,
    limit: u64,
}

impl Model for Tickets {
    ghost use Rattle.std.specs.Prelude.{◌≡◌, ◌≤◌};
    ghost use Rattle.eve_recorder.specs.TicketViews.{TicketSource, ticket_source};
    ghost use Rattle.eve_recorder.specs.declared.limits.TheConstants.{MOST_DRAWN, MOST_SEATS};

    ghost Value = { TicketSource };

    ghost view = { λ t. ticket_source t.counter.shared.table_id t.seats t.limit };

    ghost invariant = { λ t. (t.counter.shared.table_id.words ≡ 1)
        × (t.counter.shared.table_id.slots ≡ 0) × (t.seats ≤ MOST_SEATS) × (t.limit ≤ MOST_DRAWN) };
}

impl Tickets {
    /// Tickets and their seats, at most `MOST_SEATS`. Each seat may draw `limit` numbers, at most `MOST_DRAWN`. Nothing
    /// is drawn yet.
    pub fn new(alloc: Global, seats: u8, limit: u64) -> Result<(Tickets, TicketSeats), AllocError>
        requires seats { seats ≤ MOST_SEATS }
        requires limit { limit ≤ MOST_DRAWN }
        ensures seats { IfOk result (λ r. r.0.seats ≡ seats) }
        ensures limit { IfOk result (λ r. r.0.limit ≡ limit) }
        ensures fresh { IfOk result (λ r. r.1 ≡ fresh_seats r.0) }
    {
        let (counter, mut rest) = Counter::of_words(alloc, &[0], &())?;
        let tickets = Tickets {
            counter,
            seats,
            limit,
        };
        let table = SeatTable {
            s0: tickets.split_off(&mut rest, 0),
            s1: tickets.split_off(&mut rest, 1),
            s2: tickets.split_off(&mut rest, 2),
            s3: tickets.split_off(&mut rest, 3),
            s4: tickets.split_off(&mut rest, 4),
            s5: tickets.split_off(&mut rest, 5),
            s6: tickets.split_off(&mut rest, 6),
            s7: tickets.split_off(&mut rest, 7),
        };
        let all = TicketSeats {
            rest,
            table,
            seats,
            limit,
        };
        Ok((tickets, all))
    }

    /// The next number of these tickets, above all that this seat drew. No other draw returns it: `close` says so of
    /// all seats together. None exactly where this seat has drawn its limit, and then nothing changes. It is one step
    /// of the counter, and waits for no other thread.
    pub fn draw(&self, seat: &mut TicketSeat) -> Option<u64>
        requires { seat.old.tickets ≡ self.now }
        ensures drawn { IfSome result (λ n.
            seat.new ≡ record seat.old { drawn = seat.old.drawn ++ n ∷ [] }) }
        ensures rising { IfSome result (λ n. All (λ d. d < n) seat.old.drawn) }
        ensures spent { IsNone result ↔ (length seat.old.drawn ≡ self.now.limit) }
        ensures same { IfNone result (seat.new ≡ seat.old) }
    {
        if seat.left == 0 {
            return None;
        }
        let number = self.counter.shared.fetch_add::<Draw>(&mut seat.place, 0, 1);
        seat.left -= 1;
        Some(number)
    }

    /// Ends the tickets once every seat is back, and returns how many numbers were drawn: n, where the lists of all
    /// seats together are the numbers 0..n-1, each once.
    pub fn close(self, seats: TicketSeats) -> u64
        requires tickets { seats.tickets ≡ self }
        requires whole { HasAllDrawers seats }
        ensures { IsPermutation (all_drawn seats) (range_with_len 0 result) }
    {
        let TicketSeats {
            mut rest,
            table,
            ..
        } = seats;
        let SeatTable {
            s0,
            s1,
            s2,
            s3,
            s4,
            s5,
            s6,
            s7,
        } = table;
        self.join_back(&mut rest, s0, 0);
        self.join_back(&mut rest, s1, 1);
        self.join_back(&mut rest, s2, 2);
        self.join_back(&mut rest, s3, 3);
        self.join_back(&mut rest, s4, 4);
        self.join_back(&mut rest, s5, 5);
        self.join_back(&mut rest, s6, 6);
        self.join_back(&mut rest, s7, 7);
        let Tickets { counter, .. } = self;
        let closed = counter.close_with(rest);
        let n = closed.word(0);
        closed.free();
        n
    }

    /// Splits the seat with this number off, if there is to be one. What stays has a part less for each.
    fn split_off(&self, rest: &mut CounterSeat, number: u8) -> Option<TicketSeat>
        requires table { rest.old.table_id ≡ self.now.table }
        requires rest { rest.old.me ≡ (drawn (all_parts - min self.now.seats number) [], []) }
        requires number { number < MOST_SEATS }
        ensures table { rest.new.table_id ≡ rest.old.table_id }
        ensures rest { rest.new.me ≡ (drawn (all_parts - min self.now.seats (number + 1)) [], []) }
        ensures seat { result ≡ fresh_seat self.now number }
    {
        if number >= self.seats {
            return None;
        }
        let place = self.counter.shared.split_seat::<OnePart>(rest);
        Some(TicketSeat {
            place,
            number,
            left: self.limit,
            seats: self.seats,
            limit: self.limit,
        })
    }

    /// Joins the seat with this number, if there is to be one, to the part that stayed.
    fn join_back(&self, rest: &mut CounterSeat, seat: Option<TicketSeat>, number: u8)
        requires table { rest.old.table_id ≡ self.now.table }
        requires there { number < self.now.seats → IsSome seat }
        requires own { IfSome seat (λ s. (s.tickets ≡ self.now) × (number < self.now.seats)) }
        ensures table { rest.new.table_id ≡ rest.old.table_id }
        ensures parts { rest.new.me.0.parts + min self.now.seats number
            ≡ rest.old.me.0.parts + min self.now.seats (number + 1) }
        ensures numbers { rest.new.me.0.numbers ≡ rest.old.me.0.numbers ++ drawn_on seat }
    {
        if let Some(seat) = seat {
            let TicketSeat { place, .. } = seat;
            self.counter.shared.join_seat::<OnePart>(rest, place);
        }
    }
}
