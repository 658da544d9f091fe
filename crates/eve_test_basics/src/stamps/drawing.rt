//! Tickets: what each call gives where seats are given out and back, and two threads that draw from the same ones.

ghost use Rattle.std.specs.Prelude.{◌≡◌, ◌≤◌};

use eve_recorder::{MOST_DRAWN, MOST_SEATS, TicketSeat, TicketSeats, Tickets};
use eve_testing::Seen;
use std::alloc::{AllocError, Global};
use std::thread::{Threads, join};

/// What has to be so of the tickets.
enum Due {
    /// All seats are there.
    Whole,
    /// The seat with this number is there, once, and its next draw gives this.
    Draws(u8, Option<u64>),
    /// There is no seat with this number.
    Lacks(u8),
    /// Two threads draw three numbers each, on the first two seats: 0 to 5, each once.
    AtOnce,
}

/// What has to be so, and in words.
struct Want(Due, &'static str);

/// How many seats there are, how many numbers each may draw, what has to be so, in this order, and how many numbers are
/// drawn at the end.
pub struct Case {
    seats: u8,
    limit: u64,
    wants: &'static [Want],
    drawn: u64,
}

/// Each of eight seats is there once, and again once it is back; there is no ninth.
pub const EIGHT_SEATS: Case = Case {
    seats: 8,
    limit: 2,
    wants: &[
        Want(Due::Whole, "all seats are there"),
        Want(Due::Draws(0, Some(0)), "seat 0 is there and draws 0"),
        Want(Due::Whole, "seat 0 is back"),
        Want(Due::Draws(1, Some(1)), "seat 1 is there and draws 1"),
        Want(Due::Whole, "seat 1 is back"),
        Want(Due::Draws(2, Some(2)), "seat 2 is there and draws 2"),
        Want(Due::Whole, "seat 2 is back"),
        Want(Due::Draws(3, Some(3)), "seat 3 is there and draws 3"),
        Want(Due::Whole, "seat 3 is back"),
        Want(Due::Draws(4, Some(4)), "seat 4 is there and draws 4"),
        Want(Due::Whole, "seat 4 is back"),
        Want(Due::Draws(5, Some(5)), "seat 5 is there and draws 5"),
        Want(Due::Whole, "seat 5 is back"),
        Want(Due::Draws(6, Some(6)), "seat 6 is there and draws 6"),
        Want(Due::Whole, "seat 6 is back"),
        Want(Due::Draws(7, Some(7)), "seat 7 is there and draws 7"),
        Want(Due::Lacks(8), "there is no ninth seat"),
    ],
    drawn: 8,
};

/// Where a seat may draw nothing, its first draw is none.
pub const LIMIT_ZERO: Case = Case {
    seats: 1,
    limit: 0,
    wants: &[
        Want(Due::Draws(0, None), "the first draw is none"),
        Want(Due::Lacks(1), "there is no second seat"),
    ],
    drawn: 0,
};

/// Six draws of two threads are 0 to 5, each once; a seventh is none.
pub const TWO_SEATS: Case = Case {
    seats: 2,
    limit: 3,
    wants: &[
        Want(Due::AtOnce, "each number is drawn once"),
        Want(Due::Draws(0, None), "there is no more on the first seat"),
        Want(Due::Draws(1, None), "nor on the second"),
    ],
    drawn: 6,
};

/// Tickets with those of their seats that aren't given out.
#[derive(Drop)]
struct Counter {
    tickets: Tickets,
    seats: TicketSeats,
    ghost own: { seats.tickets ≡ tickets },
}

fn counter_of(alloc: Global, seats: u8, limit: u64) -> Result<Counter, AllocError>
    requires { (seats ≤ MOST_SEATS) × (limit ≤ MOST_DRAWN) }
{
    let (tickets, seats) = Tickets::new(alloc, seats, limit)?;
    Ok(Counter { tickets, seats })
}

impl Counter {
    /// Whether the seat with this number is there, once, and its next draw gives this.
    fn draws(&mut self, number: u8, due: &Option<u64>) -> bool {
        let Some(mut seat) = self.seats.seat(number) else {
            return false;
        };
        let is_there_once = self.seats.seat(number).is_none();
        let drawn = self.tickets.draw(&mut seat);
        self.seats.give_back(seat);
        is_there_once && drawn == *due
    }

    /// Two threads draw three numbers each, on the first two seats. Whether these are 0 to 5, each once.
    fn draws_at_once<R: Threads + Sync>(&mut self, rt: &R) -> bool {
        let Some(one) = self.seats.seat(0) else {
            return false;
        };
        let Some(two) = self.seats.seat(1) else {
            self.seats.give_back(one);
            return false;
        };
        let (one, two) = draw_at_once(rt, &self.tickets, one, two);
        let times = one.times.wrapping_add(two.times);
        self.seats.give_back(one.seat);
        self.seats.give_back(two.seat);
        times == 0x11_1111
    }

    /// Whether it is as it is due.
    fn is_so<R: Threads + Sync>(&mut self, rt: &R, due: &Due) -> bool {
        match due {
            Due::Whole => self.seats.whole(),
            Due::Draws(number, due) => self.draws(*number, due),
            Due::Lacks(number) => self.seats.seat(*number).is_none(),
            Due::AtOnce => self.draws_at_once(rt),
        }
    }

    /// Whether `due` numbers were drawn; false where a seat is missing.
    fn has_drawn(self, due: u64) -> bool {
        let Counter { tickets, seats } = self;
        seats.whole() && tickets.close(seats) == due
    }
}

/// Looks at the case. Where memory is refused for the tickets, it is asked for once more.
pub fn play<R: Threads + Sync>(rt: &R, alloc: Global, case: &Case, seen: &mut Seen) {
    if MOST_SEATS < case.seats || MOST_DRAWN < case.limit {
        return seen.want(false, "the tickets are within the limits");
    }
    let counter = match counter_of(alloc, case.seats, case.limit) {
        Err(AllocError) => counter_of(alloc, case.seats, case.limit),
        counter => counter,
    };
    let Ok(mut counter) = counter else {
        return seen.needs(false);
    };
    for want in case.wants {
        seen.want(counter.is_so(rt, &want.0), want.1);
    }
    seen.want(counter.has_drawn(case.drawn), "so many numbers were drawn");
}

/// A seat, and how often each number was drawn on it: the times of 0 are the last digit to the base 16, those of 1 the
/// digit before, and so on.
#[derive(Drop)]
struct Drawn {
    seat: TicketSeat,
    times: u64,
}

/// Draws three numbers on the seat.
fn draw_three(tickets: &Tickets, mut seat: TicketSeat) -> Drawn
    requires { seat.tickets ≡ tickets.now }
    ensures { result.seat.tickets ≡ tickets.now }
{
    let mut times: u64 = 0;
    for _ in 0..3u8 {
        match tickets.draw(&mut seat) {
            Some(number) if number < 16 => times = times.wrapping_add(1 << (4 * number)),
            _ => {}
        }
    }
    Drawn { seat, times }
}

/// Three draws on each of two seats, in two threads.
fn draw_at_once<R: Threads + Sync>(
    rt: &R,
    tickets: &Tickets,
    one: TicketSeat,
    two: TicketSeat,
) -> (Drawn, Drawn)
    requires one { one.tickets ≡ tickets.now }
    requires two { two.tickets ≡ tickets.now }
    ensures one { result.0.seat.tickets ≡ tickets.now }
    ensures two { result.1.seat.tickets ≡ tickets.now }
{
    join(
        rt,
        move ||
            requires { one.tickets ≡ tickets.now }
            ensures { result.seat.tickets ≡ tickets.entry.now }
        { draw_three(tickets, one) },
        move ||
            requires { two.tickets ≡ tickets.now }
            ensures { result.seat.tickets ≡ tickets.entry.now }
        { draw_three(tickets, two) },
    )
}
