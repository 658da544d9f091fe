//! How running threads note and gather what they did: a queue of records with a seat per worker and one for the taker,
//! the tickets from which they draw numbers, and the gate that tests hold threads at.
#![tactic(auto)]

mod drawn;
mod limits;
mod passes;
mod recorder;
mod seat_table;
mod seats;
mod taken;
mod taker_seat;
mod ticket_seat;
mod ticket_seats;
mod tickets;
mod worker_seat;

pub use eve_gate::{Gate, OpenGate};
pub use limits::{MOST_DRAWN, MOST_QUEUED, MOST_SEATS};
pub use recorder::{NoteFault, Recorder};
pub use seats::Seats;
pub use taken::Taken;
pub use taker_seat::TakerSeat;
pub use ticket_seat::TicketSeat;
pub use ticket_seats::TicketSeats;
pub use tickets::Tickets;
pub use worker_seat::WorkerSeat;
