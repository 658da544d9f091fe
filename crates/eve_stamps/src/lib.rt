//! Versioned rows in stripes, and what a request does to them at its tick.
#![tactic(auto)]

mod applying;
mod executing;
mod fault;
mod held_row;
mod installing;
mod journal;
pub mod laws;
mod limits;
mod opening;
mod record;
mod rows;
mod span;
mod stamp;
mod stripe;

pub use applying::{apply, apply_two};
pub use fault::StampFault;
pub use held_row::HeldRow;
pub use limits::{MOST_PLACES, STRIPES};
pub use opening::opening_stripe;
pub use record::{AccessRecord, untouched};
pub use span::{Span, span_of};
pub use stamp::Stamp;
pub use stripe::Stripe;
