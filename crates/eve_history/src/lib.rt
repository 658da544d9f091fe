//! Who is a customer, which request came when, and what a replica's section tells: which attempts it committed,
//! discarded or left open, and in which order each ran.
#![tactic(auto)]

mod access_marks;
mod certificate;
mod fate;
mod frame;
mod greatest;
mod history;
mod how_reached;
pub mod laws;
mod order;
mod repeats;
mod structure;
mod wrong;

pub use fate::Fate;
pub use history::{History, recall_all_right};
pub use how_reached::HowReached;
pub use order::orders;
