//! The gate at which a test may hold a thread before a piece of its work.
#![tactic(auto)]

mod gate;

pub use gate::{Gate, OpenGate};
