//! Every order in which workers may execute a batch under the locks of its stripes: where each step of a worker is
//! allowed, what it does, what holds of all that may come of them, and a schedule that takes the steps one by one.
#![tactic(auto)]

mod applying;
mod event;
mod fault;
mod groups;
pub mod laws;
mod lists;
mod opening;
mod order;
mod schedule;
mod stage;
mod steps;
mod stripes;

pub use event::Event;
pub use fault::StepFault;
pub use schedule::Schedule;
