//! What a replica keeps of its rows while attempts are open: the records that were taken of a batch become an attempt
//! or are refused, and attempts are committed or rolled back.
#![tactic(auto)]

mod accesses;
mod fault;
mod groups;
pub mod laws;
mod ledger;
mod noted;
mod opened;
mod order;
mod prefix;
mod replies;
mod restores;
mod rows;
mod taken;
mod walk;

pub use fault::{CloseFault, NotDue, NotOpen};
pub use ledger::Ledger;
pub use prefix::AttemptHead;
