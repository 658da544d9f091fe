//! Attempts by running threads, and the run of a whole deployment.
#![tactic(auto)]

mod attempting;
mod fault;
mod opening;
mod replica;
mod run_state;
mod running;
mod sending;
mod server;
mod side_by_side;
mod standing;
mod votes;

pub use eve_attempts;
pub use eve_floor;
pub use eve_workload;
pub use fault::{AttemptFault, CloseFault, CommitFault, RunFault, TransferFault};
pub use replica::Replica;
pub use running::{run, run_consuming};
