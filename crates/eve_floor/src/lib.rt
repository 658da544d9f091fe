//! Stripes behind locks, workers that execute requests on them, and batches that such workers run one after another in
//! threads: what the workers share, how they claim requests and wait for one another, and what they note.
#![tactic(auto)]

mod alone;
mod assignment;
mod batches;
mod executing;
mod fault;
mod floor;
mod gather;
mod progress;
mod seats;
mod shared;
mod task;
mod work;
mod worker;
mod workers;

pub use assignment::{Assignment, crew_size};
pub use batches::run_batches;
pub use executing::{execute, flush};
pub use fault::ExecFault;
pub use floor::Floor;
pub use task::{Task, execute_task};
pub use worker::Worker;
pub use workers::Workers;
