//! Records and chains judged: what a replica's settled attempts amount to.
#![tactic(auto)]

mod bases;
mod changed;
mod gathered;
mod grouped;
mod judgement;
pub mod laws;
mod note;
mod numbered;
mod opening;
mod records;
mod row_walk;
mod rows;
mod section;
mod settled;
mod side_by_side;
mod stretch;

pub use bases::row_in;
pub use judgement::check;
pub use settled::Settled;
