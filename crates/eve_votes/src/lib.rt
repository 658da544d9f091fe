//! What the verifiers of a trace decided: who voted for what, and the faults of their votes.
#![tactic(auto)]

mod ballots;
mod decided;
mod decisions;
pub mod laws;
mod majority;
mod sorted_votes;
mod tally;
mod voting;

pub use ballots::is_same_choice;
pub use decided::Decided;
pub use sorted_votes::SortedVotes;
pub use tally::Tally;
