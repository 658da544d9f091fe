//! Evidence of what was voted, and of what replicas came to: who voted how, and what is due of the outcomes.
#![tactic(auto)]

mod apart;
mod balances;
mod committed;
mod decisions;
mod given;
mod majority;
mod matched;
mod outcome;
mod polls;
mod replicas;
mod restore;
mod second_vote;
mod sent;
mod state;
mod summary;
mod token;
mod votes;

pub use decisions::decisions_evidence;
pub use majority::majority_evidence;
pub use outcome::outcome_evidence;
pub use replicas::{Replicas, all_settled, settled_of};
pub use restore::restore_evidence;
pub use second_vote::voted_again;
pub use sent::reply_evidence;
pub use state::state_evidence;
pub use summary::counts;
pub use token::token_evidence;
