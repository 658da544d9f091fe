//! What is judged of a replica's committed batches and rollbacks, and of all replicas together.
#![tactic(auto)]

mod agreement;
mod batch_replies;
mod batch_request_ids;
mod due_tokens;
mod first_seen;
mod hashed_rows;
pub mod laws;
mod majority;
mod replica;
mod restores;
mod sent_replies;
mod shown_tokens;
mod wrong_restore;

pub use agreement::{committed_attempt, equal_balances, has_committed, transferred_state};
pub use due_tokens::tokens;
pub use majority::majorities;
pub use restores::rollbacks;
pub use sent_replies::{replies, replies_side_by_side};
pub use shown_tokens::{Peer, tokens_beside};
pub use wrong_restore::{WrongRestore, first_wrong_restore};
