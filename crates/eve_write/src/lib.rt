//! Traces written: the owned parts of a trace, one call a frame, and whole traces gathered.
#![tactic(auto)]

mod access;
mod access_list;
mod attempt;
mod batch;
mod commit;
mod customer;
mod entries;
mod fields;
mod gathering;
mod head;
pub mod laws;
mod marks;
mod measure;
mod parts;
mod pieces;
mod request;
mod right;
mod rollback;
mod sections;
mod sent;
mod short;
mod spell;
mod step;
mod transfer;
mod vote;

pub use access::{AccessData, write_access};
pub use access_list::{AccessList, write_accesses};
pub use attempt::{AttemptData, write_attempt};
pub use batch::{BatchData, write_batch};
pub use commit::{CommitData, commit_fits, write_commit};
pub use customer::{CustomerData, write_customer};
pub use entries::are_entries;
pub use eve_grammar::TransferData;
pub use gathering::{GatherFault, gather, gather_spelled};
pub use head::write_header;
pub use marks::{write_end, write_replica, write_verifier};
pub use parts::Parts;
pub use request::{RequestData, TransactionData};
pub use rollback::{RollbackData, write_rollback};
pub use sent::{SentData, write_sent};
pub use step::Step;
pub use transfer::{is_right_transfer, write_transfer};
pub use vote::{ChoiceData, VoteData, write_vote};
