//! Views of single frames: each lends its bytes, and reads its fields where they stand.
#![tactic(auto)]

mod access;
mod again;
mod attempt;
mod batch;
mod certificate;
mod commit;
mod customer;
mod entries;
mod frame;
pub mod laws;
mod replies;
mod requests;
mod restores;
mod rollback;
mod rows;
mod sent;
mod transfer;
mod vote;

pub use access::AccessView;
pub use attempt::AttemptView;
pub use batch::BatchView;
pub use certificate::Certificate;
pub use commit::CommitView;
pub use customer::CustomerView;
pub use entries::Entries;
pub use frame::FrameView;
pub use replies::Replies;
pub use requests::Requests;
pub use restores::Restores;
pub use rollback::RollbackView;
pub use rows::Rows;
pub use sent::SentView;
pub use transfer::TransferView;
pub use vote::VoteView;
