//! The grammar of traces: what a trace is, its one spelling, and exact readers of every field and tests of every
//! body.
#![tactic(auto)]

mod access;
mod attempt;
mod batch;
mod certificate;
mod commit;
mod customer;
mod entry;
mod fields;
mod fits;
mod frame_kind;
mod head;
pub mod laws;
mod limits;
mod place;
mod places;
mod reply;
mod request;
mod restore;
mod rollback;
mod sent;
mod transfer;
mod versioned;
mod vote;
mod worker_count;

pub use access::is_access_body;
pub use attempt::certificate_len;
pub use batch::batch_number;
pub use certificate::is_certificate;
pub use commit::is_commit_body;
pub use customer::is_customer_body;
pub use entry::{entry_again, row_of};
pub use fields::{number_of, u8_at, u16_at, u32_at, u64_at};
pub use fits::{reply_fits, token_fits};
pub use frame_kind::{
    ACCESS_FRAME, ATTEMPT_FRAME, BATCH_FRAME, COMMIT_FRAME, CUSTOMER_FRAME, END_FRAME,
    FRAME_HEAD_LEN, FrameKind, REPLICA_FRAME, ROLLBACK_FRAME, SENT_FRAME, TRANSFER_FRAME,
    VERIFIER_FRAME, VOTE_FRAME,
};
pub use head::{HEADER_LEN, Head};
pub use limits::{
    MOST_AUDIT_WORKERS, MOST_BATCHES, MOST_BYTES, MOST_CUSTOMERS, MOST_CUSTOMERS_OF_VERSION_1,
    MOST_ENTRIES, MOST_REPLICAS, MOST_REQUESTS, MOST_ROWS, MOST_VERIFIERS, MOST_VERSIONS,
    MOST_WINDOW, MOST_WORKERS, NEWEST_VERSION, most_customers,
};
pub use place::Place;
pub use reply::reply_at;
pub use request::Asked;
pub use restore::{Restore, restore_at};
pub use rollback::is_rollback_body;
pub use sent::is_sent_body;
pub use transfer::{TransferData, is_transfer_body};
pub use versioned::versioned_at;
pub use vote::{Choice, is_vote_body, is_zeros};
pub use worker_count::WorkerCount;
