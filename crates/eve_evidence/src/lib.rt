//! Evidence of a fault: what is wrong at its frame, what was due there, and what says so.
#![tactic(auto)]

mod certificate;
mod chain;
mod course;
mod evidence;
mod items;
pub mod laws;
mod prefix;
mod record;
mod section;
mod seen;
mod site;
mod sought;
mod sources;
mod structure;
mod told;

pub use evidence::{
    AccessFault, AttemptFault, BodyField, CertificateFault, CommitFault, Counts, Evidence,
    FRAME_KINDS, FrameFault, GivenBy, HeadField, LengthFault, Numbers, OutcomeFault, Poll,
    REPLICAS, RecordFault, RecordsBefore, ReplicaCounts, RestoreFault, RollbackFault, SecondVote,
    SeenFrom, SentFault, Source, StateFault, TokenMatch, ToldAttempt, ToldDecision, ToldRequest,
    ToldRow, ToldSent, ToldState, ToldTransfer, TransferFault, TransferPoll, VERIFIERS,
    VerifierChoice, VerifierVote, WrongEntry, frame_kinds,
};
pub use items::item_at;
pub use section::section_evidence;
pub use told::{has_id, reply_of, told_attempt, told_request, told_row, told_transfer};
