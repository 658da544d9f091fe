//! The verdict on a trace, with what shows it.
#![tactic(auto)]

mod explained;
mod explaining;
mod names;
mod outcomes;
mod phase;
mod replicas;

pub use eve_evidence::{
    AccessFault, AttemptFault, BodyField, CertificateFault, CommitFault, Counts, Evidence,
    FrameFault, GivenBy, HeadField, LengthFault, Numbers, OutcomeFault, Poll, RecordFault,
    RecordsBefore, ReplicaCounts, RestoreFault, RollbackFault, SecondVote, SentFault, Source,
    StateFault, TokenMatch, ToldAttempt, ToldDecision, ToldRequest, ToldRow, ToldSent, ToldState,
    ToldTransfer, TransferFault, TransferPoll, VerifierChoice, VerifierVote, WrongEntry,
};
pub use explained::Explained;
pub use explaining::explain;
