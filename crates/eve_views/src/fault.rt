//! What is wrong with a trace, and where.

ghost use Rattle.std.specs.Prelude.{◌≡◌};
ghost use Rattle.eve_views.specs.Code.{code_number, phase_of, code_name};
ghost use Rattle.eve_views.specs.declared.fault.CheckFault.TheVariants.{Memory};

use std::alloc::{AllocError, AllocFailed};

/// What can be wrong with a trace, in the order of the numbers.
///
/// docs/MODEL.md, "Faults", says where each stands.
#[derive(Clone, Copy, Debug, PartialEq, Eq)]
pub enum Code {
    /// The bytes are too few, too many, or not as many as the header says.
    Length,
    /// The bytes don't begin as a trace does.
    Magic,
    /// The header's version, its zero bytes or one of its limits is wrong.
    Head,
    /// No frame that may stand there lies there as a whole.
    Frame,
    /// The frame's body differs from what its kind has to say.
    Body,
    /// An earlier customer has the name.
    SameName,
    /// An earlier request has the client and the number.
    SameRequest,
    /// The attempt's batch, view, mode or number of requests is not the one that is due.
    Attempt,
    /// The certificate is no order that keeps the groups, or, in serial mode, isn't the listed order.
    Certificate,
    /// The worker or the request's index is none that may be there.
    Access,
    /// The worker's places don't count from 0.
    WorkerOrder,
    /// The commit is not that of the first open attempt.
    Commit,
    /// The rollback's number or view is not the one that is due.
    Rollback,
    /// The number or the view of the state that is transferred is none that may be there.
    Transfer,
    /// The record doesn't fit its request.
    Record,
    /// An entry sees another version than the one that is visible.
    Version,
    /// An entry sees another value than the one that is visible.
    Value,
    /// The restores are not the rows that the discarded attempts wrote, as they are committed.
    Restore,
    /// The token is not that of the balances and the replies.
    Token,
    /// The verifier has an earlier vote on this batch in this view.
    TwoVotes,
    /// Two views of the batch are decided as commit.
    TwoDecisions,
    /// Too few verifiers voted for what was committed.
    NoMajority,
    /// Too few verifiers voted for the rollback.
    RollbackNoMajority,
    /// Too few verifiers voted for a commit of the state that is transferred.
    TransferNoMajority,
    /// The balances or the replies differ from those of another replica.
    Outcome,
    /// The state that is transferred is not the one that a replica committed.
    TransferBalances,
    /// The replica gave no such reply in a committed batch.
    Reply,
}

impl Code {
    /// The word that is printed for it.
    pub fn name(self) -> &'static str
        ensures { result.now ≡ code_name self }
    {
        match self {
            Code::Length => "Length",
            Code::Magic => "Magic",
            Code::Head => "Head",
            Code::Frame => "Frame",
            Code::Body => "Body",
            Code::SameName => "SameName",
            Code::SameRequest => "SameRequest",
            Code::Attempt => "Attempt",
            Code::Certificate => "Certificate",
            Code::Access => "Access",
            Code::WorkerOrder => "WorkerOrder",
            Code::Commit => "Commit",
            Code::Rollback => "Rollback",
            Code::Transfer => "Transfer",
            Code::Record => "Record",
            Code::Version => "Version",
            Code::Value => "Value",
            Code::Restore => "Restore",
            Code::Token => "Token",
            Code::TwoVotes => "TwoVotes",
            Code::TwoDecisions => "TwoDecisions",
            Code::NoMajority => "NoMajority",
            Code::RollbackNoMajority => "RollbackNoMajority",
            Code::TransferNoMajority => "TransferNoMajority",
            Code::Outcome => "Outcome",
            Code::TransferBalances => "TransferBalances",
            Code::Reply => "Reply",
        }
    }

    /// The number that is printed for it after an F.
    pub fn number(self) -> u8
        ensures { result ≡ code_number self }
    {
        match self {
            Code::Length => 1,
            Code::Magic => 2,
            Code::Head => 3,
            Code::Frame => 4,
            Code::Body => 5,
            Code::SameName => 10,
            Code::SameRequest => 11,
            Code::Attempt => 20,
            Code::Certificate => 21,
            Code::Access => 22,
            Code::WorkerOrder => 23,
            Code::Commit => 24,
            Code::Rollback => 25,
            Code::Transfer => 26,
            Code::Record => 30,
            Code::Version => 40,
            Code::Value => 41,
            Code::Restore => 50,
            Code::Token => 60,
            Code::TwoVotes => 70,
            Code::TwoDecisions => 71,
            Code::NoMajority => 72,
            Code::RollbackNoMajority => 73,
            Code::TransferNoMajority => 74,
            Code::Outcome => 80,
            Code::TransferBalances => 81,
            Code::Reply => 90,
        }
    }

    /// The phase in which it is judged, from 1.
    pub fn phase(self) -> u8
        ensures { result ≡ phase_of self }
    {
        match self {
            Code::Length | Code::Magic | Code::Head | Code::Frame | Code::Body => 1,
            Code::SameName | Code::SameRequest => 2,
            Code::Attempt | Code::Certificate | Code::Access => 3,
            Code::WorkerOrder | Code::Commit | Code::Rollback | Code::Transfer => 3,
            Code::Record => 4,
            Code::Version | Code::Value => 5,
            Code::Restore => 6,
            Code::Token => 7,
            Code::TwoVotes | Code::TwoDecisions => 8,
            Code::NoMajority | Code::RollbackNoMajority | Code::TransferNoMajority => 9,
            Code::Outcome | Code::TransferBalances => 10,
            Code::Reply => 11,
        }
    }
}

/// A fault, where it stands, and in whose section.
#[derive(Clone, Copy, Debug, PartialEq, Eq)]
pub struct Fault {
    /// What is wrong.
    pub code: Code,
    /// The byte at which it stands, or the number of bytes, where it stands at their end.
    pub offset: u64,
    /// The replica in whose section that byte lies; `None` outside sections and at faults of form.
    pub replica: Option<u8>,
}

/// Why a check doesn't answer Ok: what it looks for was found, or memory was refused.
#[derive(Debug, Drop)]
pub enum CheckFault {
    /// The first fault of those that the check looks for.
    Found(Fault),
    /// Memory was refused, which decides nothing.
    Memory,
}

impl From<AllocError> for CheckFault {
    ghost from_gives = { λ _ e. e ≡ Memory };

    fn from(_e: AllocError) -> CheckFault {
        CheckFault::Memory
    }
}

impl<T: Drop> From<AllocFailed<T>> for CheckFault {
    ghost from_gives = { λ _ e. e ≡ Memory };

    fn from(_e: AllocFailed<T>) -> CheckFault {
        CheckFault::Memory
    }
}
