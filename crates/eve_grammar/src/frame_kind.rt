//! The kinds of frames.

/// Bytes of a frame before its body: its kind, and the length of the body.
///
/// docs/TRACE.md, "Frames".
pub const FRAME_HEAD_LEN: usize = 5;

/// The byte that a Customer frame begins with.
pub const CUSTOMER_FRAME: u8 = 0x01;

/// The byte that a Batch frame begins with.
pub const BATCH_FRAME: u8 = 0x02;

/// The byte that a Replica frame begins with.
pub const REPLICA_FRAME: u8 = 0x10;

/// The byte that an Attempt frame begins with.
pub const ATTEMPT_FRAME: u8 = 0x11;

/// The byte that an Access frame begins with.
pub const ACCESS_FRAME: u8 = 0x12;

/// The byte that a Commit frame begins with.
pub const COMMIT_FRAME: u8 = 0x13;

/// The byte that a Rollback frame begins with.
pub const ROLLBACK_FRAME: u8 = 0x14;

/// The byte that a Transfer frame begins with: no frame of version 1.
pub const TRANSFER_FRAME: u8 = 0x15;

/// The byte that a Verifier frame begins with.
pub const VERIFIER_FRAME: u8 = 0x20;

/// The byte that a Vote frame begins with.
pub const VOTE_FRAME: u8 = 0x21;

/// The byte that a Sent frame begins with.
pub const SENT_FRAME: u8 = 0x30;

/// The byte that an End frame begins with.
pub const END_FRAME: u8 = 0x7F;

/// What a frame is, by the byte that it begins with.
///
/// docs/TRACE.md, "Frames".
#[derive(Clone, Copy, PartialEq, Eq)]
pub enum FrameKind {
    /// A customer's name and opening balances.
    Customer = CUSTOMER_FRAME as isize,
    /// A batch of requests.
    Batch = BATCH_FRAME as isize,
    /// The first of a replica's section.
    Replica = REPLICA_FRAME as isize,
    /// An execution of a batch; its access frames follow.
    Attempt = ATTEMPT_FRAME as isize,
    /// What a worker noted of a request.
    Access = ACCESS_FRAME as isize,
    /// The first open attempt is committed.
    Commit = COMMIT_FRAME as isize,
    /// The open attempts are discarded.
    Rollback = ROLLBACK_FRAME as isize,
    /// A state that was transferred to the replica.
    Transfer = TRANSFER_FRAME as isize,
    /// The first of a verifier's part.
    Verifier = VERIFIER_FRAME as isize,
    /// A verifier's vote.
    Vote = VOTE_FRAME as isize,
    /// A reply that a replica sent.
    Sent = SENT_FRAME as isize,
    /// The last.
    End = END_FRAME as isize,
}

impl FrameKind {
    ghost use Rattle.std.specs.Prelude.{◌≡◌, IfSome, IfNone};
    ghost use Rattle.eve_grammar.specs.Kinds.{kind_byte, BeginsNone};

    /// The kind of the frames that begin with this byte, and `None` where no kind has it.
    #[inline(always)]
    pub fn of(byte: u8) -> Option<FrameKind>
        ensures kind { IfSome result (λ kind. kind_byte kind ≡ byte) }
        ensures none { IfNone result (BeginsNone byte) }
    {
        match byte {
            CUSTOMER_FRAME => Some(FrameKind::Customer),
            BATCH_FRAME => Some(FrameKind::Batch),
            REPLICA_FRAME => Some(FrameKind::Replica),
            ATTEMPT_FRAME => Some(FrameKind::Attempt),
            ACCESS_FRAME => Some(FrameKind::Access),
            COMMIT_FRAME => Some(FrameKind::Commit),
            ROLLBACK_FRAME => Some(FrameKind::Rollback),
            TRANSFER_FRAME => Some(FrameKind::Transfer),
            VERIFIER_FRAME => Some(FrameKind::Verifier),
            VOTE_FRAME => Some(FrameKind::Vote),
            SENT_FRAME => Some(FrameKind::Sent),
            END_FRAME => Some(FrameKind::End),
            _ => None,
        }
    }

    /// The byte that frames of the kind begin with.
    pub fn byte(self) -> u8
        ensures { result ≡ kind_byte self }
    {
        self as u8
    }
}
