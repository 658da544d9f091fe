//! What shows why the verdict on a trace is no.

ghost use Rattle.std.specs.Prelude.{◌≡◌};
ghost use Rattle.eve_evidence.specs.FrameKinds.{all_kinds};

use eve_accounts::{Cents, Row};
use eve_grammar::{Asked, Choice, FrameKind, MOST_REPLICAS, MOST_VERIFIERS};
use eve_smallbank::{Kind, Reply, Versioned};

/// An attempt, as its own frame says it.
#[derive(Clone, Copy)]
pub struct ToldAttempt {
    /// The number of its batch.
    pub batch: u32,
    /// Its view.
    pub view: u32,
    /// Whether its mode is serial.
    pub serial: bool,
    /// The byte at which its frame begins.
    pub at: u64,
}

/// A state that was transferred, as its own frame says it.
#[derive(Clone, Copy)]
pub struct ToldTransfer {
    /// The number of its batch.
    pub batch: u32,
    /// Its view.
    pub view: u32,
    /// The byte at which its frame begins.
    pub at: u64,
}

/// A reply that was sent, as its own frame says it.
#[derive(Clone, Copy)]
pub struct ToldSent {
    /// The client.
    pub client: u32,
    /// The number of the client's request.
    pub number: u64,
    /// The replica whose reply it is.
    pub replica: u8,
    /// The number of the batch.
    pub batch: u32,
    /// The reply.
    pub reply: Reply,
}

/// A request of a batch.
#[derive(Clone, Copy)]
pub struct ToldRequest<'a> {
    /// Its index in the batch, from 0.
    pub index: u16,
    /// The number of the batch, from 1.
    pub batch: u32,
    /// The client, its number, and what is asked for.
    pub asked: Asked<'a>,
}

/// A row, with the name of its customer.
#[derive(Clone, Copy)]
pub struct ToldRow<'a> {
    /// The row: an even number is a saving balance, an odd one a checking balance.
    pub row: Row,
    /// The name of the customer whose balance it is.
    pub name: &'a [u8],
}

/// A row, with a version and a value.
#[derive(Clone, Copy)]
pub struct ToldState<'a> {
    /// The row.
    pub row: ToldRow<'a>,
    /// Its version and its value.
    pub has: Versioned,
}

/// A number that was found, and the one that was due.
#[derive(Clone, Copy)]
pub struct Numbers {
    /// The number that the frame says.
    pub found: u64,
    /// The number that it must say, or the bound that it must keep.
    pub due: u64,
}

/// What is wrong with the length of the bytes.
#[derive(Clone, Copy)]
pub enum LengthFault {
    /// There are fewer bytes than a header has.
    TooShort,
    /// There are more bytes than a trace may have.
    TooLong,
    /// The header says this other total.
    Another(u64),
}

/// A field of the header.
#[derive(Clone, Copy)]
pub enum HeadField {
    /// Byte 6.
    Version,
    /// Byte 8.
    Replicas,
    /// Byte 9.
    Verifiers,
    /// Byte 10.
    Quorum,
    /// Byte 11.
    Window,
    /// Byte 12.
    Workers,
    /// Bytes 13 to 15.
    Zero,
    /// Byte 16.
    Customers,
    /// Byte 20.
    Batches,
}

/// What stands where no frame can.
#[derive(Clone, Copy)]
pub enum FrameFault {
    /// That many bytes after the end.
    AfterEnd(u64),
    /// That many bytes, fewer than five.
    TooFew(u64),
    /// A byte that no frame of a kind that may stand there begins with.
    Kind(u8),
    /// A frame of a kind that may stand there, whose body has `body` bytes where `left` are left behind its first five.
    Cut {
        kind: FrameKind,
        body: u32,
        left: u64,
    },
}

/// The last attempt before a place behind it or behind one of its access records.
#[derive(Clone, Copy)]
pub struct RecordsBefore {
    /// The byte at which its frame begins.
    pub attempt: u64,
    /// How many access records it has to have.
    pub due: usize,
    /// How many stand between it and the place.
    pub found: usize,
}

/// How many kinds of frames there are.
pub const FRAME_KINDS: usize = 12;

/// The kinds of frames, in the order of their bytes.
pub fn frame_kinds() -> [FrameKind; FRAME_KINDS]
    ensures { result ≡ all_kinds }
{
    [
        FrameKind::Customer,
        FrameKind::Batch,
        FrameKind::Replica,
        FrameKind::Attempt,
        FrameKind::Access,
        FrameKind::Commit,
        FrameKind::Rollback,
        FrameKind::Transfer,
        FrameKind::Verifier,
        FrameKind::Vote,
        FrameKind::Sent,
        FrameKind::End,
    ]
}

/// A field of a frame's body.
#[derive(Clone, Copy)]
pub enum BodyField {
    /// The first byte behind the last field.
    End,
    Length,
    Name,
    Saving,
    Checking,
    Number,
    Groups,
    Size,
    Client,
    Code,
    SecondLength,
    SecondName,
    Amount,
    View,
    Mode,
    Requests,
    Index,
    ReplyCode,
    ReplyValue,
    Token,
    Worker,
    Place,
    Count,
    Row,
    Kind,
    Version,
    Seen,
    After,
    To,
    Value,
    Choice,
    Replica,
    Batch,
}

/// The first thing that is wrong with an attempt's number, view, requests or mode.
#[derive(Clone, Copy)]
pub enum AttemptFault {
    /// Its batch is not the one after the last that is committed or open: due is that one.
    Number(Numbers),
    /// There is no such batch: due is the last, at most.
    PastBatches(Numbers),
    /// The window has no room for it: due is the last that has, at most.
    PastWindow(Numbers),
    /// Its view is not the section's.
    View(Numbers),
    /// It has not as many requests as its batch.
    Requests(Numbers),
    /// Its mode is not the one that is due: whether it is serial, and whether it must be.
    Mode { found: bool, due: bool },
}

/// The first thing that is wrong with a certificate, place after place.
#[derive(Clone, Copy)]
pub enum CertificateFault {
    /// At this place there is the index of no request: the batch has `requests`.
    NoRequest {
        index: u16,
        place: u16,
        requests: u16,
    },
    /// The index stood at an earlier place, `first`.
    Again {
        index: u16,
        place: u16,
        first: u16,
    },
    /// The attempt is serial, and the index is not its place.
    OutOfOrder {
        index: u16,
        place: u16,
    },
    /// The index stands before that of an earlier parallelBatch: `before` is the least of those that are missing yet.
    BeforeGroup {
        index: u16,
        place: u16,
        before: u16,
    },
}

/// The first thing that is wrong with an access record's worker or index.
#[derive(Clone, Copy)]
pub enum AccessFault {
    /// There is no such worker: due is below this, which is 1 in serial mode.
    Worker(Numbers),
    /// There is no such request: due is below this.
    Index(Numbers),
    /// An earlier record of the attempt, whose frame begins at byte `first`, has the index.
    Again { index: u16, first: u64 },
}

/// The first thing that is wrong with a commit.
#[derive(Clone, Copy)]
pub enum CommitFault<'a> {
    /// Its number is not the next.
    Number(Numbers),
    /// No attempt is open.
    NoneOpen,
    /// Its view is not that of the first open attempt.
    View(Numbers),
    /// Its token is not that of the first open attempt.
    Token { found: &'a [u8], due: &'a [u8] },
}

/// The first thing that is wrong with a rollback.
#[derive(Clone, Copy)]
pub enum RollbackFault {
    /// It doesn't go back to the last committed number.
    To(Numbers),
    /// All batches are committed: due is below their number.
    NothingLeft(Numbers),
    /// Its view is not the next.
    View(Numbers),
}

/// The first thing that is wrong with a state that was transferred.
#[derive(Clone, Copy)]
pub enum TransferFault {
    /// Its number is not above the last one that was reached: due is above that.
    Number(Numbers),
    /// There is no such batch: due is the last, at most.
    PastBatches(Numbers),
    /// Its view is below the section's: due is that one, at least.
    View(Numbers),
}

/// The first thing in which a record differs from what its request must note, given what its entries saw. Entries are
/// counted from 0.
#[derive(Clone, Copy)]
pub enum RecordFault<'a> {
    /// It has not as many entries as the request touches rows.
    Entries {
        found: u8,
        due: u8,
    },
    /// An entry is of another row.
    Row {
        entry: u8,
        found: ToldRow<'a>,
        due: ToldRow<'a>,
    },
    /// An entry is of another kind.
    Kind {
        entry: u8,
        found: Kind,
        due: Kind,
    },
    /// An entry leaves another value.
    After {
        entry: u8,
        found: Cents,
        due: Cents,
    },
    /// The attempt has another reply for the request.
    Reply {
        found: Reply,
        due: Reply,
    },
}

/// Who left what an entry must see.
#[derive(Clone, Copy)]
pub enum Source {
    /// No write came before: it is the row's opening balance, at version 0.
    Opening,
    /// The nearest earlier write, by the request of this index and batch, whose Access frame begins at byte `at`.
    Write { index: u16, batch: u32, at: u64 },
    /// No write came after the last state that was transferred, whose Transfer frame begins at byte `at`.
    Transfer { at: u64 },
}

/// Where what an entry saw comes from, of these the first that there is.
#[derive(Clone, Copy)]
pub enum SeenFrom {
    /// The last source on its way, which was overwritten since.
    Overwritten(Source),
    /// The first record behind it in its own attempt's certificate that left it.
    BehindIt(Source),
    /// No source, but the last rollback on its way that restores just that, whose frame begins at this byte.
    Restored(u64),
    /// The last source in front of its attempt, which the rollback at byte `by` discarded; whether that names the row.
    RolledBack {
        source: Source,
        by: u64,
        restores: bool,
    },
    /// That source, which was discarded when the state at byte `by` was transferred.
    Discarded {
        source: Source,
        by: u64,
    },
    /// That source, which stands before the last state that was transferred, at byte `state`.
    BeforeState {
        source: Source,
        state: u64,
    },
    /// The first source behind its attempt.
    Later(Source),
    /// No source in the section.
    Nobody,
}

/// The first entry of a record that doesn't see what it must.
#[derive(Clone, Copy)]
pub struct WrongEntry<'a> {
    /// Its place in the record, from 0.
    pub entry: u8,
    /// Whether it is a read or a write.
    pub kind: Kind,
    /// Its row.
    pub row: ToldRow<'a>,
    /// What it says that it saw.
    pub saw: Versioned,
    /// What was visible to it.
    pub due: Versioned,
    /// Who left that.
    pub left_by: Source,
    /// Of a write the first record before it in its attempt's certificate that saw what it left.
    pub seen_by: Option<Source>,
}

/// The first row in which restores differ from those that are due.
#[derive(Clone, Copy)]
pub enum RestoreFault<'a> {
    /// This one is due, and none of its row stands there.
    Missing(ToldState<'a>),
    /// This one stands there, and none of its row is due.
    Extra(ToldState<'a>),
    /// Of one row another version or value is due.
    Another {
        found: ToldState<'a>,
        due: ToldState<'a>,
    },
}

/// A vote of a verifier that has an earlier one on the same batch in the same view.
#[derive(Clone, Copy)]
pub struct SecondVote<'a> {
    /// The verifier's number, from 0.
    pub verifier: u8,
    /// The number of the batch.
    pub batch: u32,
    /// The view.
    pub view: u32,
    /// What the vote is for.
    pub choice: Choice<'a>,
    /// The byte at which the frame of the earliest begins.
    pub first: u64,
    /// What that one is for.
    pub first_choice: Choice<'a>,
}

/// A view in which a batch is decided as commit.
#[derive(Clone, Copy)]
pub struct ToldDecision {
    /// The view.
    pub view: u32,
    /// The token with which it is decided.
    pub token: [u8; 32],
    /// How many verifiers count for it.
    pub votes: u8,
}

/// What a verifier did about a batch in a view.
#[derive(Clone, Copy)]
pub enum VerifierVote {
    /// Its vote, whose frame begins at this byte, is the one that is asked for.
    For(u64),
    /// Its vote, whose frame begins at this byte, is another; or it is the first of two, which count for none.
    Otherwise(u64),
    /// It has none.
    NoVote,
}

/// How many verifiers a list of what each did has room for.
pub const VERIFIERS: usize = MOST_VERIFIERS as usize;

/// Who voted for a commit or a rollback that has no majority.
#[derive(Clone, Copy)]
pub struct Poll<'a> {
    /// The number of the batch.
    pub batch: u32,
    /// The view.
    pub view: u32,
    /// What is asked for.
    pub choice: Choice<'a>,
    /// How many verifiers count for it.
    pub found: u8,
    /// How many must.
    pub due: u8,
    /// How many verifiers there are.
    pub verifiers: u8,
    /// What each verifier did, in their order.
    pub votes: [VerifierVote; VERIFIERS],
}

/// What a verifier said first about a batch in a view, whatever it was asked for.
#[derive(Clone, Copy)]
pub enum VerifierChoice<'a> {
    /// It voted for the commit with this token, in the frame that begins at byte `at`.
    Commit { token: &'a [u8], at: u64 },
    /// It voted for a rollback, in the frame that begins at this byte.
    Rollback(u64),
    /// It has no vote.
    NoVote,
}

/// Who voted for the commit of a batch whose state was transferred, where no token has a majority.
#[derive(Clone, Copy)]
pub struct TransferPoll<'a> {
    /// The number of the batch.
    pub batch: u32,
    /// The view.
    pub view: u32,
    /// The most verifiers that count for its commit with one token.
    pub found: u8,
    /// How many must.
    pub due: u8,
    /// How many verifiers there are.
    pub verifiers: u8,
    /// What each verifier said, in their order.
    pub votes: [VerifierChoice<'a>; VERIFIERS],
}

/// The first thing in which a state that was transferred differs from the one that was committed.
#[derive(Clone, Copy)]
pub enum StateFault<'a> {
    /// No replica committed the batch by an attempt.
    NoneCommitted,
    /// A row has another value. `first` is the lowest-numbered replica that committed the batch by an attempt, whose
    /// frame begins at byte `first_at`.
    Row {
        first: u8,
        first_at: u64,
        row: ToldRow<'a>,
        found: Cents,
        due: Cents,
    },
}

/// The first thing in which the outcome of a batch differs from that of the replica that it is compared with.
#[derive(Clone, Copy)]
pub enum OutcomeFault<'a> {
    /// A row has another balance after the batch.
    Row {
        row: ToldRow<'a>,
        found: Cents,
        due: Cents,
    },
    /// A request has another reply.
    Reply {
        request: ToldRequest<'a>,
        found: Reply,
        due: Reply,
    },
}

/// What is wrong with a reply that was sent.
#[derive(Clone, Copy)]
pub enum SentFault<'a> {
    /// The batch has no request with this client and number.
    NoRequest,
    /// The replica didn't commit the batch by an attempt.
    NotCommitted,
    /// The replica committed another reply to the request.
    Another {
        request: ToldRequest<'a>,
        due: Reply,
    },
}

/// An attempt that gave a reply and wasn't committed.
#[derive(Clone, Copy)]
pub struct GivenBy {
    /// The byte at which its frame begins.
    pub at: u64,
    /// Whether it is open, and not discarded.
    pub open: bool,
}

/// In what a token differs from the one that is due, of these the first that makes it.
#[derive(Clone, Copy)]
pub enum TokenMatch {
    /// It is of the balances before the attempt.
    Before,
    /// Of the replies in the certificate's order.
    Ordered,
    /// Of both.
    BeforeOrdered,
    /// Of the batch of this number, which is the one before or the one after.
    Batch(u32),
    /// It is made as in this version of the format.
    Version(u16),
    /// None of these.
    Nothing,
}

/// Why a verdict is no: what is wrong at the frame that the fault names, what was due there, and what says so.
#[derive(Clone, Copy)]
pub enum Evidence<'a> {
    /// F1: how many bytes there are; and the first six, if there are as many as a header has, and these aren't a
    /// trace's.
    Length {
        found: u64,
        wrong: LengthFault,
        magic: Option<[u8; 6]>,
    },
    /// F2: the first six bytes.
    Magic {
        found: [u8; 6],
    },
    /// F3: the first wrong field of the header, at byte `at`, what it says, and between which numbers it must lie.
    Head {
        field: HeadField,
        at: u64,
        found: u32,
        least: u32,
        most: u32,
    },
    /// F4: what stands where a frame is due, and whether a frame of each kind may stand there, in the order of
    /// `frame_kinds`. Behind an attempt or an access record also how many records that attempt has so far.
    Frame {
        wrong: FrameFault,
        due: [bool; FRAME_KINDS],
        records: Option<RecordsBefore>,
    },
    /// F5: the frame, and the first field of its body that is wrong, at byte `field_at`.
    Body {
        frame: FrameKind,
        at: u64,
        field: BodyField,
        field_at: u64,
    },
    /// F10: the name, and the first customer that has it, whose frame begins at byte `first_at`.
    SameName {
        name: &'a [u8],
        first: u32,
        first_at: u64,
    },
    /// F11: the first request of the batch whose client and number stand earlier, and the earliest that has them, whose
    /// Batch frame begins at byte `first_at`.
    SameRequest {
        request: ToldRequest<'a>,
        first: ToldRequest<'a>,
        first_at: u64,
    },
    /// F20.
    Attempt(AttemptFault),
    /// F21.
    Certificate {
        attempt: ToldAttempt,
        wrong: CertificateFault,
    },
    /// F22, in the Access frame at the fault's byte.
    Access {
        attempt: ToldAttempt,
        at: u64,
        wrong: AccessFault,
    },
    /// F23, in the Access frame at the fault's byte: its place, and the worker's next.
    WorkerOrder {
        attempt: ToldAttempt,
        at: u64,
        place: Numbers,
    },
    /// F24.
    Commit(CommitFault<'a>),
    /// F25.
    Rollback(RollbackFault),
    /// F26.
    Transfer {
        state: ToldTransfer,
        wrong: TransferFault,
    },
    /// F30, in the Access frame at the fault's byte.
    Record {
        attempt: ToldAttempt,
        request: ToldRequest<'a>,
        at: u64,
        wrong: RecordFault<'a>,
    },
    /// F40 and F41, in the Access frame at the fault's byte: of F40 the first entry whose version is wrong, of F41 the
    /// first whose value is; and where what it saw comes from, once the whole section was gone through for that.
    Chain {
        attempt: ToldAttempt,
        request: ToldRequest<'a>,
        at: u64,
        wrong: WrongEntry<'a>,
        seen: Option<SeenFrom>,
    },
    /// F50.
    Restore(RestoreFault<'a>),
    /// F60: the attempt's token, the one that is due, and what the first is made of.
    Token {
        attempt: ToldAttempt,
        found: &'a [u8],
        due: [u8; 32],
        matches: TokenMatch,
    },
    /// F70.
    TwoVotes(SecondVote<'a>),
    /// F71: the batch, the two least views in which it is decided, and how many verifiers there are.
    TwoDecisions {
        batch: u32,
        first: ToldDecision,
        second: ToldDecision,
        verifiers: u8,
    },
    /// F72 and F73.
    Majority(Poll<'a>),
    /// F74: who voted for the commit of the state transferred at byte `at`.
    TransferMajority {
        at: u64,
        poll: TransferPoll<'a>,
    },
    /// F80: the lowest-numbered replica that committed the batch, and its attempt's frame.
    Outcome {
        attempt: ToldAttempt,
        first: u8,
        first_at: u64,
        wrong: OutcomeFault<'a>,
    },
    /// F81.
    TransferState {
        state: ToldTransfer,
        wrong: StateFault<'a>,
    },
    /// F90; and where the batch has the request, the first attempt of the replica for it that gave the reply and wasn't
    /// committed, if there is one.
    Reply {
        sent: ToldSent,
        wrong: SentFault<'a>,
        given: Option<GivenBy>,
    },
    /// None: no fault that stands has it.
    Untold,
}

/// What a replica did, in numbers.
#[derive(Clone, Copy)]
pub struct ReplicaCounts {
    /// How many numbers it committed by an attempt.
    pub committed: u32,
    /// How many states were transferred to it: none in version 1.
    pub transferred: u32,
    /// How many attempts it discarded.
    pub discarded: u32,
    /// How many attempts are open at the end.
    pub open: u32,
    /// How many rollbacks there are.
    pub rollbacks: u32,
}

impl ReplicaCounts {
    /// What a replica did that did nothing.
    pub const NONE: ReplicaCounts = ReplicaCounts {
        committed: 0,
        transferred: 0,
        discarded: 0,
        open: 0,
        rollbacks: 0,
    };
}

/// How many replicas a list of what each did has room for.
pub const REPLICAS: usize = MOST_REPLICAS as usize;

/// What a trace without a fault has.
#[derive(Clone, Copy)]
pub struct Counts {
    /// How many requests all batches have.
    pub requests: u32,
    /// How many replicas there are.
    pub many: u8,
    /// What each replica did, in their order.
    pub replicas: [ReplicaCounts; REPLICAS],
}
