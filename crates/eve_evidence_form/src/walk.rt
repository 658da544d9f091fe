//! How far the frames before a byte have come.

ghost use Rattle.std.specs.Prelude.{◌≡◌, ◌<◌, ◌≤◌, IfSome, length};
ghost use Rattle.eve_grammar.specs.Kinds.{kind_byte};
ghost use Rattle.eve_grammar.specs.Frames.{Frame, kind_of, next_place};
ghost use Rattle.eve_grammar.specs.Limits.{FitsAt};
ghost use Rattle.eve_grammar.specs.Spelling.{frame_text};
ghost use Rattle.eve_grammar.specs.declared.head.Head.{Head as HeadValue};
ghost use Rattle.eve_views.specs.Form.{IsReached, SaysHead, place_at};
ghost use Rattle.eve_views.specs.inner.Places.{accesses_in};
ghost use Rattle.eve_evidence_form.specs.inner.Walk.{BeginsWith};
ghost use Rattle.eve_evidence_form.specs.Records.{TellsRecords, records_after};

use byteorder::{BigEndian, ByteOrder};
use eve_evidence::RecordsBefore;
use eve_grammar::{FRAME_HEAD_LEN, FrameKind, HEADER_LEN, Head, Place};
use eve_views::Reached;

/// How far the frames before a byte have come.
#[derive(Clone, Copy)]
pub struct PlaceReached {
    /// The place there.
    pub place: Place,
    /// The last attempt, if the byte stands behind it or behind one of its access records.
    pub records: Option<RecordsBefore>,
}

/// The head that a header says.
pub fn head_decoded(bytes: &[u8]) -> Head
    requires long { 24 ≤ length bytes.now }
    requires says { (h : HeadValue) × SaysHead bytes.now h }
    ensures { (h : HeadValue) → SaysHead bytes.now h → result ≡ h }
{
    match Head::read(&bytes[6..24]) {
        Some(head) => head,
        None => unreachable!(),
    }
}

/// The kind of the frame with which the bytes begin.
fn first_kind(bytes: &[u8]) -> FrameKind
    requires { (f : Frame) × BeginsWith bytes.now f }
    ensures { (f : Frame) → BeginsWith bytes.now f → kind_byte result ≡ kind_of f }
{
    match FrameKind::of(bytes[0]) {
        Some(kind) => kind,
        None => unreachable!(),
    }
}

/// How many bytes the frame has with which the bytes begin.
fn first_len(bytes: &[u8]) -> usize
    requires { (f : Frame) × BeginsWith bytes.now f }
    ensures { (f : Frame) → BeginsWith bytes.now f → result ≡ length (frame_text f) }
{
    FRAME_HEAD_LEN + BigEndian::read_u32(&bytes[1..]) as usize
}

/// How many access frames have to follow the frame of this kind with which the bytes begin.
fn first_accesses(bytes: &[u8], kind: FrameKind) -> usize
    requires { (f : Frame) × BeginsWith bytes.now f × (kind_byte kind ≡ kind_of f) }
    ensures { (f : Frame) → BeginsWith bytes.now f → kind_byte kind ≡ kind_of f → result ≡ accesses_in f }
{
    match kind {
        FrameKind::Attempt => usize::from(BigEndian::read_u16(&bytes[14..])),
        _ => 0,
    }
}

/// The last attempt after a frame of this kind, which begins at byte `at`, and which that many access frames have to
/// follow.
fn note(
    before: Option<RecordsBefore>,
    kind: FrameKind,
    at: usize,
    accesses: usize,
) -> Option<RecordsBefore>
    requires { IfSome before (λ r. r.found < at) }
    ensures { result ≡ records_after before (kind_byte kind) at accesses }
{
    match kind {
        FrameKind::Attempt => Some(RecordsBefore {
            attempt: at as u64,
            due: accesses,
            found: 0,
        }),
        FrameKind::Access => match before {
            Some(records) => Some(RecordsBefore {
                attempt: records.attempt,
                due: records.due,
                found: records.found + 1,
            }),
            None => None,
        },
        _ => None,
    }
}

/// How far the frames have come after the one with which the bytes begin: it begins at byte `at`, and fits there.
fn step(head: &Head, so_far: PlaceReached, bytes: &[u8], at: usize) -> PlaceReached
    requires fits { (f : Frame) × BeginsWith bytes.now f × FitsAt head.now so_far.place f }
    requires few { IfSome so_far.records (λ r. r.found < at) }
    ensures place { (f : Frame) → BeginsWith bytes.now f → FitsAt head.now so_far.place f
        → result.place ≡ next_place so_far.place f }
    ensures records { (f : Frame) → BeginsWith bytes.now f
        → result.records ≡ records_after so_far.records (kind_of f) at (accesses_in f) }
{
    let kind = first_kind(bytes);
    let accesses = first_accesses(bytes, kind);
    let mut reached = Reached {
        head: *head,
        place: so_far.place,
    };
    reached.pass(kind, accesses);
    PlaceReached {
        place: reached.place,
        records: note(so_far.records, kind, at, accesses),
    }
}

/// How far the frames before this byte have come.
///
/// docs/TRACE.md, "Order of frames". One pass over them, whose bodies aren't judged.
pub fn reached(head: &Head, bytes: &[u8], at: usize) -> PlaceReached
    requires { (r : IsReached bytes.now at) × (r.head ≡ head.now) }
    ensures place { (r : IsReached bytes.now at) → r.head ≡ head.now → result.place ≡ place_at r }
    ensures records { (r : IsReached bytes.now at) → r.head ≡ head.now → TellsRecords r.prefix result.records }
{
    let mut so_far = PlaceReached {
        place: Reached::start(*head).place,
        records: None,
    };
    let mut next = HEADER_LEN;
    'frames: while next < at {
        let frame = &bytes[next..];
        so_far = step(head, so_far, frame, next);
        next += first_len(frame);
    }
    so_far
}
