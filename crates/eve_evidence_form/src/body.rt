//! What shows that a body is wrong: its first wrong field.

ghost use Rattle.std.specs.Prelude.{◌≡◌, ◌≤◌, length, drop, slice_index};
ghost use Rattle.byteorder.specs.Endian.{big_number};
ghost use Rattle.eve_grammar.specs.Kinds.{kind_byte};
ghost use Rattle.eve_grammar.specs.declared.limits.TheConstants.{MOST_BYTES, MOST_CUSTOMERS};
ghost use Rattle.eve_views.specs.Form.{IsReached, HasWrongBody, place_at};
ghost use Rattle.eve_evidence_form.specs.Body.{body_fault, first_body, TellsBody};

use crate::access_body::access_fault;
use crate::attempt_body::attempt_fault;
use crate::batch_body::batch_fault;
use crate::fields::{FieldThere, sliced, there};
use crate::plain_body::{commit_fault, customer_fault, number_fault, sent_fault, vote_fault};
use crate::rows_body::{rollback_fault, transfer_fault};
use crate::walk::{head_decoded, reached};
use byteorder::{BigEndian, ByteOrder};
use eve_evidence::BodyField;
use eve_grammar::{FRAME_HEAD_LEN, FrameKind, Head, Place};

/// The first wrong field of a frame's body.
#[derive(Clone, Copy)]
pub struct WrongBody {
    /// The frame's kind.
    pub frame: FrameKind,
    /// The field.
    pub field: BodyField,
    /// The byte of the trace at which the field begins.
    pub at: u64,
}

/// The first wrong field of the body of a frame of this kind, which stands at this place.
fn body_fault(head: &Head, place: &Place, kind: FrameKind, body: &[u8]) -> FieldThere
    requires few { head.now.customers ≤ MOST_CUSTOMERS }
    requires short { length body.now ≤ MOST_BYTES }
    ensures { result ≡ body_fault head.now place.now kind body.now }
{
    let rows = 2 * u64::from(head.customers);
    match kind {
        FrameKind::Customer => customer_fault(body),
        FrameKind::Batch => batch_fault(u64::from(place.batches) + 1, body),
        FrameKind::Replica => number_fault(place.replicas, body),
        FrameKind::Attempt => attempt_fault(body),
        FrameKind::Access => access_fault(rows, body),
        FrameKind::Commit => commit_fault(body),
        FrameKind::Rollback => rollback_fault(rows, body),
        FrameKind::Transfer => transfer_fault(rows as usize, body),
        FrameKind::Verifier => number_fault(place.verifiers, body),
        FrameKind::Vote => vote_fault(head.batches, body),
        FrameKind::Sent => sent_fault(head.replicas, head.batches, body),
        FrameKind::End => there(BodyField::End, 0, false),
    }
}

/// The kind of the frame that lies there as a whole.
fn kind_there(head: &Head, place: &Place, bytes: &[u8]) -> FrameKind
    requires { HasWrongBody head.now place.now bytes.now }
    ensures { kind_byte result ≡ slice_index bytes.now 0 }
{
    match FrameKind::of(bytes[0]) {
        Some(kind) => kind,
        None => unreachable!(),
    }
}

/// How many bytes the body has of the frame with which the bytes begin.
fn body_len(bytes: &[u8]) -> usize
    requires { 5 ≤ length bytes.now }
    ensures { result ≡ big_number 4 (drop 1 bytes.now) }
{
    BigEndian::read_u32(&bytes[1..]) as usize
}

/// The body of the frame that lies there as a whole.
fn body_there<'a>(head: &Head, place: &Place, bytes: &'a [u8]) -> &'a [u8]
    requires { HasWrongBody head.now place.now bytes.now }
    ensures { result.now ≡ first_body bytes.now }
{
    sliced(bytes, FRAME_HEAD_LEN, body_len(bytes))
}

/// The first wrong field of the body of the frame at this byte.
///
/// docs/MODEL.md, "Evidence". One pass over the frames before it.
pub fn wrong_body_at(bytes: &[u8], at: u64) -> WrongBody
    requires wrong { (r : IsReached bytes.now at) × HasWrongBody r.head (place_at r) (drop at bytes.now) }
    requires short { length bytes.now ≤ MOST_BYTES }
    ensures { TellsBody bytes.now at result.frame result.field result.at }
{
    let head = head_decoded(bytes);
    let place = reached(&head, bytes, at as usize).place;
    let frame = &bytes[at as usize..];
    let kind = kind_there(&head, &place, frame);
    let own = body_fault(&head, &place, kind, body_there(&head, &place, frame));
    WrongBody {
        frame: kind,
        field: own.field,
        at: at + FRAME_HEAD_LEN as u64 + u64::from(own.at),
    }
}
