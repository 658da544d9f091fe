//! Which kinds of frames may stand at a place, and what is wrong with what stands there.

ghost use Rattle.std.specs.Prelude.{◌≡◌};
ghost use Rattle.eve_views.specs.Form.{HasNoFrame};
ghost use Rattle.eve_evidence_form.specs.Due.{due_kinds, IsFrameFault};

use byteorder::{BigEndian, ByteOrder};
use eve_evidence::{FRAME_KINDS, FrameFault, frame_kinds, item_at};
use eve_grammar::{FRAME_HEAD_LEN, FrameKind};
use eve_views::Reached;

/// Whether a frame of each kind may stand there, in the order of their bytes.
pub fn due_kinds(reached: &Reached) -> [bool; FRAME_KINDS]
    ensures { result ≡ due_kinds reached.now.head reached.now.place }
{
    let kinds = frame_kinds();
    let mut due = [false; FRAME_KINDS];
    for i in 0..kinds.len() {
        due[i] = reached.allows(item_at(&kinds, i));
    }
    due
}

/// What is wrong with the bytes where a frame is due, or after the end.
pub fn frame_fault(reached: &Reached, bytes: &[u8]) -> FrameFault
    requires { HasNoFrame reached.now.head reached.now.place bytes.now }
    ensures { IsFrameFault reached.now.head reached.now.place bytes.now result }
{
    if reached.place.ended {
        return FrameFault::AfterEnd(bytes.len() as u64);
    }
    if bytes.len() < FRAME_HEAD_LEN {
        return FrameFault::TooFew(bytes.len() as u64);
    }
    let first = bytes[0];
    let Some(kind) = FrameKind::of(first) else {
        return FrameFault::Kind(first);
    };
    if !reached.allows(kind) {
        return FrameFault::Kind(first);
    }
    FrameFault::Cut {
        kind,
        body: BigEndian::read_u32(&bytes[1..]),
        left: (bytes.len() - FRAME_HEAD_LEN) as u64,
    }
}
