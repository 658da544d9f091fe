//! The evidence of a place where no frame stands.

ghost use Rattle.std.specs.Prelude.{drop};
ghost use Rattle.eve_views.specs.Form.{IsReached, HasNoFrame, place_at};
ghost use Rattle.eve_evidence_form.specs.Due.{TellsFrame};

use crate::due::{due_kinds, frame_fault};
use crate::walk::{head_decoded, reached};
use eve_evidence::{FRAME_KINDS, FrameFault, RecordsBefore};
use eve_views::Reached;

/// What stands where no frame can, which kinds of frames may stand there, and behind which access records.
#[derive(Clone, Copy)]
pub struct NoFrame {
    /// What stands there.
    pub wrong: FrameFault,
    /// Whether a frame of each kind may stand there, in the order of their bytes.
    pub due: [bool; FRAME_KINDS],
    /// The last attempt, if the place stands behind it or behind one of its access records.
    pub records: Option<RecordsBefore>,
}

/// What stands at this byte, at which the frames before it have come to an end and no frame that may stand there does.
///
/// docs/MODEL.md, "Evidence". One pass over the frames before it.
pub fn no_frame_at(bytes: &[u8], at: u64) -> NoFrame
    requires { (r : IsReached bytes.now at) × HasNoFrame r.head (place_at r) (drop at bytes.now) }
    ensures { TellsFrame bytes.now at result.wrong result.due result.records }
{
    let at = at as usize;
    let head = head_decoded(bytes);
    let so_far = reached(&head, bytes, at);
    let place = Reached {
        head,
        place: so_far.place,
    };
    let due = due_kinds(&place);
    NoFrame {
        wrong: frame_fault(&place, &bytes[at..]),
        due,
        records: so_far.records,
    }
}
