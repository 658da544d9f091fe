//! Kinds of frames, one after another.

ghost use Rattle.std.specs.Prelude.{◌≡◌, ◌+◌, ◌≤◌, ◌++◌, ◌||◌};
ghost use Rattle.arrayvec.specs.ArrayVec.{array_vec_len};
ghost use Rattle.eve_reasons.specs.Words.{kinds_words};
ghost use Rattle.eve_reasons.specs.Kinds.{kind_if};

use eve_evidence::{FRAME_KINDS, frame_kinds};
use eve_grammar::FrameKind;
use eve_lines::{LINE_ROOM, Line, kind_name, put};

/// Appends a kind, if it is told, and returns whether there is one so far; behind others, if there was one before.
fn put_kind_if(line: &mut Line, any: bool, told: bool, kind: FrameKind) -> bool
    requires { array_vec_len line.old + 10 ≤ LINE_ROOM }
    ensures items { line.new.items ≡ line.old.items ++ kind_if any told kind }
    ensures any { result ≡ (any || told) }
    ensures len { array_vec_len line.new ≤ array_vec_len line.old + 10 }
{
    if !told {
        return any;
    }
    if any {
        put(line, ", ");
    }
    put(line, kind_name(kind));
    true
}

/// Appends the kinds of frames of which it is told that they may stand somewhere: `Sent, End`, or `nothing`.
#[tactic(auto, unfolding(crate::specs::Words::kinds_words))]
pub(crate) fn put_kinds(line: &mut Line, told: &[bool; FRAME_KINDS])
    requires { array_vec_len line.old + 130 ≤ LINE_ROOM }
    ensures items { line.new.items ≡ line.old.items ++ kinds_words told.now }
    ensures len { array_vec_len line.new ≤ array_vec_len line.old + 130 }
{
    let kinds = frame_kinds();
    let mut any = false;
    'kinds: for i in 0..FRAME_KINDS {
        any = put_kind_if(line, any, told[i], kinds[i]);
    }
    put(line, if any { "" } else { "nothing" });
}
