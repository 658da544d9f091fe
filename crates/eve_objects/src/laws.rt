//! Laws about the definitions.

ghost use Rattle.std.specs.Prelude.{◌≡◌, ℕ, IsTrue, List};
ghost use Rattle.eve_accounts.specs.Names.{is_name};
ghost use Rattle.eve_grammar.specs.Frames.{Frame};
ghost use Rattle.eve_grammar.specs.Limits.{FitsAt, is_head};
ghost use Rattle.eve_grammar.specs.Spelling.{frame_text};
ghost use Rattle.eve_grammar.specs.declared.head.Head.{Head};
ghost use Rattle.eve_grammar.specs.declared.place.Place.{Place};
ghost use Rattle.eve_objects.specs.Bytes.{members_in};
ghost use Rattle.eve_objects.specs.FrameObjects.{frame_members};
ghost use Rattle.eve_objects.specs.Members.{text_of};

/// The members that a frame's bytes give are those of what the frame says, wherever it fits.
pub fn frames_say_their_members()
    ensures { (h : Head) (p : Place) (f : Frame) (number : ℕ) → IsTrue (is_head h) → FitsAt h p f
        → members_in number (frame_text f) ≡ frame_members number f }
{
    eve_frames::laws::transfers_tell_their_rows();
}

/// The names of a trace stand whole.
pub fn names_stand_whole()
    ensures { (name : List ℕ) → IsTrue (is_name name) → text_of name ≡ name }
{}
