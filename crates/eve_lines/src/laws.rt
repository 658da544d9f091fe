//! Laws about the definitions.

ghost use Rattle.std.specs.Prelude.{◌≡◌, ℕ, IsTrue, List};
ghost use Rattle.hex.specs.Hex.{encode_lower};
ghost use Rattle.eve_accounts.specs.Names.{is_name};
ghost use Rattle.eve_grammar.specs.Frames.{Frame};
ghost use Rattle.eve_grammar.specs.Limits.{FitsAt, is_head, is_token};
ghost use Rattle.eve_grammar.specs.Spelling.{frame_text};
ghost use Rattle.eve_grammar.specs.declared.head.Head.{Head};
ghost use Rattle.eve_grammar.specs.declared.place.Place.{Place};
ghost use Rattle.eve_lines.specs.FrameLines.{frame_words};
ghost use Rattle.eve_lines.specs.Rest.{words_in};
ghost use Rattle.eve_lines.specs.Words.{name_words, token_words};

/// The words of a frame's bytes are those of what the frame says, wherever it fits.
pub fn frames_say_their_words()
    ensures { (h : Head) (p : Place) (f : Frame) (number : ℕ) → IsTrue (is_head h) → FitsAt h p f
        → words_in number (frame_text f) ≡ frame_words number f }
{
    eve_frames::laws::transfers_tell_their_rows();
}

/// Names and tokens of a trace stand in its lines whole.
pub fn names_and_tokens_stand_whole()
    ensures names { (name : List ℕ) → IsTrue (is_name name) → name_words name ≡ name }
    ensures tokens { (token : List ℕ) → IsTrue (is_token token) → token_words token ≡ encode_lower token }
{}
