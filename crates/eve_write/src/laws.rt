//! Laws about the definitions. A body calls the laws that its own stands on: the contract is the law.

ghost use Rattle.std.specs.Prelude.{◌≡◌, ◌≤◌};
ghost use Rattle.eve_grammar.specs.Trace.{Trace, head_of};
ghost use Rattle.eve_grammar.specs.Frames.{frames_of};
ghost use Rattle.eve_grammar.specs.Spelling.{length_of, spelling};
ghost use Rattle.eve_grammar.specs.FrameOrder.{AreAllFrames, Spells};
ghost use Rattle.eve_write.specs.Data.{trace};
ghost use Rattle.eve_write.specs.Writable.{HasSpelling};
ghost use Rattle.eve_write.specs.declared.parts.Parts.{Parts};

use eve_grammar::MOST_BYTES;

/// What parts spell is the spelling of their trace and of no other, so it is read again as the same
/// frames, under the same header and in an order that the grammar allows.
pub fn what_is_written_is_read_again()
    ensures spelled { (p : Parts) → HasSpelling p → length_of (trace p) ≤ MOST_BYTES
        → Spells (spelling (trace p)) (trace p) }
    ensures only { (p : Parts) (t : Trace) → HasSpelling p → length_of (trace p) ≤ MOST_BYTES
        → Spells (spelling (trace p)) t → t ≡ trace p }
    ensures frames { (p : Parts) (t : Trace) → HasSpelling p → length_of (trace p) ≤ MOST_BYTES
        → Spells (spelling (trace p)) t → frames_of t ≡ frames_of (trace p) }
    ensures run { (p : Parts) → HasSpelling p → length_of (trace p) ≤ MOST_BYTES
        → AreAllFrames (head_of (trace p)) (frames_of (trace p)) }
{
    eve_grammar::laws::bytes_spell_one_trace();
    eve_grammar::laws::each_trace_runs();
}
