//! Laws about the definitions. Each body is empty: the contract is the law.

ghost use Rattle.std.specs.Prelude.{◌≡◌, ◌≤◌, ℕ, IsTrue, List, Some, length};
ghost use Rattle.eve_grammar.specs.Trace.{Trace, Transfer, head_of};
ghost use Rattle.eve_grammar.specs.Frames.{Frame, frames_of};
ghost use Rattle.eve_grammar.specs.Spelling.{length_of, spelling, transfer_text};
ghost use Rattle.eve_grammar.specs.Limits.{HasHeadLimits, HasLimits, is_head, is_transfer};
ghost use Rattle.eve_grammar.specs.Places.{IsBytes};
ghost use Rattle.eve_grammar.specs.Readers.{transfer_of};
ghost use Rattle.eve_grammar.specs.FrameOrder.{AreAllFrames, Spells};
ghost use Rattle.eve_grammar.specs.GatheredTraces.{trace_of, IsMadeOf};
ghost use Rattle.eve_grammar.specs.inner.Cases.{empty_run, empty_run_bytes, deposit_committed, deposit_committed_bytes};
ghost use Rattle.eve_grammar.specs.declared.head.Head.{Head};

use crate::limits::MOST_BYTES;

/// A trace has one spelling at most.
pub fn traces_have_one_spelling()
    ensures { (bytes more : List ℕ) (t : Trace) → Spells bytes t → Spells more t → bytes ≡ more }
{}

/// Bytes are the spelling of one trace at most.
pub fn bytes_spell_one_trace()
    ensures { (bytes : List ℕ) (t u : Trace) → Spells bytes t → Spells bytes u → t ≡ u }
{}

/// Bytes are as long as the trace that they spell.
pub fn bytes_are_as_long_as_their_trace()
    ensures { (bytes : List ℕ) (t : Trace) → Spells bytes t → length bytes ≡ length_of t }
{}

/// The bytes of two small traces.
pub fn small_traces_are_spelled()
    ensures empty_run { Spells empty_run_bytes empty_run }
    ensures deposit_committed { Spells deposit_committed_bytes deposit_committed }
{}

/// A trace is what its header and its frames make up, so no two traces share both.
pub fn frames_make_up_their_trace()
    ensures { (t : Trace) → trace_of t.head (frames_of t) ≡ t }
{}

/// A header is right exactly where it has its limits by name.
pub fn right_heads_have_limits()
    ensures limits { (h : Head) → IsTrue (is_head h) → HasHeadLimits h }
    ensures right { (h : Head) → HasHeadLimits h → IsTrue (is_head h) }
{}

/// Frames that run from the first to the end, under a header within its limits, are those of
/// exactly one trace, which has the limits.
pub fn each_run_is_one_trace()
    ensures exists { (h : Head) (fs : List Frame) → IsTrue (is_head h) → AreAllFrames h fs
        → IsMadeOf h fs (trace_of h fs) }
    ensures limits { (h : Head) (fs : List Frame) → IsTrue (is_head h) → AreAllFrames h fs → HasLimits (trace_of h fs) }
    ensures only { (h : Head) (fs : List Frame) (t : Trace) → IsMadeOf h fs t → t ≡ trace_of h fs }
{}

/// The body of a Transfer is read exactly where it is the spelling of one that lies within the limits.
pub fn transfers_are_read_again()
    ensures takes { (rows : ℕ) (body : List ℕ) (x : Transfer) → IsBytes body → transfer_of rows body ≡ Some x
        → (body ≡ transfer_text x) × IsTrue (is_transfer rows x) }
    ensures again { (rows : ℕ) (x : Transfer) → IsTrue (is_transfer rows x)
        → transfer_of rows (transfer_text x) ≡ Some x }
{}

/// The parts of a trace that bytes spell lie within their limits, and such parts, of at most `MOST_BYTES` bytes, are
/// spelled by their spelling.
pub fn spelled_parts_are_within_limits()
    ensures within { (bytes : List ℕ) (t : Trace) → Spells bytes t → HasLimits t }
    ensures spelled { (t : Trace) → HasLimits t → length_of t ≤ MOST_BYTES → Spells (spelling t) t }
{}

/// The frames of a trace within its limits, of at most `MOST_BYTES` bytes, run from the first to the end.
pub fn each_trace_runs()
    ensures { (t : Trace) → HasLimits t → length_of t ≤ MOST_BYTES → AreAllFrames (head_of t) (frames_of t) }
{}
