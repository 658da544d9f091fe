//! The frames of a trace, one after the other.

ghost use Rattle.std.specs.Prelude.{◌≡◌, ℕ, [], ◌∷◌, IfSome, IfNone};
ghost use Rattle.eve_grammar.specs.Frames.{Frame};
ghost use Rattle.eve_grammar.specs.Spelling.{frames_at, frame_text};

use crate::trace::Trace;
use eve_frames::FrameView;
use std::marker::Model;

/// The frames of a trace that are still to come.
///
/// Contracts see them as a list of frames, each with its byte offset.
#[derive(Drop)]
pub struct Frames<'t, 'a> {
    trace: &'t Trace<'a>,
    at: usize,
}

impl<'t, 'a> Model for Frames<'t, 'a> {
    ghost use Rattle.std.specs.Prelude.{ℕ, List, ◌≤◌, length};
    ghost use Rattle.eve_grammar.specs.Frames.{Frame, frames_of};
    ghost use Rattle.eve_views.specs.Parts.{frames_from};

    ghost Value = { List (ℕ × Frame) };

    ghost view = { λ x. frames_from (frames_of x.trace.now) x.at };

    ghost invariant = { λ x. x.at ≤ length (frames_of x.trace.now) };
}

impl<'t, 'a> Frames<'t, 'a> {
    /// From the first.
    pub(crate) fn new(trace: &'t Trace<'a>) -> Frames<'t, 'a>
        ensures { result ≡ frames_at trace.now }
    {
        Frames { trace, at: 0 }
    }

    /// The next frame; `None` behind the last, and nothing comes again.
    pub fn next(&mut self) -> Option<FrameView<'a>>
        ensures none { IfNone result (self.old ≡ []) }
        ensures left { IfNone result (self.new ≡ self.old) }
        ensures some { IfSome result (λ v. (f : Frame) × (self.old ≡ (v.offset, f) ∷ self.new)
            × (v.bytes.now ≡ frame_text f)) }
    {
        if self.at == self.trace.frame_count() {
            return None;
        }
        let frame = self.trace.frame(self.at);
        self.at += 1;
        Some(frame)
    }
}
