//! The access frames of an attempt.

ghost use Rattle.std.specs.Prelude.{◌≡◌, ◌<◌, ◌-◌, length, slice_get, Some};
ghost use Rattle.eve_grammar.specs.Frames.{OfAccess, frames_of};
ghost use Rattle.eve_grammar.specs.Spelling.{frame_text};
ghost use Rattle.eve_frames.specs.Decoded.{access_decoded};
ghost use Rattle.eve_views.specs.Parts.{accesses_between, AreAccesses};

use crate::trace::Trace;
use eve_frames::AccessView;
use std::marker::Model;

/// The access frames of an attempt, where they stand.
///
/// Contracts see them as a list of accesses, each with its byte offset.
#[derive(Drop)]
pub struct Accesses<'t, 'a> {
    trace: &'t Trace<'a>,
    from: usize,
    to: usize,
}

impl<'t, 'a> Model for Accesses<'t, 'a> {
    ghost use Rattle.std.specs.Prelude.{ℕ, ◌-◌, List};
    ghost use Rattle.eve_grammar.specs.Trace.{Access};
    ghost use Rattle.eve_grammar.specs.Frames.{frames_of};
    ghost use Rattle.eve_views.specs.Parts.{accesses_between, AreAccesses};

    ghost Value = { List (ℕ × Access) };

    ghost view = { λ x. accesses_between (frames_of x.trace.now) x.from (x.to - x.from) };

    ghost invariant = { λ x. AreAccesses (frames_of x.trace.now) x.from x.to };
}

impl<'t, 'a> Accesses<'t, 'a> {
    /// The frames between two numbers.
    pub(crate) fn new(trace: &'t Trace<'a>, from: usize, to: usize) -> Accesses<'t, 'a>
        requires { AreAccesses (frames_of trace.now) from to }
        ensures { result ≡ accesses_between (frames_of trace.now) from (to - from) }
    {
        Accesses { trace, from, to }
    }

    /// How many there are: as many as the attempt's batch has requests.
    pub fn len(&self) -> usize
        ensures { result ≡ length self.now }
    {
        self.to - self.from
    }

    /// An access frame, by its place from 0.
    pub fn get(&self, i: usize) -> AccessView<'a>
        requires { i < length self.now }
        ensures says { slice_get self.now i ≡ Some (result.offset, access_decoded result) }
        ensures text { result.bytes.now ≡ frame_text (OfAccess (access_decoded result)) }
    {
        prove!(self.from <= self.to);
        let frame = self.trace.frame(self.from + i);
        AccessView::new(frame.offset, frame.bytes)
    }
}
