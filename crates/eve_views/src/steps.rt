//! The steps of a replica's section.

ghost use Rattle.std.specs.Prelude.{◌≡◌, ℕ, ◌-◌, [], ◌∷◌, IfSome, IfNone};
ghost use Rattle.eve_grammar.specs.Trace.{Step as StepValue};
ghost use Rattle.eve_grammar.specs.Frames.{frames_of};
ghost use Rattle.eve_views.specs.Parts.{steps_between, AreSteps};
ghost use Rattle.eve_views.specs.StepKinds.{IsStep};
ghost use Rattle.eve_views.specs.Lent.{LendsFrame};

use crate::accesses::Accesses;
use crate::trace::Trace;
use eve_frames::{AttemptView, CommitView, RollbackView, TransferView};
use eve_grammar::FrameKind;
use std::marker::Model;

/// A step of a replica, where it stands.
#[derive(Drop)]
pub enum Step<'t, 'a> {
    /// An execution of a batch, with its access frames.
    Attempt(AttemptView<'a>, Accesses<'t, 'a>),
    /// The first open attempt is committed.
    Commit(CommitView<'a>),
    /// The open attempts are discarded.
    Rollback(RollbackView<'a>),
    /// A state is transferred, and the open attempts are discarded.
    Transfer(TransferView<'a>),
}

impl<'t, 'a> Step<'t, 'a> {
    /// The byte at which the step's own frame begins.
    pub fn offset(&self) -> u64
        ensures { (is : ℕ × StepValue) → IsStep self.now is → result ≡ is.0 }
    {
        match self {
            Step::Attempt(attempt, _) => attempt.offset(),
            Step::Commit(commit) => commit.offset(),
            Step::Rollback(rollback) => rollback.offset(),
            Step::Transfer(transfer) => transfer.offset(),
        }
    }
}

/// The steps of a section that are still to come.
///
/// Contracts see them as a list of steps, each with the byte offset of its frame; an attempt's access frames
/// belong to its step.
#[derive(Drop)]
pub struct Steps<'t, 'a> {
    trace: &'t Trace<'a>,
    at: usize,
    to: usize,
}

impl<'t, 'a> Model for Steps<'t, 'a> {
    ghost use Rattle.std.specs.Prelude.{ℕ, ◌-◌, List};
    ghost use Rattle.eve_grammar.specs.Trace.{Step};
    ghost use Rattle.eve_grammar.specs.Frames.{frames_of};
    ghost use Rattle.eve_views.specs.Parts.{steps_between, AreSteps};

    ghost Value = { List (ℕ × Step) };

    ghost view = { λ x. steps_between (frames_of x.trace.now) x.at (x.to - x.at) };

    ghost invariant = { λ x. AreSteps (frames_of x.trace.now) x.at x.to };
}

impl<'t, 'a> Steps<'t, 'a> {
    /// The frames between two numbers.
    pub(crate) fn new(trace: &'t Trace<'a>, at: usize, to: usize) -> Steps<'t, 'a>
        requires { AreSteps (frames_of trace.now) at to }
        ensures { result ≡ steps_between (frames_of trace.now) at (to - at) }
    {
        Steps { trace, at, to }
    }

    /// The next step; `None` behind the last, and nothing comes again.
    pub fn next(&mut self) -> Option<Step<'t, 'a>>
        ensures none { IfNone result (self.old ≡ []) }
        ensures left { IfNone result (self.new ≡ self.old) }
        ensures some { IfSome result (λ s. (step : ℕ × StepValue) × (self.old ≡ step ∷ self.new) × IsStep s step) }
        ensures text { IfSome result LendsFrame }
    {
        if self.at == self.to {
            return None;
        }
        let trace = self.trace;
        let frame = trace.frame(self.at);
        let first = frame.bytes[0];
        if first == FrameKind::Attempt.byte() {
            let attempt = AttemptView::new(frame.offset, frame.bytes);
            let count = attempt.len();
            let from = self.at + 1;
            self.at = from + count;
            let accesses = Accesses::new(trace, from, self.at);
            Some(Step::Attempt(attempt, accesses))
        } else if first == FrameKind::Commit.byte() {
            self.at += 1;
            Some(Step::Commit(CommitView::new(frame.offset, frame.bytes)))
        } else if first == FrameKind::Rollback.byte() {
            self.at += 1;
            Some(Step::Rollback(RollbackView::new(frame.offset, frame.bytes)))
        } else {
            self.at += 1;
            Some(Step::Transfer(TransferView::new(frame.offset, frame.bytes)))
        }
    }
}
