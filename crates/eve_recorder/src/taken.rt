//! What is left of a recorder that was ended.

ghost use Rattle.std.specs.Prelude.{◌≡◌, [], ◌++◌, ◌∷◌, ℕ, IfSome, IfNone};
ghost use mathlib.Core.List.{IsPrefix};
ghost use Rattle.eve_recorder.specs.RecorderViews.{NotedAndTaken};
ghost use Rattle.eve_recorder.specs.Noted.{of_worker, IsOrderly};

use crate::passes::{Queue, QueuePass, Takes};
use eve_stamps::AccessRecord;
use std::marker::Model;
use std::sync::Wait;

/// What is still queued, to be taken. Contracts see all that was noted and what of it was taken (`NotedAndTaken`).
///
/// docs/DEPLOYMENT.md, "Recorder lists, drawn numbers".
#[derive(Drop)]
pub struct Taken {
    pub(crate) queue: Queue,
    pub(crate) pass: QueuePass,
}

impl Model for Taken {
    ghost use Rattle.std.specs.Prelude.{◌≡◌, true};
    ghost use Rattle.crossbeam_queue.specs.Passes.{view as view_of, IsPassOf};
    ghost use Rattle.eve_recorder.specs.RecorderViews.{NotedAndTaken};
    ghost use Rattle.eve_recorder.specs.Noted.{IsOrderly};
    ghost use Rattle.eve_recorder.specs.QueueRule.{knowledge};

    ghost Value = { NotedAndTaken };

    ghost view = { λ s. record { noted = (view_of s.pass).noted; taken = (view_of s.pass).taken } };

    ghost invariant = { λ s. let v = view_of s.pass in
        IsPassOf s.queue s.pass × (v ≡ knowledge true v.taken v.workers 0 v.workers v.noted) × IsOrderly v.taken };
}

impl Taken {
    /// The next record that is queued. None only once all that each worker noted was taken. Until then what was taken
    /// of each worker is the beginning of what it noted.
    pub fn next<R: Wait>(&mut self, rt: &R) -> Option<AccessRecord>
        ensures some { IfSome result (λ x. self.new ≡ record self.old { taken = self.old.taken ++ x ∷ [] }) }
        ensures none { IfNone result (self.new ≡ self.old) }
        ensures all { IfNone result ((w : ℕ) → of_worker w self.old.noted ≡ of_worker w self.old.taken) }
        ensures prefix { IfSome result (λ _.
            (w : ℕ) → IsPrefix (of_worker w self.new.taken) (of_worker w self.new.noted)) }
        ensures orderly { IsOrderly self.new.taken }
    {
        self.queue.pop_as::<Takes, R>(rt, &mut self.pass)
    }
}
