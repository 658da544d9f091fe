//! A replica's section up to one of its steps.

ghost use Rattle.std.specs.Prelude.{◌≡◌, ℕ, OnOk};
ghost use Rattle.eve_grammar.specs.Trace.{Step as StepValue};
ghost use Rattle.eve_views.specs.StepKinds.{IsStep};
ghost use Rattle.eve_history.specs.Section.{SectionState, start, next};
ghost use Rattle.eve_evidence.specs.Course.{IsCourse, state_number, state_decoded};

use eve_frames::{AttemptView, TransferView};
use eve_views::{Accesses, Step};
use std::alloc::{AllocError, Global};

/// An attempt with its access records.
#[derive(Drop)]
pub struct OnPath<'t, 'a> {
    /// Its own frame.
    pub attempt: AttemptView<'a>,
    /// The frames behind it.
    pub accesses: Accesses<'t, 'a>,
}

/// Where a replica's section has come to.
///
/// docs/MODEL.md, "Section state, fate". It takes some fifty bytes for each attempt.
#[derive(Drop)]
pub struct Course<'t, 'a> {
    /// The view.
    pub view: u32,
    /// Whether no attempt came since a rollback.
    pub rolled_back: bool,
    /// The last state that was transferred. The path begins behind it.
    pub transferred: Option<TransferView<'a>>,
    /// How many of the attempts on the path are committed. The others are open.
    pub committed: usize,
    /// The attempts behind that state that no rollback discarded, in the order of their frames.
    pub path: Vec<OnPath<'t, 'a>>,
}

impl<'t, 'a> Course<'t, 'a> {
    /// Before the first step.
    pub fn start(alloc: Global) -> Course<'t, 'a>
        ensures { IsCourse start result }
    {
        Course {
            view: 0,
            rolled_back: false,
            transferred: None,
            committed: 0,
            path: Vec::new(alloc),
        }
    }

    /// The number of the last state that was transferred, or 0.
    pub fn state_number(&self) -> u32
        ensures { result ≡ state_number (state_decoded self.now.transferred) }
    {
        match self.transferred {
            Some(state) => state.seq(),
            None => 0,
        }
    }

    /// Goes on over a step.
    pub fn take(&mut self, step: Step<'t, 'a>) -> Result<(), AllocError>
        ensures { OnOk result ((s : SectionState) (step_is : ℕ × StepValue) → IsCourse s self.old
            → IsStep step.entry step_is → IsCourse (next s step_is) self.new) }
    {
        match step {
            Step::Attempt(attempt, accesses) => {
                self.path.push(OnPath { attempt, accesses })?;
                self.rolled_back = false;
            }
            Step::Commit(_) => {
                if self.committed < self.path.len() {
                    self.committed += 1;
                }
            }
            Step::Rollback(rollback) => {
                self.path.truncate(self.committed);
                self.view = rollback.view();
                self.rolled_back = true;
            }
            Step::Transfer(state) => {
                self.path.truncate(0);
                self.committed = 0;
                self.view = state.view();
                self.rolled_back = false;
                self.transferred = Some(state);
            }
        }
        Ok(())
    }
}
