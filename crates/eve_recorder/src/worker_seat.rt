//! The seat of a worker.

ghost use Rattle.std.specs.Prelude.{◌≡◌, length};

use crate::passes::QueuePass;
use std::marker::Model;

/// The right of one worker to note. Contracts see of which recorder and worker it is, and what was noted on it
/// (`Noter`).
///
/// docs/DEPLOYMENT.md, "Recorder lists, drawn numbers".
#[derive(Drop)]
pub struct WorkerSeat {
    pub(crate) pass: QueuePass,
    pub(crate) worker: u8,
    pub(crate) place: u32,
}

impl Model for WorkerSeat {
    ghost use Rattle.std.specs.Prelude.{◌≡◌, []};
    ghost use Rattle.crossbeam_queue.specs.Passes.{view as view_of};
    ghost use Rattle.eve_recorder.specs.RecorderViews.{Noter, recorder_id};
    ghost use Rattle.eve_recorder.specs.QueueRule.{IsWorkers};

    ghost Value = { Noter };

    ghost view = { λ s. record {
      recorder = recorder_id s.pass.table_id (view_of s.pass).workers;
      worker = s.worker;
      noted = (view_of s.pass).noted;
    } };

    ghost invariant = { λ s. (s.pass.me.1 ≡ []) × IsWorkers s.worker s.place (view_of s.pass) };
}

impl WorkerSeat {
    /// The worker, from 0.
    pub fn worker(&self) -> u8
        ensures { result ≡ self.now.worker }
    {
        self.worker
    }

    /// The place of the record that is noted next, from 0.
    pub fn place(&self) -> u32
        ensures { result ≡ length self.now.noted }
    {
        self.place
    }
}
