//! The seat of the taker.

use crate::passes::QueuePass;
use std::marker::Model;

/// The right to take. Contracts see of which recorder it is, and what was taken on it (`Taker`).
///
/// docs/DEPLOYMENT.md, "Recorder lists, drawn numbers".
#[derive(Drop)]
pub struct TakerSeat {
    pub(crate) pass: QueuePass,
}

impl Model for TakerSeat {
    ghost use Rattle.std.specs.Prelude.{◌≡◌, true, []};
    ghost use Rattle.crossbeam_queue.specs.Passes.{view as view_of};
    ghost use Rattle.eve_recorder.specs.RecorderViews.{Taker, recorder_id};
    ghost use Rattle.eve_recorder.specs.Noted.{IsOrderly};
    ghost use Rattle.eve_recorder.specs.QueueRule.{knowledge};

    ghost Value = { Taker };

    ghost view = { λ s. record {
      recorder = recorder_id s.pass.table_id (view_of s.pass).workers;
      taken = (view_of s.pass).taken;
    } };

    ghost invariant = { λ s. let v = view_of s.pass in
        (s.pass.me.1 ≡ []) × (v ≡ knowledge true v.taken v.workers 0 0 []) × IsOrderly v.taken };
}
