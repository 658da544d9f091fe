//! The seats that are not given out.

ghost use Rattle.std.specs.Prelude.{◌≡◌, ◌<◌, IfSome, IsTrue, ◌↔◌, None, Some, slice_set, slice_index_or};
ghost use Rattle.eve_recorder.specs.RecorderViews.{Places, HasAllSeats};

use crate::passes::QueuePass;
use crate::seat_table::SeatTable;
use crate::taker_seat::TakerSeat;
use crate::worker_seat::WorkerSeat;
use std::marker::Model;

/// The seats of a recorder. Contracts see which are there (`Places`).
///
/// docs/DEPLOYMENT.md, "Recorder lists, drawn numbers".
#[derive(Drop)]
pub struct Seats {
    pub(crate) main: QueuePass,
    pub(crate) workers: u8,
    pub(crate) table: SeatTable<WorkerSeat>,
    pub(crate) taker: Option<TakerSeat>,
}

impl Model for Seats {
    ghost use Rattle.std.specs.Prelude.{◌≡◌, ◌≤◌, false, []};
    ghost use Rattle.crossbeam_queue.specs.Passes.{view as view_of};
    ghost use Rattle.eve_recorder.specs.RecorderViews.{Places, recorder_id, AreNotersSeated, IsTakerAt};
    ghost use Rattle.eve_recorder.specs.SeatTables.{seats_in_table};
    ghost use Rattle.eve_recorder.specs.QueueRule.{knowledge};
    ghost use Rattle.eve_recorder.specs.declared.limits.TheConstants.{MOST_SEATS};

    ghost Value = { Places };

    ghost view = { λ s. record {
      recorder = recorder_id s.main.table_id s.workers;
      seats = seats_in_table s.table;
      taker = s.taker;
    } };

    ghost invariant = { λ s. let recorder = recorder_id s.main.table_id s.workers in
        (s.main.me.1 ≡ []) × (view_of s.main ≡ knowledge false [] s.workers 0 0 []) × (s.workers ≤ MOST_SEATS)
        × AreNotersSeated recorder (seats_in_table s.table) × IsTakerAt recorder s.taker };
}

impl Seats {
    /// The seat of a worker, None where it isn't there.
    pub fn worker(&mut self, w: u8) -> Option<WorkerSeat>
        ensures out { result ≡ slice_index_or self.old.seats w None }
        ensures rest { self.new ≡ record self.old { seats = slice_set self.old.seats w None } }
        ensures own { IfSome result (λ s.
            (s.recorder ≡ self.old.recorder) × (s.worker ≡ w) × (w < self.old.recorder.workers)) }
    {
        self.table.take(w)
    }

    /// The taker's seat, None where it isn't there.
    pub fn taker(&mut self) -> Option<TakerSeat>
        ensures out { result ≡ self.old.taker }
        ensures rest { self.new ≡ record self.old { taker = None } }
        ensures own { IfSome result (λ s. s.recorder ≡ self.old.recorder) }
    {
        self.taker.take()
    }

    /// Puts a worker's seat of this recorder back.
    pub fn give_back(&mut self, seat: WorkerSeat)
        requires { seat.recorder ≡ self.old.recorder }
        ensures { self.new ≡ record self.old { seats = slice_set self.old.seats seat.worker (Some seat) } }
    {
        let w = seat.worker;
        self.table.put(w, seat);
    }

    /// Puts the taker's seat of this recorder back.
    pub fn give_taker(&mut self, seat: TakerSeat)
        requires { seat.recorder ≡ self.old.recorder }
        ensures { self.new ≡ record self.old { taker = Some seat } }
    {
        self.taker = Some(seat);
    }

    /// Whether every seat is there.
    pub fn whole(&self) -> bool
        ensures { IsTrue result ↔ HasAllSeats self.now }
    {
        self.taker.is_some() && self.table.has_below(self.workers)
    }
}
