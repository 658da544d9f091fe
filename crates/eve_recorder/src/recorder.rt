//! The recorder: how it is made, its two steps, and how it is ended.

ghost use Rattle.std.specs.Prelude.{◌≡◌, ◌<◌, ◌≤◌, ◌+◌, true, false, [], ◌++◌, ◌∷◌, ℕ, min, max, length, IfOk, OnOk};
ghost use Rattle.std.specs.Prelude.{IfErr, IfSome, IsSome, IfNone, Some, slice_get, MatchResult};
ghost use Rattle.crossbeam_queue.specs.Passes.{view, IsPassOf, IsSamePass, ruled_capacity};
ghost use Rattle.crossbeam_queue.specs.Fifo.{Held};
ghost use Rattle.eve_recorder.specs.Noted.{of_worker, IsOrderly};
ghost use Rattle.eve_recorder.specs.QueueRule.{knowledge, noting, StandsFor, SeesSome};
ghost use Rattle.eve_recorder.specs.RecorderViews.{Desk, Noter, recorder_id, fresh_noter};
ghost use Rattle.eve_recorder.specs.RecorderViews.{fresh_places};
ghost use Rattle.eve_recorder.specs.RecorderViews.{noted_on, IsNoterOf, HasAllSeats, WasFull, WasEmpty};

use crate::limits::{MOST_QUEUED, MOST_SEATS};
use crate::passes::{AbsentCut, Notes, Queue, QueuePass, TakerCut, Takes, WorkerCut};
use crate::seat_table::SeatTable;
use crate::seats::Seats;
use crate::taken::Taken;
use crate::taker_seat::TakerSeat;
use crate::worker_seat::WorkerSeat;
use eve_stamps::AccessRecord;
use std::alloc::{AllocError, Global};
use std::marker::Model;
use std::sync::Wait;

/// Why a record was not noted.
#[derive(Clone, Copy)]
pub enum NoteFault {
    /// The queue was full at one moment. The record comes back.
    Full(AccessRecord),
}

/// A bounded queue of records, which workers note and one taker takes. Contracts see which recorder it is, with how
/// many workers, and its room (`Desk`); the lists stand in the seats.
///
/// docs/DEPLOYMENT.md, "Recorder lists, drawn numbers".
#[derive(Drop)]
pub struct Recorder {
    pub(crate) queue: Queue,
    pub(crate) workers: u8,
}

impl Model for Recorder {
    ghost use Rattle.crossbeam_queue.specs.Passes.{ruled_capacity};
    ghost use Rattle.eve_recorder.specs.RecorderViews.{Desk, recorder_id};

    ghost Value = { Desk };

    ghost view = { λ r. record {
      recorder = recorder_id r.queue.table.shared.table_id r.workers;
      room = ruled_capacity r.queue;
    } };
}

impl Recorder {
    /// A recorder with room for `room` queued records, and its seats: one for each worker, and the taker's.
    pub fn new(alloc: Global, workers: u8, room: usize) -> Result<(Recorder, Seats), AllocError>
        requires workers { (1 ≤ workers) × (workers ≤ MOST_SEATS) }
        requires room { (1 ≤ room) × (room ≤ MOST_QUEUED) }
        ensures workers { IfOk result (λ r. r.0.recorder.workers ≡ workers) }
        ensures room { IfOk result (λ r. r.0.room ≡ room) }
        ensures seats { IfOk result (λ r. r.1 ≡ fresh_places r.0.recorder) }
    {
        let (queue, mut main) = Queue::ruled(alloc, room)?;
        let s7 = cut(&queue, &mut main, 7, workers);
        let s6 = cut(&queue, &mut main, 6, workers);
        let s5 = cut(&queue, &mut main, 5, workers);
        let s4 = cut(&queue, &mut main, 4, workers);
        let s3 = cut(&queue, &mut main, 3, workers);
        let s2 = cut(&queue, &mut main, 2, workers);
        let s1 = cut(&queue, &mut main, 1, workers);
        let s0 = cut(&queue, &mut main, 0, workers);
        let taker = queue.another::<TakerCut>(&mut main);
        let seats = Seats {
            main,
            workers,
            table: SeatTable {
                s0,
                s1,
                s2,
                s3,
                s4,
                s5,
                s6,
                s7,
            },
            taker: Some(TakerSeat { pass: taker }),
        };
        Ok((Recorder { queue, workers }, seats))
    }

    /// Appends the record to its worker's list. The record names the worker and the next place of the seat, and the
    /// seat is of this recorder. Full where the queue was full at one moment: of a recorder of one worker, only once
    /// that worker has noted `room` records.
    pub fn note<R: Wait>(
        &self,
        rt: &R,
        seat: &mut WorkerSeat,
        made: AccessRecord,
    ) -> Result<(), NoteFault>
        requires own { seat.old.recorder ≡ self.now.recorder }
        requires next { (made.worker ≡ seat.old.worker) × (made.place ≡ length seat.old.noted) }
        ensures ok { OnOk result (seat.new ≡ record seat.old { noted = seat.old.noted ++ made ∷ [] }) }
        ensures same { IfErr result (λ e. (e ≡ NoteFault.Full made) × (seat.new ≡ seat.old)) }
        ensures own { (seat.new.recorder ≡ seat.old.recorder) × (seat.new.worker ≡ seat.old.worker) }
        ensures full { IfErr result (λ _. WasFull self.now seat.old) }
        ensures alone { IfErr result (λ _. self.now.recorder.workers ≡ 1 → self.now.room ≤ length seat.old.noted) }
    {
        match push(&self.queue, rt, &mut seat.pass, made) {
            Ok(()) => {
                seat.place += 1;
                Ok(())
            }
            Err(made) => Err(NoteFault::Full(made)),
        }
    }

    /// Takes the next record that is queued, None where the queue was empty at one moment. The seat is of this
    /// recorder. What is taken is of a worker that is there, and what was taken of each has the places 0, 1, 2, ..,
    /// each once. No clause speaks of the order across workers, which is the queue's.
    pub fn take<R: Wait>(&self, rt: &R, seat: &mut TakerSeat) -> Option<AccessRecord>
        requires { seat.old.recorder ≡ self.now.recorder }
        ensures some { IfSome result (λ x. seat.new ≡ record seat.old { taken = seat.old.taken ++ x ∷ [] }) }
        ensures whose { IfSome result (λ x. x.worker < self.now.recorder.workers) }
        ensures none { IfNone result (seat.new ≡ seat.old) }
        ensures own { seat.new.recorder ≡ seat.old.recorder }
        ensures empty { IfNone result (WasEmpty seat.old.taken) }
        ensures orderly { IsOrderly seat.new.taken }
    {
        self.queue.pop_as::<Takes, R>(rt, &mut seat.pass)
    }

    /// Ends the recorder once all its seats are back. What is queued can still be taken, by `Taken::next`.
    pub fn finish(self, seats: Seats) -> Taken
        requires own { seats.recorder ≡ self.recorder }
        requires whole { HasAllSeats seats }
        ensures noted { (w : ℕ) (x : Noter) → slice_get seats.seats w ≡ Some (Some x)
            → of_worker w result.noted ≡ x.noted }
        ensures others { (w : ℕ) → seats.recorder.workers ≤ w → of_worker w result.noted ≡ [] }
        ensures taken { IfSome seats.taker (λ t. result.taken ≡ t.taken) }
    {
        let Recorder { queue, .. } = self;
        let Seats {
            mut main,
            workers,
            table,
            taker,
        } = seats;
        let SeatTable {
            s0,
            s1,
            s2,
            s3,
            s4,
            s5,
            s6,
            s7,
        } = table;
        put_back(&queue, &mut main, s0, 0, workers);
        put_back(&queue, &mut main, s1, 1, workers);
        put_back(&queue, &mut main, s2, 2, workers);
        put_back(&queue, &mut main, s3, 3, workers);
        put_back(&queue, &mut main, s4, 4, workers);
        put_back(&queue, &mut main, s5, 5, workers);
        put_back(&queue, &mut main, s6, 6, workers);
        put_back(&queue, &mut main, s7, 7, workers);
        let Some(taker) = taker else { unreachable!() };
        let TakerSeat { pass } = taker;
        queue.absorb::<TakerCut>(&mut main, pass);
        Taken { queue, pass: main }
    }
}

/// Notes a record on the pass that stands for its worker. It comes back where the queue was full at one moment.
fn push<R: Wait>(
    queue: &Queue,
    rt: &R,
    pass: &mut QueuePass,
    made: AccessRecord,
) -> Result<(), AccessRecord>
    requires queue { IsPassOf queue.now pass.old }
    requires stands { StandsFor (view pass.old) made.worker }
    requires next { made.place ≡ length (of_worker made.worker (view pass.old).noted) }
    ensures queue { IsSamePass pass.old pass.new }
    ensures rule { MatchResult result (λ _. view pass.new ≡ noting (view pass.old) made)
        (λ x. (x ≡ made) × (view pass.new ≡ view pass.old)
        × Held (ruled_capacity queue.now) (SeesSome (view pass.old))) }
{
    queue.push_as::<Notes, R>(rt, pass, made)
}

/// Cuts the last of the workers 0 to w off: its seat, if it is to be there, and else it is no worker.
fn cut(queue: &Queue, main: &mut QueuePass, w: u8, workers: u8) -> Option<WorkerSeat>
    requires queue { IsPassOf queue.now main.old }
    requires main { view main.old ≡ knowledge true [] (max workers (w + 1)) 0 (w + 1) [] }
    requires few { (workers ≤ MOST_SEATS) × (w < MOST_SEATS) }
    ensures queue { IsSamePass main.old main.new }
    ensures main { view main.new ≡ knowledge true [] (max workers w) 0 w [] }
    ensures seat { result ≡ fresh_noter (recorder_id queue.now.table.shared.table_id workers) w }
{
    if w >= workers {
        queue.another::<AbsentCut>(main);
        return None;
    }
    let pass = queue.another::<WorkerCut>(main);
    Some(WorkerSeat {
        pass,
        worker: w,
        place: 0,
    })
}

/// Joins the seat of worker `w`, if there is one, after those of the workers before it.
fn put_back(queue: &Queue, main: &mut QueuePass, seat: Option<WorkerSeat>, w: u8, workers: u8)
    requires queue { IsPassOf queue.now main.old }
    requires main { view main.old ≡ knowledge false [] workers 0 (min workers w) (view main.old).noted }
    requires there { w < workers → IsSome seat }
    requires own { IfSome seat (IsNoterOf (recorder_id queue.now.table.shared.table_id workers) w) }
    ensures queue { IsSamePass main.old main.new }
    ensures main { view main.new
        ≡ knowledge false [] workers 0 (min workers (w + 1)) ((view main.old).noted ++ noted_on seat) }
{
    if let Some(seat) = seat {
        let WorkerSeat { pass, .. } = seat;
        queue.absorb::<WorkerCut>(main, pass);
    }
}
