//! Recorders: a queue that is filled and drained, and eight threads that note while another takes.

ghost use Rattle.std.specs.Prelude.{◌≡◌, ◌≤◌, All, IfOk, IfSome, length};

use eve_recorder::{MOST_QUEUED, MOST_SEATS, NoteFault, Recorder, Seats, TakerSeat, WorkerSeat};
use eve_smallbank::Abort;
use eve_stamps::{AccessRecord, Stamp, untouched};
use eve_testing::Seen;
use std::alloc::{AllocError, Global};
use std::sync::Wait;
use std::thread::{Threads, for_each_mut, yield_now};

/// A recorder with those of its seats that aren't given out.
#[derive(Drop)]
struct Desk {
    recorder: Recorder,
    seats: Seats,
    ghost own: { seats.recorder ≡ recorder.recorder },
}

/// A recorder for these workers, with this room; where memory is refused, it is asked for once more. None where it
/// is refused twice.
fn desk_of(alloc: Global, workers: u8, room: usize, seen: &mut Seen) -> Option<Desk>
    requires workers { (1 ≤ workers) × (workers ≤ MOST_SEATS) }
    requires room { (1 ≤ room) × (room ≤ MOST_QUEUED) }
{
    let made = match Recorder::new(alloc, workers, room) {
        Err(AllocError) => Recorder::new(alloc, workers, room),
        made => made,
    };
    match made {
        Ok((recorder, seats)) => Some(Desk { recorder, seats }),
        Err(AllocError) => {
            seen.needs(false);
            None
        }
    }
}

/// The record that the worker notes at this place.
fn record_at(worker: u8, place: u16) -> AccessRecord
    ensures { (result.worker ≡ worker) × (result.place ≡ place) }
{
    let stamp = Stamp {
        worker,
        place,
        index: place,
        tick: u64::from(place),
    };
    untouched(Abort::NoSuchName, stamp)
}

/// The record that may be noted next on a seat; none where its worker has noted 30.
fn next_record(seat: &WorkerSeat) -> Option<AccessRecord>
    ensures { IfSome result (λ x. (x.worker ≡ seat.now.worker) × (x.place ≡ length seat.now.noted)) }
{
    match u16::try_from(seat.place()) {
        Ok(place) if place < 30 => Some(record_at(seat.worker(), place)),
        _ => None,
    }
}

/// Whether a record was noted, where it is due to be, and else came back: as the one that may be noted next.
fn is_answered(answer: &Result<(), NoteFault>, next: &Option<AccessRecord>, due: bool) -> bool {
    match answer {
        Ok(()) => due,
        Err(NoteFault::Full(back)) => match next {
            Some(made) => !due && back == made,
            None => false,
        },
    }
}

impl Desk {
    /// Whether the worker's seat is there, once, and the seats aren't whole without it, and its next record is noted,
    /// or comes back since the queue is full, as it is due.
    fn notes<R: Wait>(&mut self, rt: &R, worker: u8, due: bool) -> bool {
        let Some(mut seat) = self.seats.worker(worker) else {
            return false;
        };
        let is_there_once = self.seats.worker(worker).is_none() && !self.seats.whole();
        let is_as_due = match next_record(&seat) {
            Some(made) => {
                let answer = self.recorder.note(rt, &mut seat, made);
                is_answered(&answer, &next_record(&seat), due)
            }
            None => false,
        };
        self.seats.give_back(seat);
        is_there_once && is_as_due
    }

    /// Whether the taker's seat is there, once, and the seats aren't whole without it, and that is taken next, or
    /// nothing.
    fn takes<R: Wait>(&mut self, rt: &R, due: Option<AccessRecord>) -> bool {
        let Some(mut seat) = self.seats.taker() else {
            return false;
        };
        let is_there_once = self.seats.taker().is_none() && !self.seats.whole();
        let taken = self.recorder.take(rt, &mut seat);
        self.seats.give_taker(seat);
        is_there_once && taken == due
    }

    /// Whether that record alone is left in the queue when the recorder ends, or none; false where a seat is missing.
    fn leaves<R: Wait>(self, rt: &R, due: Option<AccessRecord>) -> bool {
        let Desk { recorder, seats } = self;
        if !seats.whole() {
            return false;
        }
        let mut taken = recorder.finish(seats);
        let first = taken.next(rt);
        let second = taken.next(rt);
        first == due && second.is_none()
    }
}

/// Fills a queue with room for one record, drains it and fills it again.
pub fn fill_and_drain<R: Wait>(rt: &R, alloc: Global, seen: &mut Seen) {
    let Some(mut desk) = desk_of(alloc, 1, 1, seen) else {
        return;
    };
    seen.want(desk.seats.whole(), "all seats are there");
    seen.want(desk.takes(rt, None), "nothing is queued");
    seen.want(desk.notes(rt, 0, true), "the first is noted");
    seen.want(desk.notes(rt, 0, false), "the queue is full");
    seen.want(!desk.notes(rt, 1, false), "there is no second worker");
    seen.want(desk.takes(rt, Some(record_at(0, 0))), "the first is taken");
    seen.want(desk.notes(rt, 0, true), "the second is noted");
    seen.want(desk.leaves(rt, Some(record_at(0, 1))), "it is left");
}

/// What came of each worker: the place that is due next, and whether each record had its own.
#[derive(Clone, Copy)]
struct Tally {
    due: [u16; 8],
    in_order: bool,
}

impl Tally {
    fn see(&mut self, met: AccessRecord) {
        let w = usize::from(met.worker());
        if w >= 8 || met.place() != self.due[w] {
            self.in_order = false;
            return;
        }
        self.due[w] = self.due[w].wrapping_add(1);
    }

    /// Whether 30 records came of each worker.
    fn has_all(&self) -> bool {
        for due in &self.due {
            if *due != 30 {
                return false;
            }
        }
        true
    }
}

/// One that notes or takes, on a worker's seat or the taker's; and what came of the workers, where it takes.
#[derive(Drop)]
struct Party {
    worker: Option<WorkerSeat>,
    taker: Option<TakerSeat>,
    tally: Tally,
}

impl Party {
    fn new(worker: Option<WorkerSeat>, taker: Option<TakerSeat>) -> Party
        ensures { (result.worker ≡ worker) × (result.taker ≡ taker) }
    {
        Party {
            worker,
            taker,
            tally: Tally {
                due: [0; 8],
                in_order: true,
            },
        }
    }

    /// Notes 30 records, or takes 240.
    fn run<R: Wait>(&mut self, rt: &R, recorder: &Recorder)
        requires worker { IfSome self.old.worker (λ s. s.recorder ≡ recorder.now.recorder) }
        requires taker { IfSome self.old.taker (λ s. s.recorder ≡ recorder.now.recorder) }
        ensures worker { IfSome self.new.worker (λ s. s.recorder ≡ recorder.now.recorder) }
        ensures taker { IfSome self.new.taker (λ s. s.recorder ≡ recorder.now.recorder) }
    {
        if let Some(seat) = &mut self.worker {
            note_all(rt, recorder, seat);
        }
        if let Some(seat) = &mut self.taker {
            take_all(rt, recorder, seat, &mut self.tally);
        }
    }
}

/// Notes 30 records; one that finds the queue full is tried again.
fn note_all<R: Wait>(rt: &R, recorder: &Recorder, seat: &mut WorkerSeat)
    requires { seat.old.recorder ≡ recorder.now.recorder }
    ensures { seat.new.recorder ≡ seat.old.recorder }
{
    for _ in rt.forever() {
        let Some(made) = next_record(seat) else {
            return;
        };
        if recorder.note(rt, seat, made).is_err() {
            yield_now();
        }
    }
}

/// Takes 240 records as they come.
fn take_all<R: Wait>(rt: &R, recorder: &Recorder, seat: &mut TakerSeat, tally: &mut Tally)
    requires { seat.old.recorder ≡ recorder.now.recorder }
    ensures { seat.new.recorder ≡ seat.old.recorder }
{
    let mut left: u32 = 240;
    for _ in rt.forever() {
        if left == 0 {
            return;
        }
        match recorder.take(rt, seat) {
            Some(record) => {
                tally.see(record);
                left -= 1;
            }
            None => yield_now(),
        }
    }
}

/// The taker's seat, and those of the workers 0 to 7; fewer where memory is refused.
fn parties_of(alloc: Global, seats: &mut Seats) -> Vec<Party>
    ensures workers { All (λ p. IfSome p.worker (λ s. s.recorder ≡ seats.old.recorder)) result.items }
    ensures takers { All (λ p. IfSome p.taker (λ s. s.recorder ≡ seats.old.recorder)) result.items }
    ensures same { seats.new.recorder ≡ seats.old.recorder }
{
    let mut parties = Vec::new(alloc);
    let _ = parties.push(Party::new(None, seats.taker()));
    for w in 0..8 {
        let _ = parties.push(Party::new(seats.worker(w), None));
    }
    parties
}

/// Each does what it does in a thread of its own, if all are there.
fn run_all<R: Threads + Wait + Sync>(
    rt: &R,
    recorder: &Recorder,
    parties: &mut Vec<Party>,
    seen: &mut Seen,
)
    requires workers { All (λ p. IfSome p.worker (λ s. s.recorder ≡ recorder.now.recorder)) parties.old.items }
    requires takers { All (λ p. IfSome p.taker (λ s. s.recorder ≡ recorder.now.recorder)) parties.old.items }
    ensures workers { All (λ p. IfSome p.worker (λ s. s.recorder ≡ recorder.now.recorder)) parties.new.items }
    ensures takers { All (λ p. IfSome p.taker (λ s. s.recorder ≡ recorder.now.recorder)) parties.new.items }
{
    if parties.len() < 9 {
        return seen.needs(false);
    }
    for_each_mut(
        rt,
        parties.as_mut_slice(),
        9,
        &|_: usize, party: &mut Party|
            requires { IfSome party.old.worker (λ s. s.recorder ≡ recorder.now.recorder)
                × IfSome party.old.taker (λ s. s.recorder ≡ recorder.now.recorder) }
            ensures { IfSome party.new.worker (λ s. s.recorder ≡ recorder.entry.now.recorder)
                × IfSome party.new.taker (λ s. s.recorder ≡ recorder.entry.now.recorder) }
        { party.run(rt, recorder) },
    );
}

/// Puts the seats back. What came of the workers.
fn give_all(seats: &mut Seats, mut parties: Vec<Party>) -> Tally
    requires workers { All (λ p. IfSome p.worker (λ s. s.recorder ≡ seats.old.recorder)) parties.items }
    requires takers { All (λ p. IfSome p.taker (λ s. s.recorder ≡ seats.old.recorder)) parties.items }
    ensures { seats.new.recorder ≡ seats.old.recorder }
{
    let mut met = Tally {
        due: [0; 8],
        in_order: true,
    };
    while let Some(party) = parties.pop() {
        let Party {
            worker,
            taker,
            tally,
        } = party;
        if let Some(seat) = worker {
            seats.give_back(seat);
        }
        if let Some(seat) = taker {
            seats.give_taker(seat);
            met = tally;
        }
    }
    met
}

impl Desk {
    /// Eight workers note in threads, while another takes. What came of them.
    fn meet<R: Threads + Wait + Sync>(&mut self, rt: &R, alloc: Global, seen: &mut Seen) -> Tally {
        let mut parties = parties_of(alloc, &mut self.seats);
        run_all(rt, &self.recorder, &mut parties, seen);
        give_all(&mut self.seats, parties)
    }
}

/// Each of eight workers notes 30 records in a queue with room for 16, while another thread takes all.
pub fn note_at_once<R: Threads + Wait + Sync>(rt: &R, alloc: Global, seen: &mut Seen) {
    let Some(mut desk) = desk_of(alloc, 8, 16, seen) else {
        return;
    };
    let tally = desk.meet(rt, alloc, seen);
    seen.want(tally.in_order, "each record comes at its place");
    seen.want(tally.has_all(), "all records come");
    seen.want(desk.leaves(rt, None), "none is left");
}
