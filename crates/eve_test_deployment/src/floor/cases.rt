//! A case: a floor and a batch, two workers, and what is done with them.

ghost use Rattle.std.specs.Prelude.{◌≡◌};
ghost use Rattle.eve_floor.specs.Executing.{IsSeatedAt};

use crate::floor::crew::{Crew, crew_of};
use crate::floor::gates::{Held, PairGate};
use crate::floor::opening::{Ask, batch_of, floor_of, state_of};
use crate::floor::site::{Site, take_both_turns, take_turn};
use crate::floor::telling::{is_done, tell_answer, tell_entries, tell_record, tell_whether};
use eve_accounts::Names;
use eve_floor::{Floor, Worker, flush};
use eve_recorder::TakerSeat;
use eve_stamps::AccessRecord;
use eve_testing::Text;
use eve_write::BatchData;
use std::alloc::{AllocError, Global};
use std::mem;
use std::sync::Wait;
use std::thread::Threads;

/// Two workers, one of which is at hand, and where they work.
#[derive(Drop)]
pub struct Case<'n> {
    site: Site<'n>,
    taker: TakerSeat,
    hand: Worker,
    other: Worker,
    ghost hand_at: { IsSeatedAt site.recorder site.tickets hand },
    ghost other_at: { IsSeatedAt site.recorder site.tickets other },
    ghost taker_at: { taker.recorder ≡ site.recorder.recorder },
}

/// What is done in a case.
#[derive(Clone, Copy)]
pub enum Act {
    /// The worker at hand executes the request with this index.
    Run(u16),
    /// Each worker executes a request, both at once. One has to wait, and that worker comes to hand.
    RunBoth,
    /// The other worker comes to hand.
    Turn,
    /// What waits in the worker at hand is noted.
    Flush,
    /// What was noted first, and not yet taken.
    Take,
    /// Of that the entries alone: who made it hangs on the schedule.
    TakeEntries,
    /// What was noted is taken, then what waits is noted, and taken.
    TakeBoth,
    /// What was done up to this tick is committed.
    Settle(u64),
    /// All stripes go back to what is committed.
    GoBack,
    /// All stripes have a state transferred.
    Install,
}

/// A case of which nothing is done yet: the requests of its batch, how much room the queue has, how many numbers there
/// are for each worker, and what their gate holds.
#[derive(Clone, Copy)]
pub struct Plan {
    pub asks: &'static [Ask],
    pub room: usize,
    pub limit: u64,
    pub held: Held,
}

/// The case of a plan.
pub fn case_of<'n>(
    alloc: Global,
    names: &'n Names<'n>,
    plan: &Plan,
    text: &mut Text,
) -> Result<Case<'n>, AllocError> {
    let floor = floor_of(alloc, names)?;
    match crew_of(alloc, plan.room, plan.limit) {
        Ok(crew) => Ok(at_work(floor, batch_of(alloc, plan.asks, text), crew, plan.held)),
        Err(why) => {
            drop(floor);
            Err(why)
        }
    }
}

/// A case of the crew, on this floor, with this batch.
fn at_work<'n>(floor: Floor<'n>, batch: BatchData, crew: Crew, held: Held) -> Case<'n> {
    let Crew {
        recorder,
        tickets,
        taker,
        hand,
        other,
    } = crew;
    Case {
        site: Site {
            floor,
            batch,
            recorder,
            tickets,
            gate: PairGate::new(held),
        },
        taker,
        hand,
        other,
    }
}

impl<'n> Case<'n> {
    /// Does these things, one after another, and tells what comes of them.
    pub fn play<R: Threads + Wait + Sync>(
        &mut self,
        rt: &R,
        alloc: Global,
        acts: &[Act],
        text: &mut Text,
    ) {
        for act in acts {
            match *act {
                Act::Run(index) => self.run(rt, index, text),
                Act::RunBoth => self.run_until_one_waits(rt, text),
                Act::Turn => self.turn(),
                Act::Flush => self.flush(rt, text),
                Act::Take => tell_record(self.take(rt), text),
                Act::TakeEntries => self.take_entries(rt, text),
                Act::TakeBoth => self.take_both(rt, text),
                Act::Settle(tick) => self.site.floor.settle(tick),
                Act::GoBack => self.site.floor.go_back(),
                Act::Install => self.install(alloc, text),
            }
        }
    }

    /// All stripes have a state transferred, if there is memory for it.
    fn install(&mut self, alloc: Global, text: &mut Text) {
        match state_of(alloc) {
            Ok(state) => self.site.floor.install(&state),
            Err(AllocError) => text.refused(),
        }
    }

    /// The worker at hand executes a request, if it is there and the worker has a place for it.
    fn run<R: Wait>(&mut self, rt: &R, index: u16, text: &mut Text) {
        let answer = take_turn(rt, &self.site, index, &mut self.hand);
        tell_answer(answer, text);
    }

    /// Both workers at once: the one at hand executes request 0, the other request 1. Whether each did.
    fn run_both<R: Threads + Wait + Sync>(&mut self, rt: &R, text: &mut Text) -> (bool, bool) {
        let (first, second) = take_both_turns(rt, &self.site, &mut self.hand, &mut self.other);
        (is_done(first, text), is_done(second, text))
    }

    /// Both at once. Whether their gate shows what it looks for; the case is at its end then.
    pub fn shows<R: Threads + Wait + Sync>(mut self, rt: &R, text: &mut Text) -> bool {
        let (first, second) = self.run_both(rt, text);
        let is_shown = self.site.gate.is_shown(first && second);
        drop(self);
        is_shown
    }

    /// Both at once, of which one has to wait: that worker comes to hand.
    fn run_until_one_waits<R: Threads + Wait + Sync>(&mut self, rt: &R, text: &mut Text) {
        let (first, second) = self.run_both(rt, text);
        tell_whether(first != second, text);
        if first {
            self.turn();
        }
    }

    /// The other worker comes to hand.
    fn turn(&mut self) {
        mem::swap(&mut self.hand, &mut self.other);
    }

    /// What waits in the worker at hand is noted.
    fn flush<R: Wait>(&mut self, rt: &R, text: &mut Text) {
        text.words(", flush");
        let answer = flush(rt, &self.site.recorder, &mut self.hand);
        tell_answer(answer, text);
    }

    /// What was noted first, and not yet taken.
    fn take<R: Wait>(&mut self, rt: &R) -> Option<AccessRecord> {
        self.site.recorder.take(rt, &mut self.taker)
    }

    /// Tells whether both were there: what was noted, and what waited and is noted then.
    fn take_both<R: Wait>(&mut self, rt: &R, text: &mut Text) {
        let first = self.take(rt).is_some();
        self.flush(rt, text);
        let second = self.take(rt).is_some();
        tell_whether(first && second, text);
    }

    /// Tells the entries of what was noted first, and not yet taken.
    fn take_entries<R: Wait>(&mut self, rt: &R, text: &mut Text) {
        if let Some(record) = self.take(rt) {
            tell_entries(&record, text);
            drop(record);
        }
    }

    /// The worker at hand, alone.
    pub fn into_hand(self) -> Worker {
        let Case {
            site,
            taker,
            hand,
            other,
        } = self;
        drop(site);
        drop(taker);
        drop(other);
        hand
    }
}
