//! Where two workers work, and their turns there.

ghost use Rattle.std.specs.Prelude.{◌≡◌};
ghost use Rattle.eve_floor.specs.Executing.{IsSeatedAt};

use crate::floor::gates::PairGate;
use eve_floor::{ExecFault, Floor, Worker, execute};
use eve_recorder::{Recorder, Tickets};
use eve_stamps::MOST_PLACES;
use eve_write::BatchData;
use std::sync::Wait;
use std::thread::{Threads, join_mut};

/// A floor and a batch, the recorder and the tickets of the workers' seats, and the gate before which they execute.
#[derive(Drop)]
pub struct Site<'n> {
    pub floor: Floor<'n>,
    pub batch: BatchData,
    pub recorder: Recorder,
    pub tickets: Tickets,
    pub gate: PairGate,
}

/// The worker executes the request, if it is there and the worker has a place for it.
pub fn take_turn<R: Wait>(
    rt: &R,
    site: &Site,
    index: u16,
    worker: &mut Worker,
) -> Result<(), ExecFault>
    requires { IsSeatedAt site.now.recorder site.now.tickets worker.old }
    ensures { IsSeatedAt site.now.recorder site.now.tickets worker.new }
{
    site.gate.begins(index);
    if worker.place() as usize >= MOST_PLACES || usize::from(index) >= site.batch.requests.len() {
        return Err(ExecFault::NoRow);
    }
    let answer = execute(
        rt,
        &site.floor,
        &site.recorder,
        &site.tickets,
        worker,
        &site.batch,
        index,
        &site.gate,
    );
    if answer.is_ok() {
        site.gate.noted(index);
    }
    answer
}

/// Both turns at once, each in a thread: the first worker executes request 0, the second request 1.
pub fn take_both_turns<R: Threads + Wait + Sync>(
    rt: &R,
    site: &Site,
    first: &mut Worker,
    second: &mut Worker,
) -> (Result<(), ExecFault>, Result<(), ExecFault>)
    requires first { IsSeatedAt site.now.recorder site.now.tickets first.old }
    requires second { IsSeatedAt site.now.recorder site.now.tickets second.old }
    ensures first { IsSeatedAt site.now.recorder site.now.tickets first.new }
    ensures second { IsSeatedAt site.now.recorder site.now.tickets second.new }
{
    let mut one = || -> Result<(), ExecFault>
        requires { IsSeatedAt site.now.recorder site.now.tickets first.now }
        ensures { IsSeatedAt site.entry.now.recorder site.entry.now.tickets first.exit.now }
    { take_turn(rt, site, 0, first) };
    let mut other = || -> Result<(), ExecFault>
        requires { IsSeatedAt site.now.recorder site.now.tickets second.now }
        ensures { IsSeatedAt site.entry.now.recorder site.entry.now.tickets second.exit.now }
    { take_turn(rt, site, 1, second) };
    join_mut(rt, &mut one, &mut other)
}
