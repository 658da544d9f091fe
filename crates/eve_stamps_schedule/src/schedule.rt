//! A batch that workers execute, event by event.

ghost use Rattle.std.specs.Prelude.{◌≡◌, ◌*◌, ◌<◌, ℕ, IsTrue, IsPermutation, IfOk, length};
ghost use Rattle.eve_write.specs.Data.{batch as plain};
ghost use Rattle.eve_stamps_schedule.specs.World.{first_world, records_at, records_below};
ghost use Rattle.eve_stamps_schedule.specs.Serial.{IsReachedWorld, IsSerialWorld, AreNotedBy, order_of, is_done};
ghost use Rattle.eve_stamps_schedule.specs.Serial.{IsComplete};
ghost use Rattle.eve_stamps_schedule.specs.Schedule.{opening_plan, plan_of, world_of, Steps};

use crate::opening::{all_idle, no_owners, no_records, opening_stripes};
use crate::stage::Stage;
use crate::{Event, StepFault};
use eve_accounts::{Balances, Names};
use eve_stamps::{AccessRecord, MOST_PLACES, Stripe};
use eve_write::BatchData;
use std::alloc::{AllocError, Global};
use std::marker::Model;

/// A batch that is executed from the opening balances by workers who step one at a time: no threads, no locks, and any
/// order of events that the rules allow.
///
/// docs/DEPLOYMENT.md, "Schedule". Contracts see `Schedule` of the specs: `plan_of` is what is executed, `world_of`
/// what has
/// come of it so far, which is always reached by events that were allowed.
#[derive(Drop)]
pub struct Schedule<'s> {
    pub(crate) names: &'s Names<'s>,
    pub(crate) batch: &'s BatchData,
    pub(crate) stripes: Vec<Stripe>,
    pub(crate) owners: Vec<Option<u8>>,
    pub(crate) claimed: u16,
    pub(crate) counter: u64,
    pub(crate) stages: Vec<Stage>,
    pub(crate) noted: Vec<Vec<AccessRecord>>,
    pub(crate) noted_count: u16,
    pub(crate) applied: Vec<AccessRecord>,
}

impl<'s> Model for Schedule<'s> {
    ghost use Rattle.eve_stamps_schedule.specs.Schedule as model;

    ghost Value = { model.Schedule };

    ghost use Rattle.eve_stamps_schedule.specs.Scheduled.{schedule_of, IsHeldSchedule};

    ghost view = { schedule_of };

    ghost invariant = { λ s. IsHeldSchedule (schedule_of s) s.noted_count };
}

impl<'s> Schedule<'s> {
    /// A schedule in which no request of the batch is claimed, with the opening balances in the stripes. The batch has
    /// fewer than 65,536 requests, as one of a trace has, and there are two rows for each name.
    pub fn new(
        alloc: Global,
        names: &'s Names<'s>,
        balances: &Balances,
        batch: &'s BatchData,
        workers: u8,
    ) -> Result<Schedule<'s>, AllocError>
        requires requests { length batch.now.requests.items < MOST_PLACES }
        requires rows { length balances.now ≡ 2 * length names.now.items }
        ensures plan { IfOk result (λ s. plan_of s
            ≡ opening_plan names.now.items balances.now (plain batch.now) workers) }
        ensures first { IfOk result (λ s. world_of s ≡ first_world (plan_of s)) }
    {
        Ok(Schedule {
            names,
            batch,
            stripes: opening_stripes(alloc, balances, names.len() as u32)?,
            owners: no_owners(alloc)?,
            claimed: 0,
            counter: 0,
            stages: all_idle(alloc, workers)?,
            noted: no_records(alloc, workers)?,
            noted_count: 0,
            applied: Vec::with_capacity(alloc, batch.requests.len())?,
        })
    }

    /// Takes a step, or answers `NotAllowed` where that event isn't allowed now. `Memory` comes at Apply and Note
    /// alone.
    ///
    /// A claim looks through the sizes of the parallelBatches; an Apply searches rows in their stripes and goes back
    /// over the records that others applied since its tick; every other step takes constant time. After a refusal
    /// nothing has changed, and the step can be taken again.
    ///
    /// docs/DEPLOYMENT.md, "Schedule".
    pub fn step(&mut self, event: Event) -> Result<(), StepFault>
        ensures { Steps event self.old self.new result }
    {
        if self.stages.len() <= event.worker() as usize {
            return Err(StepFault::NotAllowed);
        }
        match event {
            Event::Claim(worker) => self.claim(worker),
            Event::LockStripe(worker) => self.lock_stripe(worker),
            Event::Tick(worker) => self.tick(worker),
            Event::Apply(worker) => self.apply(worker),
            Event::Unlock(worker) => self.unlock(worker),
            Event::Note(worker) => self.note(worker),
        }
    }

    /// How many workers there are.
    pub fn workers(&self) -> usize
        ensures { result ≡ (plan_of self.now).workers }
    {
        self.stages.len()
    }

    /// What the worker has noted, in order.
    pub fn noted(&self, worker: u8) -> &[AccessRecord]
        requires there { worker < (plan_of self.now).workers }
        ensures { result.now ≡ (world_of self.now).noted worker }
    {
        self.noted[worker as usize].as_slice()
    }

    /// The indexes of the requests that are applied, by rising tick.
    pub fn order(&self, alloc: Global) -> Result<Vec<u16>, AllocError>
        ensures { IfOk result (λ order. order.items ≡ order_of (world_of self.now)) }
    {
        self.applied
            .iter()
            .map(|record| record.index())
            .collect(alloc)
    }

    /// Whether every request is noted.
    pub fn done(&self) -> bool
        ensures { result ≡ is_done (plan_of self.now) (world_of self.now) }
    {
        self.noted_count as usize == self.batch.requests.len()
    }

    /// Does nothing: its contract says what is true of every schedule, however it came to where it is.
    ///
    /// docs/DEPLOYMENT.md, "Schedule".
    pub fn recall_serial(&self)
        ensures reached { IsReachedWorld (plan_of self.now) (world_of self.now) }
        ensures serial { IsSerialWorld (plan_of self.now) (world_of self.now) }
        // The records that the workers noted or are about to note are the applied ones.
        ensures gathered { let world = world_of self.now in
            IsPermutation (records_below world (plan_of self.now).workers) world.applied }
        // Those of each worker are its own and have the places 0, 1, 2, ..
        ensures listed { (v : ℕ) → AreNotedBy v 0 (records_at (world_of self.now) v) }
        ensures complete { IsTrue (is_done (plan_of self.now) (world_of self.now))
            → IsComplete (plan_of self.now) (world_of self.now) }
    {
        let _ = &self.stripes;
    }
}
