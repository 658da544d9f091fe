//! The steps of a schedule, each of a worker that is there.

ghost use Rattle.std.specs.Prelude.{◌≡◌, ◌<◌, ℕ, length, is_none};
ghost use Rattle.eve_smallbank.specs.SmallBank.{plain};
ghost use Rattle.eve_stamps_schedule.specs.declared.event.Event.TheVariants.{Claim, LockStripe, Tick, Apply, Unlock};
ghost use Rattle.eve_stamps_schedule.specs.declared.event.Event.TheVariants.{Note};
ghost use Rattle.eve_stamps_schedule.specs.declared.stage.Stage.TheVariants.{Claimed, Ticked};
ghost use Rattle.eve_stamps_schedule.specs.World.{planned_request};
ghost use Rattle.eve_stamps_schedule.specs.Events.{may_claim as may_claim_now, next_stripe as next_stripe_of};
ghost use Rattle.eve_stamps_schedule.specs.Schedule.{plan_of, world_of, Steps};

use crate::applying::applied_on;
use crate::groups::group_of;
use crate::lists::append;
use crate::order::insert;
use crate::stage::Stage;
use crate::stripes::{last_stripe, next_stripe};
use crate::{Schedule, StepFault};
use eve_smallbank::{Request, touched};
use eve_stamps::{Stamp, StampFault};
use eve_write::BatchData;
use std::alloc::AllocError;

impl<'s> Schedule<'s> {
    /// The worker gets the least unclaimed index, if the current parallelBatch has it.
    pub(crate) fn claim(&mut self, worker: u8) -> Result<(), StepFault>
        requires there { worker < length self.old.stages }
        ensures { Steps (Claim worker) self.old self.new result }
    {
        let Stage::Idle = self.stage(worker) else {
            return Err(StepFault::NotAllowed);
        };
        if !self.may_claim() {
            return Err(StepFault::NotAllowed);
        }
        self.stages[worker as usize] = Stage::Claimed(self.claimed);
        self.claimed += 1;
        Ok(())
    }

    /// The worker owns the next stripe that its request needs, if nobody does.
    pub(crate) fn lock_stripe(&mut self, worker: u8) -> Result<(), StepFault>
        requires there { worker < length self.old.stages }
        ensures { Steps (LockStripe worker) self.old self.new result }
    {
        let Stage::Claimed(index) = self.stage(worker) else {
            return Err(StepFault::NotAllowed);
        };
        let Some(stripe) = self.next_stripe(worker, index) else {
            return Err(StepFault::NotAllowed);
        };
        if self.owners[stripe].is_some() {
            return Err(StepFault::NotAllowed);
        }
        self.owners[stripe] = Some(worker);
        Ok(())
    }

    /// The worker gets the counter's value, if it owns all stripes that its request needs.
    pub(crate) fn tick(&mut self, worker: u8) -> Result<(), StepFault>
        requires there { worker < length self.old.stages }
        ensures { Steps (Tick worker) self.old self.new result }
    {
        let Stage::Claimed(index) = self.stage(worker) else {
            return Err(StepFault::NotAllowed);
        };
        if !self.owns_all(worker, index) {
            return Err(StepFault::NotAllowed);
        }
        self.stages[worker as usize] = Stage::Ticked(index, self.counter);
        self.counter += 1;
        Ok(())
    }

    /// The worker's request is applied at its tick.
    pub(crate) fn apply(&mut self, worker: u8) -> Result<(), StepFault>
        requires there { worker < length self.old.stages }
        ensures { Steps (Apply worker) self.old self.new result }
    {
        let Stage::Ticked(index, tick) = self.stage(worker) else {
            return Err(StepFault::NotAllowed);
        };
        let place = self.noted(worker).len() as u16;
        let request = self.request(index);
        if self.applied.reserve(1).is_err() {
            return Err(StepFault::Memory);
        }
        let stamp = Stamp {
            worker,
            place,
            index,
            tick,
        };
        let made = applied_on(self.stripes.as_mut_slice(), self.names, &request, stamp);
        match made {
            Ok(made) => {
                insert(&mut self.applied, made);
                self.stages[worker as usize] = Stage::Applied(made);
                Ok(())
            }
            Err(StampFault::Memory) => Err(StepFault::Memory),
            Err(_) => unreachable!(),
        }
    }

    /// The highest stripe that the worker owns is free.
    pub(crate) fn unlock(&mut self, worker: u8) -> Result<(), StepFault>
        requires there { worker < length self.old.stages }
        ensures { Steps (Unlock worker) self.old self.new result }
    {
        let Stage::Applied(_) = self.stage(worker) else {
            return Err(StepFault::NotAllowed);
        };
        let Some(stripe) = last_stripe(self.owners.as_slice(), worker) else {
            return Err(StepFault::NotAllowed);
        };
        self.owners[stripe] = None;
        Ok(())
    }

    /// The worker's record goes to the end of its list, if it owns no stripe.
    pub(crate) fn note(&mut self, worker: u8) -> Result<(), StepFault>
        requires there { worker < length self.old.stages }
        ensures { Steps (Note worker) self.old self.new result }
    {
        let Stage::Applied(made) = self.stage(worker) else {
            return Err(StepFault::NotAllowed);
        };
        if last_stripe(self.owners.as_slice(), worker).is_some() {
            return Err(StepFault::NotAllowed);
        }
        match append(&mut self.noted, worker, made) {
            Ok(()) => {
                self.stages[worker as usize] = Stage::Idle;
                self.noted_count += 1;
                Ok(())
            }
            Err(AllocError) => Err(StepFault::Memory),
        }
    }

    /// Whether the current parallelBatch has an unclaimed index.
    fn may_claim(&self) -> bool
        ensures { result ≡ may_claim_now (plan_of self.now) (world_of self.now) }
    {
        if self.batch.requests.len() <= self.claimed as usize {
            return false;
        }
        let sizes = self.batch.sizes.as_slice();
        group_of(sizes, self.claimed) == group_of(sizes, self.noted_count)
    }

    /// What the worker is at.
    fn stage(&self, worker: u8) -> Stage
        requires there { worker < length self.now.stages }
        ensures stage { result ≡ (world_of self.now).stages worker }
        ensures claimed { (i : ℕ) → result ≡ Claimed i → i < length self.now.requests }
        ensures ticked { (i n : ℕ) → result ≡ Ticked i n → i < length self.now.requests }
    {
        self.stages[worker as usize]
    }

    /// The request of an index.
    fn request(&self, index: u16) -> Request<'s>
        requires there { index < length self.now.requests }
        ensures { plain result ≡ planned_request (plan_of self.now) index }
    {
        let batch: &'s BatchData = self.batch;
        batch.requests[index as usize].request()
    }

    /// Whether the worker owns all stripes that the request of an index needs.
    fn owns_all(&self, worker: u8, index: u16) -> bool
        requires there { index < length self.now.requests }
        ensures { result ≡ is_none (next_stripe_of (plan_of self.now) (world_of self.now) worker index) }
    {
        self.next_stripe(worker, index).is_none()
    }

    /// The least stripe that the request of an index needs and the worker doesn't own.
    fn next_stripe(&self, worker: u8, index: u16) -> Option<usize>
        requires there { index < length self.now.requests }
        ensures { result ≡ next_stripe_of (plan_of self.now) (world_of self.now) worker index }
    {
        let reached = touched(&self.request(index), self.names);
        next_stripe(self.owners.as_slice(), &reached.rows(), worker)
    }
}
