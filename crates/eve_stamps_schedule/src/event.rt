//! What may happen next.

ghost use Rattle.std.specs.Prelude.{◌≡◌};

/// One step of one worker, given by its number, from 0.
///
/// docs/DEPLOYMENT.md, "Schedule", says where each is allowed and what it does.
#[derive(Clone, Copy)]
pub enum Event {
    /// It gets the least unclaimed index of the current parallelBatch.
    Claim(u8),
    /// It owns the next stripe that its request needs.
    LockStripe(u8),
    /// It gets the counter's value, and the counter rises.
    Tick(u8),
    /// Its request is applied, and a record is made.
    Apply(u8),
    /// The highest stripe that it owns is free.
    Unlock(u8),
    /// Its record goes to the end of its list.
    Note(u8),
}

impl Event {
    ghost use Rattle.eve_stamps_schedule.specs.Events.{worker_of};

    /// The worker.
    pub fn worker(&self) -> u8
        ensures { result ≡ worker_of self.now }
    {
        match *self {
            Event::Claim(worker)
            | Event::LockStripe(worker)
            | Event::Tick(worker)
            | Event::Apply(worker)
            | Event::Unlock(worker)
            | Event::Note(worker) => worker,
        }
    }
}
