//! What a pass of the queue knows, and the rule over the queue and all passes.

use crossbeam_queue::protocol::{Join, Lesson, Outcome, Protocol, Split};
use crossbeam_queue::{Pass, RuledArrayQueue};
use eve_stamps::AccessRecord;
use std::collections::LinkedList;

/// Whether a pass takes, what it took, how many workers there are, for which of them it stands, and what these noted.
/// It is spoken of in proofs alone: no value of it is made.
pub struct Knowledge {
    pub takes: bool,
    pub taken: LinkedList<AccessRecord>,
    pub workers: u8,
    pub from: u8,
    pub below: u8,
    pub noted: LinkedList<AccessRecord>,
}

/// The rule: what a worker noted is what was taken of it, then what the queue holds of it.
pub struct EachOnce;

impl Protocol<AccessRecord, Knowledge> for EachOnce {
    ghost use Rattle.eve_recorder.specs.QueueRule.{FitsPasses, newcomer};

    ghost holds = { FitsPasses };

    ghost first = { newcomer };
}

/// The queue of a recorder.
pub type Queue = RuledArrayQueue<AccessRecord, Knowledge, EachOnce>;

/// A pass of it.
pub type QueuePass = Pass<AccessRecord, Knowledge>;

/// The last worker that a pass stands for is none: what is cut off stands for nobody.
pub struct AbsentCut;

impl Split<Knowledge> for AbsentCut {
    ghost use Rattle.eve_recorder.specs.QueueRule.{one_less, nobody};

    ghost left = { one_less };

    ghost right = { λ _. nobody };
}

/// The last worker's part is cut off a pass, and joined to it.
pub struct WorkerCut;

impl Split<Knowledge> for WorkerCut {
    ghost use Rattle.eve_recorder.specs.QueueRule.{rest_of, last_pass};

    ghost left = { rest_of };

    ghost right = { last_pass };
}

impl Join<Knowledge> for WorkerCut {
    ghost use Rattle.eve_recorder.specs.QueueRule.{with_last, nobody};

    ghost both = { with_last };

    ghost spent = { nobody };
}

/// The taker's part is cut off a pass, and joined to it.
pub struct TakerCut;

impl Split<Knowledge> for TakerCut {
    ghost use Rattle.eve_recorder.specs.QueueRule.{no_taker, taker_of};

    ghost left = { no_taker };

    ghost right = { taker_of };
}

impl Join<Knowledge> for TakerCut {
    ghost use Rattle.eve_recorder.specs.QueueRule.{with_taker, nobody};

    ghost both = { with_taker };

    ghost spent = { nobody };
}

/// A record is noted, or the queue is found full.
pub struct Notes;

impl Outcome<AccessRecord, Knowledge> for Notes {
    ghost use Rattle.std.specs.Prelude.{◌≡◌};
    ghost use Rattle.eve_recorder.specs.QueueRule.{noting};

    ghost then = { λ v x w. w ≡ noting v x };
}

impl Lesson<AccessRecord, Knowledge> for Notes {
    ghost use Rattle.eve_recorder.specs.QueueRule.{SeesSome};

    ghost fact = { SeesSome };
}

/// A record is taken, or the queue is found empty.
pub struct Takes;

impl Outcome<AccessRecord, Knowledge> for Takes {
    ghost use Rattle.std.specs.Prelude.{◌≡◌, ◌<◌};
    ghost use Rattle.eve_recorder.specs.QueueRule.{taking, TakesPrefix};
    ghost use Rattle.eve_recorder.specs.Noted.{IsOrderly};

    ghost then = { λ v x w. (w ≡ taking v x) × IsOrderly w.taken × TakesPrefix w × (x.worker < v.workers) };
}

impl Lesson<AccessRecord, Knowledge> for Takes {
    ghost use Rattle.eve_recorder.specs.QueueRule.{SeesAll};

    ghost fact = { SeesAll };
}
