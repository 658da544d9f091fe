//! Gates that hold requests until others have entered, each for a limit of turns.

ghost use Rattle.std.specs.Prelude.{◌<◌, IfSome};

use eve_recorder::Gate;
use std::sync::Wait;
use std::sync::atomic::{AtomicU64, Ordering};
use std::thread::yield_now;

/// How often a request that is held for another lets another thread run before it goes on all the same.
const TURNS: u32 = 10_000_000;

/// The same of a request that is held for one that must not come.
const FEW_TURNS: u32 = 2_000;

/// Whether the number rises above this one within the given number of turns.
fn rises_above(number: &AtomicU64, least: u64, turns: u32) -> bool {
    for _ in 0..turns {
        if number.load(Ordering::SeqCst) > least {
            return true;
        }
        yield_now();
    }
    false
}

/// Which request of a batch is held, for which other, and whether that one has to enter meanwhile.
#[derive(Clone, Copy)]
pub struct Held {
    pub request: u32,
    pub other: u32,
    pub comes: bool,
}

/// Holds one request of a batch, with its stripes locked, until another has entered. Where that one has to come
/// meanwhile, it is held for the first, too, so that both are inside at one moment.
#[derive(Drop)]
pub struct HoldingGate {
    held: Held,
    // whether the one has entered, and whether the other has
    entered: [AtomicU64; 2],
    // how many of the two saw that the other had entered
    met: AtomicU64,
}

impl HoldingGate {
    pub fn new(held: Held) -> HoldingGate {
        HoldingGate {
            held,
            entered: [AtomicU64::new(0), AtomicU64::new(0)],
            met: AtomicU64::new(0),
        }
    }

    /// Whether both were inside at one moment where they have to, and else the other one kept away.
    pub fn is_kept(&self) -> bool {
        let met = self.met.load(Ordering::SeqCst);
        if self.held.comes { met == 2 } else { met == 0 }
    }
}

impl Gate for HoldingGate {
    fn enter<R: Wait>(&self, _rt: &R, piece: u32) {
        let Held {
            request,
            other,
            comes,
        } = self.held;
        if piece == request {
            self.entered[0].store(1, Ordering::SeqCst);
        }
        if piece == other {
            self.entered[1].store(1, Ordering::SeqCst);
        }
        let turns = if comes { TURNS } else { FEW_TURNS };
        let has_met = (piece == request && rises_above(&self.entered[1], 0, turns))
            || (comes && piece == other && rises_above(&self.entered[0], 0, turns));
        if has_met {
            self.met.fetch_add(1, Ordering::SeqCst);
        }
    }
}

/// In which order an attempt of a knot is to run its last two requests.
#[derive(Clone, Copy)]
pub enum Turn {
    /// The check before the amalgamation.
    CheckFirst,
    /// As they are listed.
    InOrder,
    /// In any: nothing is held.
    Free,
}

/// How many attempts may be held.
const MOST_HELD: usize = 15;

/// How many requests a knot has.
const KNOT: u64 = 5;

/// Decides in which order the attempts of knots run what conflicts in them. A knot is five requests in one
/// parallelBatch, for three workers: deposits for bob, cid and dan, an amalgamation of bob into ann, and a check of
/// ann. Each customer has a stripe of its own, bob's before ann's.
///
/// A gate is entered with the locks held, so it can't turn two requests of one stripe round by itself. Where the check
/// is to be first, the deposit for bob is held until the check has entered: the amalgamation waits for bob's stripe,
/// and the check goes by. The other two deposits are held until the one for bob has entered, since the amalgamation
/// could be faster else. In the order of the list both are held until the check has entered, so that one worker runs
/// all the rest.
///
/// Attempts of small windows come one after another, so that they are told apart by counting entries: the first have a
/// turn each, and those after the last turn aren't held.
#[derive(Drop)]
pub struct KnotGate {
    turns: [Turn; MOST_HELD],
    entries: AtomicU64,
    // how often each request of a knot has entered
    entered: [AtomicU64; 5],
    missed: AtomicU64,
}

impl KnotGate {
    pub fn new(turns: &[Turn]) -> KnotGate {
        let mut held = [Turn::Free; MOST_HELD];
        for attempt in 0..MOST_HELD.min(turns.len()) {
            held[attempt] = turns[attempt];
        }
        KnotGate {
            turns: held,
            entries: AtomicU64::new(0),
            entered: [
                AtomicU64::new(0),
                AtomicU64::new(0),
                AtomicU64::new(0),
                AtomicU64::new(0),
                AtomicU64::new(0),
            ],
            missed: AtomicU64::new(0),
        }
    }

    /// Whether no request was held longer than the limit of turns.
    pub fn is_kept(&self) -> bool {
        self.missed.load(Ordering::SeqCst) == 0
    }

    /// The request that has to enter before this one goes on.
    fn awaited(&self, attempt: u64, piece: u32) -> Option<usize>
        ensures { IfSome result (λ other. other < 5) }
    {
        if attempt >= MOST_HELD as u64 {
            return None;
        }
        match (self.turns[attempt as usize], piece) {
            (Turn::CheckFirst, 0) => Some(4),
            (Turn::CheckFirst, 1 | 2) => Some(0),
            (Turn::InOrder, 1 | 2) => Some(4),
            _ => None,
        }
    }
}

impl Gate for KnotGate {
    fn enter<R: Wait>(&self, _rt: &R, piece: u32) {
        let attempt = self.entries.fetch_add(1, Ordering::SeqCst) / KNOT;
        if u64::from(piece) < KNOT {
            self.entered[piece as usize].fetch_add(1, Ordering::SeqCst);
        }
        if let Some(other) = self.awaited(attempt, piece) {
            if !rises_above(&self.entered[other], attempt, TURNS) {
                self.missed.store(1, Ordering::SeqCst);
            }
        }
    }
}
