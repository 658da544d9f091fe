//! Gates that hold threads, for a limit of turns.

use eve_recorder::Gate;
use std::sync::Wait;
use std::sync::atomic::{AtomicU64, Ordering};
use std::thread::yield_now;

/// What a gate holds of requests 0 and 1, which two threads execute.
#[derive(Clone, Copy)]
pub enum Held {
    /// Nothing.
    Nothing,
    /// Request 0, until request 1 is noted.
    First,
    /// Each, for a while, to tell whether both are inside at one moment.
    Each,
}

/// Holds requests 0 and 1, each for a limit of turns. Where one is held, request 1 doesn't begin before request 0 has
/// entered. The gate is told before a request is executed, and when its record is noted.
#[derive(Drop)]
pub struct PairGate {
    held: Held,
    entered: AtomicU64,
    inside: AtomicU64,
    noted: AtomicU64,
    missed: AtomicU64,
    met: AtomicU64,
}

impl PairGate {
    pub fn new(held: Held) -> PairGate {
        PairGate {
            held,
            entered: AtomicU64::new(0),
            inside: AtomicU64::new(0),
            noted: AtomicU64::new(0),
            missed: AtomicU64::new(0),
            met: AtomicU64::new(0),
        }
    }

    /// Where request 0 was held: whether both were executed, and the other was noted before the limits. Where each was:
    /// whether both were inside at one moment, as far as both were executed.
    pub fn is_shown(&self, both: bool) -> bool {
        match self.held {
            Held::Nothing => both,
            Held::First => both && self.missed.load(Ordering::SeqCst) == 0,
            Held::Each => !both || self.met.load(Ordering::SeqCst) != 0,
        }
    }

    /// A request is to be executed.
    pub fn begins(&self, index: u16) {
        if index != 0 && !matches!(self.held, Held::Nothing) {
            self.wait_for(&self.entered);
        }
    }

    /// The record of a request is noted.
    pub fn noted(&self, index: u16) {
        if index != 0 {
            self.noted.store(1, Ordering::SeqCst);
        }
    }

    /// Waits until the number rises above 0.
    fn wait_for(&self, number: &AtomicU64) {
        if !rises_above(number, 0, 3_000_000) {
            self.missed.store(1, Ordering::SeqCst);
        }
    }

    fn hold_first(&self) {
        self.entered.store(1, Ordering::SeqCst);
        self.wait_for(&self.noted);
    }

    fn hold_each(&self) {
        self.inside.fetch_add(1, Ordering::SeqCst);
        self.entered.store(1, Ordering::SeqCst);
        if rises_above(&self.inside, 1, 50_000) {
            self.met.store(1, Ordering::SeqCst);
        }
        self.inside.fetch_sub(1, Ordering::SeqCst);
    }
}

impl Gate for PairGate {
    fn enter<R: Wait>(&self, _rt: &R, piece: u32) {
        match self.held {
            Held::First if piece == 0 => self.hold_first(),
            Held::First | Held::Nothing => {}
            Held::Each => self.hold_each(),
        }
    }
}

/// Whether the number rises above the limit within `turns` turns.
fn rises_above(number: &AtomicU64, limit: u64, turns: u32) -> bool {
    for _ in 0..turns {
        if number.load(Ordering::SeqCst) > limit {
            return true;
        }
        yield_now();
    }
    false
}
