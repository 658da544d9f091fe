//! How far the workers of a window are.

ghost use Rattle.std.specs.Prelude.{◌≡◌};

use crate::ExecFault;
use crossbeam_utils::{Backoff, CachePadded};
use std::sync::Wait;
use std::sync::atomic::{AtomicU64, Ordering};

/// By this the word is raised where a worker gives a request up: more than all requests of a window.
const GIVEN_UP: u64 = 1 << 32;

/// A word that counts the requests that were noted, on cache lines of its own. Workers only wait on it: no clause says
/// what it counts.
#[derive(Drop)]
pub(crate) struct Progress {
    ended: CachePadded<AtomicU64>,
}

impl Progress {
    pub(crate) fn new() -> Progress {
        Progress {
            ended: CachePadded::new(AtomicU64::new(0)),
        }
    }

    /// Counts `count` more requests as noted. Returns whether to go on.
    fn note(&self, count: u64) -> bool {
        self.ended.fetch_add(count, Ordering::SeqCst) < GIVEN_UP
    }

    /// Says that a request is given up, so that nobody waits for it.
    pub(crate) fn give_up(&self, why: ExecFault) -> GivenUp
        ensures { result.0 ≡ why }
    {
        self.ended.fetch_add(GIVEN_UP, Ordering::SeqCst);
        GivenUp(why)
    }

    /// Waits until the given number of requests are noted, or one is given up. Returns whether to go on.
    pub(crate) fn wait_for<R: Wait>(&self, rt: &R, count: u64) -> bool {
        let backoff = Backoff::new();
        for _ in rt.forever() {
            let ended = self.ended.load(Ordering::SeqCst);
            if ended >= count {
                return ended < GIVEN_UP;
            }
            backoff.snooze();
        }
        unreachable!()
    }
}

/// Why a worker gave a request up. It is made by `Progress::give_up` and nowhere else: a worker that ends with one has
/// told the others, who would wait for the request without end.
#[derive(Clone, Copy)]
pub(crate) struct GivenUp(ExecFault);

impl GivenUp {
    /// The fault of the request.
    pub(crate) fn why(self) -> ExecFault
        ensures { result ≡ self.0 }
    {
        self.0
    }
}

/// What a worker knows of the others, and what they don't know of it yet. It counts for itself, and looks at the word
/// and adds to it only at its end, and where its next request is of a parallelBatch that may not have begun. So workers
/// in one parallelBatch don't take the word from each other at each request.
#[derive(Drop)]
pub(crate) struct Pace {
    // how many requests are noted, as far as it knows
    reached: u64,
    // how many it noted that the word doesn't count yet
    untold: u64,
}

impl Pace {
    pub(crate) fn new() -> Pace {
        Pace {
            reached: 0,
            untold: 0,
        }
    }

    /// Counts one more request as noted.
    pub(crate) fn note(&mut self) {
        self.untold = self.untold.wrapping_add(1);
    }

    /// Adds what it noted to the word, and waits until the given number of requests are noted, or one is given up.
    /// Returns whether to go on.
    pub(crate) fn wait_for<R: Wait>(&mut self, rt: &R, progress: &Progress, count: u64) -> bool {
        if count <= self.reached {
            return true;
        }
        if !self.tell(progress) || !progress.wait_for(rt, count) {
            return false;
        }
        self.reached = count;
        true
    }

    /// Adds what it noted to the word. Returns whether to go on.
    pub(crate) fn tell(&mut self, progress: &Progress) -> bool {
        let untold = self.untold;
        self.untold = 0;
        progress.note(untold)
    }
}
