//! Workers of an audit that are held until others have come.

use crate::audits::by_workers;
use eve_audit::Verdict;
use eve_gate::Gate;
use eve_testing::Text;
use std::random::RandomSource;
use std::sync::Wait;
use std::sync::atomic::{AtomicU64, Ordering};
use std::thread;
use std::thread::Threads;

/// How often a piece looks whether the others have come, at most.
const TURNS: u32 = 10_000_000;

/// Holds each piece until the wanted number has entered, or its turns are over.
#[derive(Drop)]
pub struct Meeting {
    wanted: u64,
    entered: AtomicU64,
    met: AtomicU64,
}

impl Meeting {
    /// A gate that holds each piece until this number has entered; where that is 0, none.
    pub fn of(wanted: u64) -> Meeting {
        Meeting {
            wanted,
            entered: AtomicU64::new(0),
            met: AtomicU64::new(0),
        }
    }
}

impl Gate for Meeting {
    fn enter<R: Wait>(&self, _rt: &R, _piece: u32) {
        self.entered.fetch_add(1, Ordering::SeqCst);
        for _ in 0..TURNS {
            if self.entered.load(Ordering::SeqCst) >= self.wanted {
                self.met.fetch_add(1, Ordering::SeqCst);
                return;
            }
            thread::yield_now();
        }
    }
}

/// An audit by two workers, each held at its replica until the other has come to its own.
pub fn push_meeting<R: AllocGlobal + RandomSource + Threads + Wait + Sync>(
    text: &mut Text,
    rt: &R,
    bytes: &[u8],
) {
    let gate = Meeting::of(2);
    let verdict = by_workers(text, rt, bytes, 2, &gate);
    text.value("", gate.entered.load(Ordering::SeqCst));
    text.value(" entered, ", gate.met.load(Ordering::SeqCst));
    text.value(" met, yes ", matches!(verdict, Some(Verdict::Yes(_))));
}
