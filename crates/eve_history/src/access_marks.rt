//! Which access records of an attempt have come.

ghost use Rattle.std.specs.Prelude.{◌≡◌, ◌≤◌, ◌<◌, ◌^◌, [], ℕ, List, length, slice_index};
ghost use Rattle.std.specs.List.{AllByRecursion};
ghost use Rattle.eve_grammar.specs.Trace.{Access};
ghost use Rattle.eve_frames.specs.Decoded.{access_decoded};
ghost use Rattle.eve_history.specs.inner.MarkedRecords.{AreMarked, IsMarkedIfRight, AreMarkedIfRight};

use crate::wrong::Wrong;
use eve_frames::AccessView;
use eve_grammar::{MOST_REQUESTS, MOST_WORKERS};
use eve_views::{Accesses, Code};

/// Which access records of an attempt have come, and how many of each worker.
#[derive(Drop)]
pub struct AccessMarks {
    /// Whether the record of an index has come.
    seen: [bool; MOST_REQUESTS],
    /// The byte at which its frame begins.
    offsets: [u32; MOST_REQUESTS],
    /// How many records of a worker have come.
    places: [u16; MOST_WORKERS as usize],
}

impl AccessMarks {
    /// None.
    pub fn new() -> AccessMarks
        ensures { AreMarked [] result }
    {
        AccessMarks {
            seen: [false; MOST_REQUESTS],
            offsets: [0; MOST_REQUESTS],
            places: [0; MOST_WORKERS as usize],
        }
    }

    /// The byte at which the frame of the record of an index begins.
    pub fn offset(&self, index: u16) -> u32
        requires { index < MOST_REQUESTS }
        ensures { result ≡ slice_index self.now.offsets index }
    {
        self.offsets[index as usize]
    }

    /// Marks the next record, or says what is wrong with it.
    ///
    /// docs/MODEL.md, "Section state, fate". There are `workers` workers and `count` indexes.
    /// Decides F22 Access and F23 WorkerOrder.
    fn mark(&mut self, workers: u8, count: usize, access: &AccessView<'_>) -> Option<Code>
        requires workers { workers ≤ MOST_WORKERS }
        requires count { count ≤ MOST_REQUESTS }
        requires small { access.now.offset < 2 ^ 32 }
        requires marked { (before : List (ℕ × Access)) × AreMarked before self.old × (length before < MOST_REQUESTS) }
        ensures { (before : List (ℕ × Access)) → AreMarked before self.old
            → IsMarkedIfRight workers count before (access.now.offset, access_decoded access.now) result self.new }
    {
        let worker = access.worker();
        let index = access.index() as usize;
        if worker >= workers || index >= count || self.seen[index] {
            return Some(Code::Access);
        }
        if access.place() != self.places[worker as usize] {
            return Some(Code::WorkerOrder);
        }
        self.seen[index] = true;
        self.offsets[index] = access.offset() as u32;
        self.places[worker as usize] += 1;
        None
    }

    /// Marks the records of an attempt, or says what is wrong with the first that is.
    pub fn mark_all(
        &mut self,
        workers: u8,
        count: usize,
        accesses: &Accesses<'_, '_>,
    ) -> Option<Wrong>
        requires workers { workers ≤ MOST_WORKERS }
        requires count { count ≤ MOST_REQUESTS }
        requires few { length accesses.now ≤ MOST_REQUESTS }
        requires small { AllByRecursion (λ x. x.0 < 2 ^ 32) accesses.now }
        requires none { AreMarked [] self.old }
        ensures { AreMarkedIfRight workers count accesses.now result self.new }
    {
        for i in 0..accesses.len() {
            let access = accesses.get(i);
            if let Some(code) = self.mark(workers, count, &access) {
                return Some(Wrong {
                    code,
                    offset: access.offset(),
                });
            }
        }
        None
    }
}
