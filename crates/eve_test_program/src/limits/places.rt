//! Where the frames of a trace stand that are changed, or at which a fault has to be.

use eve_views::{Accesses, Step, Trace};
use std::alloc::Global;

/// The bytes at which frames begin.
#[derive(Clone, Copy)]
pub(crate) struct Places {
    /// A batch.
    pub(crate) batch: Option<u64>,
    /// The last replica's last record of some request.
    pub(crate) access: Option<u64>,
    /// The last replica's last rollback.
    pub(crate) rollback: Option<u64>,
}

/// No places.
const NONE: Places = Places {
    batch: None,
    access: None,
    rollback: None,
};

impl Places {
    /// Those of a trace: of the batch of this number, and of the records of the request with this index.
    pub(crate) fn of(alloc: Global, trace: &[u8], batch: u32, index: u16) -> Places {
        match Trace::read(alloc, trace) {
            Ok(trace) => {
                let mut places = NONE;
                places.find_batch(&trace, batch);
                places.find_steps(&trace, index);
                places
            }
            Err(_) => NONE,
        }
    }

    /// Finds the batch of this number.
    fn find_batch(&mut self, trace: &Trace<'_>, n: u32) {
        if 1 <= n && n <= trace.batch_count() {
            self.batch = Some(trace.batch(n).offset());
        }
    }

    /// Finds what the last replica did.
    fn find_steps(&mut self, trace: &Trace<'_>, index: u16) {
        trace.recall_limits();
        let Some(last) = trace.section_count().checked_sub(1) else {
            return;
        };
        let mut steps = trace.section(last);
        while let Some(step) = steps.next() {
            match step {
                Step::Attempt(_, accesses) => self.find_access(&accesses, index),
                Step::Rollback(rollback) => self.rollback = Some(rollback.offset()),
                Step::Commit(_) | Step::Transfer(_) => {}
            }
        }
    }

    /// Finds the record of a request in an attempt.
    fn find_access(&mut self, accesses: &Accesses<'_, '_>, index: u16) {
        for place in 0..accesses.len() {
            let access = accesses.get(place);
            if access.index() == index {
                self.access = Some(access.offset());
            }
        }
    }
}
