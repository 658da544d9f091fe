//! How many workers audit.

ghost use Rattle.std.specs.Prelude.{◌≡◌, ◌≤◌, max, min};

use crate::limits::MOST_AUDIT_WORKERS;
use std::marker::Model;

/// How many workers judge the replicas of a trace: 1 to `MOST_AUDIT_WORKERS`. Contracts see it as a number.
#[derive(Clone, Copy)]
pub struct WorkerCount {
    count: u8,
}

impl Model for WorkerCount {
    ghost use Rattle.std.specs.Prelude.{ℕ, ◌≤◌};
    ghost use Rattle.eve_grammar.specs.declared.limits.TheConstants.{MOST_AUDIT_WORKERS};

    ghost Value = { ℕ };

    ghost view = { λ w. w.count };

    ghost invariant = { λ w. (1 ≤ w.count) × (w.count ≤ MOST_AUDIT_WORKERS) };

    ghost inverse = { λ n. record { count = n } };
}

impl WorkerCount {
    /// The number from 1 to `MOST_AUDIT_WORKERS` that is nearest to this one.
    pub fn nearest(count: u8) -> Self
        ensures { result ≡ max 1 (min count MOST_AUDIT_WORKERS) }
    {
        WorkerCount {
            count: count.clamp(1, MOST_AUDIT_WORKERS),
        }
    }

    /// The number.
    pub fn get(self) -> u8
        ensures within { (1 ≤ result) × (result ≤ MOST_AUDIT_WORKERS) }
        ensures same { result ≡ self }
    {
        self.count
    }
}
