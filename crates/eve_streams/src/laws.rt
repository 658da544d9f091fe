//! Laws about the definitions. Each body is empty: the contract is the law.

ghost use Rattle.std.specs.Prelude.{◌≢◌, ℕ};
ghost use Rattle.eve_streams.specs.Failures.{after_failure};

/// A failure shows: a count is never the same after one more failure.
pub fn a_failure_shows()
    ensures { (failures : ℕ) → after_failure failures ≢ failures }
{}
