//! A verdict, explained.

ghost use Rattle.std.specs.Prelude.{◌≡◌};
ghost use Rattle.eve_explain.specs.Explained.{verdict_in};

use eve_audit::{Summary, Verdict};
use eve_evidence::{Counts, Evidence};
use eve_views::Fault;

/// A verdict with what shows why it is so.
#[derive(Clone, Copy)]
pub enum Explained<'a> {
    /// No fault stands, and what the trace has, in numbers.
    Yes(Summary, Counts),
    /// The first fault, and its evidence.
    No(Fault, Evidence<'a>),
}

impl<'a> Explained<'a> {
    /// The verdict alone.
    pub fn verdict(&self) -> Verdict
        ensures { result ≡ verdict_in self.now }
    {
        match self {
            Explained::Yes(summary, _) => Verdict::Yes(*summary),
            Explained::No(fault, _) => Verdict::No(*fault),
        }
    }
}
