//! All parts of a trace.

ghost use Rattle.std.specs.Prelude.{◌≡◌, ◌↔◌, ◌-◌, ◌^◌, ◌&&◌, false, IsTrue, IfSome, IfNone, min};
ghost use Rattle.eve_grammar.specs.Trace.{head_of};
ghost use Rattle.eve_grammar.specs.Spelling.{length_of};
ghost use Rattle.eve_grammar.specs.Limits.{is_head};
ghost use Rattle.eve_write.specs.Data.{trace};
ghost use Rattle.eve_write.specs.Writable.{HasSpelling};
ghost use Rattle.eve_write.specs.Passes.{are_right_parts};

use crate::batch::BatchData;
use crate::customer::CustomerData;
use crate::measure::len_of_each;
use crate::right::all_right;
use crate::sent::SentData;
use crate::step::Step;
use crate::vote::VoteData;
use eve_grammar::{
    FRAME_HEAD_LEN, HEADER_LEN, Head, MOST_BATCHES, MOST_REPLICAS, MOST_VERIFIERS, most_customers,
};

/// All parts of a trace. What a header counts is how many there are of each here. Contracts see
/// them by `trace`.
#[derive(Drop)]
pub struct Parts {
    /// The version of the format, 1 to `NEWEST_VERSION`.
    pub version: u16,
    /// How many votes decide: more than half of the verifiers, at most all.
    pub quorum: u8,
    /// How many batches are attempted before the first is decided, 1 to `MOST_WINDOW`.
    pub window: u8,
    /// Workers of a replica, 1 to `MOST_WORKERS`.
    pub workers: u8,
    /// The customers.
    pub customers: Vec<CustomerData>,
    /// The batches, numbered from 1.
    pub batches: Vec<BatchData>,
    /// What each replica did, one thing after another.
    pub sections: Vec<Vec<Step>>,
    /// The votes of each verifier.
    pub verifiers: Vec<Vec<VoteData>>,
    /// The replies that replicas sent.
    pub sent: Vec<SentData>,
}

impl Parts {
    /// Whether the parts have a spelling: all lie within the limits of a trace, but that it may be too long, and each
    /// vote for a rollback has zeros for its token.
    ///
    /// docs/MODEL.md, "Limits". A pass over all parts.
    pub fn has_spelling(&self) -> bool
        ensures { IsTrue result ↔ HasSpelling self.now }
    {
        match self.head() {
            Some(head) => self.are_right(&head),
            None => false,
        }
    }

    /// The numbers of the header, where they lie in their ranges.
    pub(crate) fn head(&self) -> Option<Head>
        ensures head { IfSome result (λ h. h ≡ head_of (trace self.now)) }
        ensures right { IfSome result (λ h. IsTrue (is_head h)) }
        ensures wrong { IfNone result (is_head (head_of (trace self.now)) ≡ false) }
    {
        if self.sections.len() > MOST_REPLICAS as usize
            || self.verifiers.len() > MOST_VERIFIERS as usize
            || self.customers.len() > most_customers(self.version) as usize
            || self.batches.len() > MOST_BATCHES as usize
        {
            return None;
        }
        let head = Head {
            version: self.version,
            replicas: self.sections.len() as u8,
            verifiers: self.verifiers.len() as u8,
            quorum: self.quorum,
            window: self.window,
            workers: self.workers,
            customers: self.customers.len() as u32,
            batches: self.batches.len() as u32,
        };
        if head.is_right() { Some(head) } else { None }
    }

    /// Whether all parts lie within the limits under this header.
    pub(crate) fn are_right(&self, head: &Head) -> bool
        ensures { result ≡ are_right_parts head.now self.now }
    {
        all_right(self.customers.as_slice(), head)
            && all_right(self.batches.as_slice(), head)
            && all_right(self.sections.as_slice(), head)
            && all_right(self.verifiers.as_slice(), head)
            && all_right(self.sent.as_slice(), head)
    }

    /// How many bytes the trace takes, and 2^64 - 1 for more.
    pub(crate) fn text_len(&self) -> u64
        requires { HasSpelling self.now }
        ensures { result ≡ min (length_of (trace self.now)) (2 ^ 64 - 1) }
    {
        len_of_each(self.customers.as_slice())
            .saturating_add(len_of_each(self.batches.as_slice()))
            .saturating_add(len_of_each(self.sections.as_slice()))
            .saturating_add(len_of_each(self.verifiers.as_slice()))
            .saturating_add(len_of_each(self.sent.as_slice()))
            .saturating_add((HEADER_LEN + FRAME_HEAD_LEN) as u64)
    }
}
