//! Access records: what a worker noted of a request.

ghost use Rattle.std.specs.Prelude.{◌≡◌, []};
ghost use Rattle.eve_smallbank.specs.declared.request.Reply.TheVariants.{Aborted};

use crate::Stamp;
use eve_smallbank::{Abort, Entry, Reply, UpToThree};
use std::marker::Model;

/// What a request read and wrote at its tick, and the worker that ran it. Records are made by `apply`, `apply_two` and
/// `untouched` alone. Contracts see the fields (`Applied`).
///
/// docs/MODEL.md, "Entries".
#[derive(Clone, Copy, PartialEq, Eq)]
pub struct AccessRecord {
    stamp: Stamp,
    reply: Reply,
    entries: UpToThree<Entry>,
}

impl Model for AccessRecord {
    ghost use Rattle.eve_stamps.specs.Applied.{Applied};

    ghost Value = { Applied };

    ghost view = { λ r. record {
      worker = r.stamp.worker;
      place = r.stamp.place;
      index = r.stamp.index;
      tick = r.stamp.tick;
      reply = r.reply;
      entries = r.entries;
    } };

    ghost inverse = { λ x. record {
      stamp = record { worker = x.worker; place = x.place; index = x.index; tick = x.tick };
      reply = x.reply;
      entries = x.entries;
    } };
}

impl AccessRecord {
    /// What was noted of a request that was executed.
    pub(crate) fn new(stamp: Stamp, reply: Reply, entries: UpToThree<Entry>) -> AccessRecord
        ensures { result ≡ record {
          worker = stamp.worker;
          place = stamp.place;
          index = stamp.index;
          tick = stamp.tick;
          reply = reply;
          entries = entries;
        } }
    {
        AccessRecord {
            stamp,
            reply,
            entries,
        }
    }

    /// The worker, from 0.
    pub fn worker(&self) -> u8
        ensures { result ≡ self.now.worker }
    {
        self.stamp.worker
    }

    /// Its place among what the worker notes, from 0.
    pub fn place(&self) -> u16
        ensures { result ≡ self.now.place }
    {
        self.stamp.place
    }

    /// The request's index in its batch, from 0.
    pub fn index(&self) -> u16
        ensures { result ≡ self.now.index }
    {
        self.stamp.index
    }

    /// The tick at which it was applied.
    pub fn tick(&self) -> u64
        ensures { result ≡ self.now.tick }
    {
        self.stamp.tick
    }

    /// The reply to the request.
    pub fn reply(&self) -> Reply
        ensures { result ≡ self.now.reply }
    {
        self.reply
    }

    /// The entries, three at most.
    pub fn entries(&self) -> &UpToThree<Entry>
        ensures { result.now ≡ self.now.entries }
    {
        &self.entries
    }
}

/// The record of a request that is refused before it touches a row.
pub fn untouched(why: Abort, stamp: Stamp) -> AccessRecord
    ensures { result ≡ record {
      worker = stamp.worker;
      place = stamp.place;
      index = stamp.index;
      tick = stamp.tick;
      reply = Aborted why;
      entries = [];
    } }
{
    AccessRecord::new(stamp, Reply::Aborted(why), UpToThree::new())
}
