//! What a replica does, call by call.

use crate::replica::gates::{Held, HoldingGate};
use crate::replica::misses::Misses;
use crate::replica::states::{apply_transfer, cents, has_cents, has_root, has_state};
use crate::replica::world::{
    Fit, attempt, batch_of, close, closed, names_of, ran, record_at, replica_of, roll_back,
    stopped, trace_of,
};
use eve_accounts::{Names, Row};
use eve_grammar::Restore;
use eve_recorder::OpenGate;
use eve_replica::eve_workload::{Mixer, Workload};
use eve_replica::{AttemptFault, CloseFault, CommitFault, Replica, TransferFault};
use eve_write::{AttemptData, CommitData, RollbackData};
use std::alloc::{AllocError, Global};
use std::hash::RandomState;
use std::io;
use std::random::RandomSource;
use std::sync::Wait;
use std::thread::Threads;

/// How ann's checking row is seen: its version, and the cents in it.
#[derive(Clone, Copy)]
pub struct Seen(pub u64, pub i64);

impl Seen {
    /// Her row so.
    fn row(self) -> Restore {
        Restore {
            row: Row::checking(0),
            version: self.0,
            value: cents(self.1),
        }
    }
}

/// Ann's checking row as it is at first.
pub const OPENING: Seen = Seen(0, 0);

/// How an attempt is due: its number, its view, its mode, and how each of its entries sees its row.
#[derive(Clone, Copy)]
pub struct Due {
    pub seq: u32,
    pub view: u32,
    pub serial: bool,
    pub seen: Seen,
}

impl Due {
    /// Whether the attempt is as it is due.
    fn is_met(&self, made: io::Result<AttemptData>) -> io::Result<bool> {
        let made = made?;
        let is_met = self.is_placed(&made) && self.is_seen(&made);
        drop(made);
        Ok(is_met)
    }

    fn is_placed(&self, made: &AttemptData) -> bool {
        made.seq == self.seq && made.view == self.view && made.serial == self.serial
    }

    fn is_seen(&self, made: &AttemptData) -> bool {
        let row = self.seen.row();
        let mut all = true;
        for entry in made.accesses.entries() {
            all = all && entry.version == row.version && entry.seen == row.value;
        }
        all
    }
}

/// How an attempt ends that threads' records are to make.
#[derive(Clone, Copy)]
pub enum Attempted {
    /// It is as it is due.
    Met(Due),
    /// Committed, it gives the trace that is wanted.
    Given,
    /// It fails so.
    Failed(AttemptFault),
    /// It is refused, since the replica is broken.
    Broken,
}

/// How an attempt ends that a caller's records are to make.
#[derive(Clone, Copy)]
pub enum Closed {
    /// It is made.
    Made,
    /// Committed, it gives the trace that is wanted.
    Given,
    /// It is refused so.
    Refused(CloseFault),
}

/// What is done with a replica, and what has to come of it.
#[derive(Clone, Copy)]
pub enum Deed {
    /// The batch with this number is attempted.
    Attempt(u32, Attempted),
    /// The batch with this number is closed of no records.
    CloseNone(u32, Closed),
    /// Ann's deposit is closed as the first batch, of a record that was taken by hand and saw this version.
    Close(u64, Closed),
    /// The batch with this number is committed, or that is refused so.
    Commit(u32, Option<CommitFault>),
    /// A rollback goes back to this number, and restores ann's row so, or none.
    GoBack(u32, Option<Seen>),
    /// One to 0 restores ann's row. Where it is refused memory the replica stays broken, and a second one is asked for.
    GoBackAtLast(Seen),
    /// The first batch is attempted the given number of times, each time rolled back.
    Discard(u32),
    /// The last batch is attempted, and a request of it is held.
    Hold(Held),
    /// A state of ann alone is transferred, of this number and view and with her row so, or that is refused so.
    ApplyTransfer(u32, u32, Seen, Option<TransferFault>),
    /// The replica's state is of ann alone, with her row so.
    HaveState(Seen),
    /// After the open attempts there are this many cents in ann's row.
    HaveCents(i64),
    /// The root is that of a new tree over the balances.
    HaveRoot,
    /// The replica is broken, or isn't.
    BeBroken(bool),
}

/// How batches are cut, and of which version replicas are.
#[derive(Clone, Copy)]
pub struct Setting {
    pub mixer: Mixer,
    pub version: u16,
}

/// What is done, and what isn't as it is due where something else comes of it.
#[derive(Clone, Copy)]
pub struct Want {
    pub deed: Deed,
    pub what: &'static str,
}

/// What of these lists isn't as it is due, each done with a new replica of the workload in this setting: the first such
/// thing, if there is one. The trace is wanted of ann's deposit.
pub fn first_miss<R: RandomSource + Threads + Wait + Sync>(
    rt: &R,
    alloc: Global,
    workload: &Workload,
    setting: Setting,
    wanted: &[u8],
    lists: &[&[Want]],
) -> io::Result<Option<&'static str>> {
    let random = RandomState::new(rt)?;
    let mut misses = Misses::none();
    let names = names_of(alloc, workload, random, &mut misses);
    match batch_of(alloc, workload, 1, &names, setting.mixer) {
        Ok(first) => try_first(
            rt,
            alloc,
            workload,
            &names,
            setting,
            wanted,
            first,
            lists,
            &mut misses,
        ),
        Err(why) => misses.stop(why),
    }
    misses.first()
}

/// The same, where these are the names of its customers, and this is its first batch.
fn try_first<R: Threads + Wait + Sync>(
    rt: &R,
    alloc: Global,
    workload: &Workload,
    names: &Names,
    setting: Setting,
    wanted: &[u8],
    first: Fit,
    lists: &[&[Want]],
    misses: &mut Misses,
) {
    match batch_of(alloc, workload, workload.batches(), names, setting.mixer) {
        Ok(last) => {
            let bench = Bench {
                rt,
                alloc,
                workload,
                names,
                wanted,
                first,
                last,
            };
            bench.try_lists(setting.version, lists, misses);
            drop(bench);
        }
        Err(why) => {
            drop(first);
            misses.stop(why);
        }
    }
}

/// What replicas are tried with: a workload, its customers' names, its first and its last batch, and the trace that is
/// wanted of ann's deposit.
#[derive(Drop)]
struct Bench<'c, R> {
    rt: &'c R,
    alloc: Global,
    workload: &'c Workload,
    names: &'c Names<'c>,
    wanted: &'c [u8],
    first: Fit,
    last: Fit,
}

impl<R: Threads + Wait + Sync> Bench<'_, R> {
    fn try_lists(&self, version: u16, lists: &[&[Want]], misses: &mut Misses) {
        for list in lists {
            match replica_of(self.alloc, version, self.names) {
                Ok(replica) => self.try_list(list, replica, misses),
                Err(why) => misses.stop(why),
            }
        }
    }

    /// What is done with a replica of which nothing was asked yet.
    fn try_list(&self, list: &[Want], mut replica: Replica, misses: &mut Misses) {
        for row in list {
            misses.want_answer(self.is_due(row.deed, &mut replica), row.what);
        }
        drop(replica);
    }

    /// Whether that comes of it which has to.
    fn is_due(&self, deed: Deed, replica: &mut Replica) -> io::Result<bool> {
        match deed {
            Deed::Attempt(batch, ends) => self.attempt(batch, ends, replica),
            Deed::CloseNone(batch, ends) => self.close_none(batch, ends, replica),
            Deed::Close(version, ends) => self.close_one(version, ends, replica),
            Deed::Commit(seq, fault) => Ok(replica.commit(seq).err() == fault),
            Deed::GoBack(to, seen) => goes_back(self.alloc, replica, to, seen),
            Deed::GoBackAtLast(seen) => goes_back_at_last(self.alloc, replica, seen),
            Deed::Discard(times) => self.discards(times, replica),
            Deed::Hold(held) => Ok(self.holds(held, replica)),
            Deed::ApplyTransfer(seq, view, seen, fault) => {
                let taken = apply_transfer(self.alloc, replica, seq, view, seen.row())?;
                Ok(taken.err() == fault)
            }
            Deed::HaveState(seen) => has_state(self.alloc, replica, seen.row()),
            Deed::HaveCents(value) => Ok(has_cents(replica, value)),
            Deed::HaveRoot => has_root(self.alloc, replica),
            Deed::BeBroken(is_broken) => Ok(replica.is_broken() == is_broken),
        }
    }

    /// The batch with this number, of two.
    fn fit(&self, number: u32) -> &Fit {
        if number == 1 { &self.first } else { &self.last }
    }

    fn attempt(&self, batch: u32, ends: Attempted, replica: &mut Replica) -> io::Result<bool> {
        let made = attempt(self.rt, self.alloc, replica, self.fit(batch), &OpenGate);
        match ends {
            Attempted::Met(due) => due.is_met(ran(made)),
            Attempted::Given => self.gives(ran(made), replica),
            Attempted::Failed(fault) => Ok(is_failed(made.err(), fault)),
            Attempted::Broken => Ok(made.err() == Some(AttemptFault::Broken)),
        }
    }

    fn close_none(&self, batch: u32, ends: Closed, replica: &mut Replica) -> io::Result<bool> {
        let made = close(self.alloc, replica, self.fit(batch), &[]);
        self.is_closed(made, ends, replica)
    }

    fn close_one(&self, version: u64, ends: Closed, replica: &mut Replica) -> io::Result<bool> {
        let record = record_at(self.alloc, self.names, version)?;
        let records = [record];
        let made = close(self.alloc, replica, &self.first, &records);
        drop(records);
        self.is_closed(made, ends, replica)
    }

    fn is_closed(
        &self,
        made: Result<AttemptData, CloseFault>,
        ends: Closed,
        replica: &mut Replica,
    ) -> io::Result<bool> {
        match ends {
            Closed::Made => is_first(closed(made)),
            Closed::Given => self.gives(closed(made), replica),
            Closed::Refused(fault) => is_refused(made.err(), fault),
        }
    }

    /// Whether the first batch is attempted and rolled back this often, each time with ann's row restored.
    fn discards(&self, times: u32, replica: &mut Replica) -> io::Result<bool> {
        for _ in 0..times {
            let made = attempt(self.rt, self.alloc, replica, &self.first, &OpenGate);
            let is_made = is_first(ran(made))?;
            let is_back = goes_back(self.alloc, replica, 0, Some(OPENING))?;
            if !is_made || !is_back {
                return Ok(false);
            }
        }
        Ok(true)
    }

    /// Whether the last batch is attempted, and the request that is held meets the other one as it has to.
    fn holds(&self, held: Held, replica: &mut Replica) -> bool {
        let gate = HoldingGate::new(held);
        let fault = attempt(self.rt, self.alloc, replica, &self.last, &gate).err();
        fault.is_none() && gate.is_kept()
    }

    /// Whether the deployment whose replica made this attempt, and commits it, has the trace that is wanted.
    fn gives(&self, made: io::Result<AttemptData>, replica: &mut Replica) -> io::Result<bool> {
        let made = made?;
        match commit_first(replica) {
            Ok(commit) => self.is_wanted(made, commit),
            Err(_) => {
                drop(made);
                Err(stopped())
            }
        }
    }

    fn is_wanted(&self, made: AttemptData, commit: CommitData) -> io::Result<bool> {
        let trace = trace_of(self.alloc, self.workload, self.names, made, commit)?;
        let is_wanted = trace.as_slice() == self.wanted;
        drop(trace);
        Ok(is_wanted)
    }
}

/// A commit of the first batch.
fn commit_first(replica: &mut Replica) -> Result<CommitData, CommitFault> {
    replica.commit(1)
}

/// Whether the attempt is one of the first batch.
fn is_first(made: io::Result<AttemptData>) -> io::Result<bool> {
    let made = made?;
    let seq = made.seq;
    drop(made);
    Ok(seq == 1)
}

/// Whether records were refused so, and not for lack of memory.
fn is_refused(why: Option<CloseFault>, due: CloseFault) -> io::Result<bool> {
    if why == Some(CloseFault::Memory) {
        return Err(AllocError.into());
    }
    Ok(why == Some(due))
}

/// Whether an attempt failed so, or for lack of memory.
fn is_failed(why: Option<AttemptFault>, due: AttemptFault) -> bool {
    why == Some(due) || why == Some(AttemptFault::Memory)
}

fn goes_back(
    alloc: Global,
    replica: &mut Replica,
    to: u32,
    seen: Option<Seen>,
) -> io::Result<bool> {
    let rollback = roll_back(alloc, replica)?;
    let is_back = rollback.to == to && restores(&rollback, seen);
    drop(rollback);
    Ok(is_back)
}

/// Whether it restores ann's row alone, so, or nothing.
fn restores(rollback: &RollbackData, seen: Option<Seen>) -> bool {
    match seen {
        Some(seen) => rollback.restores.as_slice() == [seen.row()].as_slice(),
        None => rollback.restores.is_empty(),
    }
}

fn goes_back_at_last(alloc: Global, replica: &mut Replica, seen: Seen) -> io::Result<bool> {
    let is_back = goes_back(alloc, replica, 0, Some(seen));
    if is_back.is_ok() {
        return is_back;
    }
    if commit_first(replica).err() != Some(CommitFault::Broken) {
        return Ok(false);
    }
    goes_back(alloc, replica, 0, Some(seen))
}
