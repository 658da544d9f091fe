//! Windows that are attempted by several replicas.

ghost use Rattle.std.specs.Prelude.{◌≡◌, ◌≤◌, false, All, OnOk};
ghost use Rattle.std.specs.Thread.{IsSync};
ghost use Rattle.eve_replica.specs.inner.RunInvariant.{AreAllOn, AttemptsIfLive, AttemptsUnbroken, IsDueTo};

use crate::fault::AttemptFault;
use crate::replica::Replica;
use crate::server::Server;
use eve_recorder::Gate;
use eve_workload::MixedBatch;
use std::alloc::Global;
use std::sync::Wait;
use std::thread;
use std::thread::Threads;

/// The least work of a replica on a window that is worth a thread, in requests.
const LEAST_WORK: usize = 256;

/// How many customers' balances are hashed in about the time of a request.
const CUSTOMERS_A_REQUEST: usize = 4;

/// Each live replica attempts the batches of the window, which are the next from where they stand. The fault is that of
/// the first replica whose attempt failed, and is told once all have ended.
///
/// Where the window is long several replicas attempt it side by side, each with its own workers; else one after
/// another. An attempt hangs on nothing of another replica, so no trace tells which way it was.
pub(crate) fn attempt_each<R: Threads + Wait + Sync, G: Gate>(
    rt: &R,
    alloc: Global,
    servers: &mut [Server],
    window: &[MixedBatch],
    gate: &G,
) -> Result<(), AttemptFault>
    requires due { All (IsDueTo window.now) servers.old }
    ensures on { OnOk result (AreAllOn (AttemptsIfLive window.now) servers.old servers.new) }
{
    let threads = threads_for(servers, window);
    thread::for_each_mut(
        rt,
        servers,
        threads,
        &|_: usize, server: &mut Server|
            requires { IsSync R.row × IsSync G.row × IsDueTo window.now server.old }
            ensures { AttemptsUnbroken window.entry.now server.old server.new }
        { server.attempt(rt, alloc, window, gate) },
    );
    first_fault(servers)
}

/// In how many threads the replicas attempt the window: in one, where it takes each replica less time than starting a
/// thread. Workers have threads of their own, so with several of them fewer replicas go side by side.
fn threads_for(servers: &[Server], window: &[MixedBatch]) -> usize
    ensures { 1 ≤ result }
{
    if servers.len() < 2 {
        return 1;
    }
    let first = &servers[0].replica;
    if work_of(first, window) < LEAST_WORK {
        return 1;
    }
    match first.workers.many() {
        1 => 8,
        2 | 3 => 4,
        _ => 2,
    }
}

/// How long the window takes a replica, in requests.
fn work_of(replica: &Replica<'_>, window: &[MixedBatch]) -> usize {
    let hashing = replica.names.len() / CUSTOMERS_A_REQUEST;
    let mut work = 0usize;
    for mixed in window {
        work = work
            .saturating_add(hashing)
            .saturating_add(mixed.batch.requests.len());
    }
    work
}

/// The fault of the first replica that is broken, if one is.
fn first_fault(servers: &[Server]) -> Result<(), AttemptFault>
    ensures { OnOk result (All (λ s. s.replica.is_broken ≡ false) servers.now) }
{
    for server in servers {
        if server.replica.is_broken() {
            return Err(server.replica.fault.unwrap_or(AttemptFault::Broken));
        }
    }
    Ok(())
}
