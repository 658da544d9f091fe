//! Changes of one byte, each of which is a fault where it stands.

use crate::bytes::Bytes;
use crate::limits::lies::last_sent;
use crate::limits::places::Places;
use crate::limits::sizes::WIDEST;
use crate::limits::together::Matter;
use crate::limits::verdicts::{Asked, Spot, spot_at, tell, tell_call};
use std::random::RandomSource;
use std::sync::Wait;
use std::thread::Threads;

/// How many bytes an Access frame has in front of the last byte of its first entry, which is the last of the value
/// after it: the frame's head, the record's, and the rest of the entry.
const LAST_OF_AFTER: usize = 5 + 6 + 28;

/// How many bytes an Access frame has in front of the count of its entries: the frame's head, worker, place and index.
const ENTRY_COUNT: usize = 5 + 5;

/// How many bytes a Batch frame has in front of the last byte of the count of its parallelBatches: the frame's head,
/// the number, and the count's first byte.
const GROUP_COUNT: usize = 5 + 4 + 1;

/// How many bytes a Batch frame of one parallelBatch has in front of the third byte of the first client: the frame's
/// head, the number, the count and the size of the parallelBatches, and two bytes of the client.
pub(crate) const THIRD_OF_CLIENT: usize = 5 + 4 + 2 + 2 + 2;

/// How many bytes a Sent frame has in front of its last byte, the last of its reply.
const LAST_OF_SENT: usize = 5 + 25;

/// Which request's records are looked for, by its index.
pub(crate) const RECORDED: u16 = 252;

/// The last of eight replicas, by its number from 0.
pub(crate) const LAST_REPLICA: u8 = 7;

/// A change of a byte of a frame's body: a fault stands at the frame.
#[derive(Clone, Copy)]
pub(crate) struct Change {
    pub(crate) name: &'static str,
    pub(crate) frame: Spot,
    /// How many bytes the frame has in front of the one that is changed.
    pub(crate) behind: usize,
    pub(crate) asked: Option<Asked>,
}

/// Writes what is said of a trace with this change, which is taken back then.
pub(crate) fn tell_changed<R: AllocGlobal + RandomSource + Threads + Wait + Sync>(
    rt: &R,
    page: &mut Bytes,
    trace: &mut Bytes,
    change: &Change,
) {
    let at = (change.frame.at as usize).saturating_add(change.behind);
    trace.flip(at);
    tell(rt, page, change.name, trace, change.frame);
    if let Some(asked) = &change.asked {
        tell_call(rt, page, trace, asked);
    }
    trace.flip(at);
}

/// A balance of the last replica's last batch is changed in a trace of several megabytes; the last batch and one of the
/// last access records get a wrong body, where the last of the threads judges that judge bodies; the last reply is
/// changed.
pub(crate) fn tell_changes<R: AllocGlobal + RandomSource + Threads + Wait + Sync>(
    rt: &R,
    page: &mut Bytes,
    trace: &mut Bytes,
) {
    let places = Places::of(rt.alloc(), trace.written(), WIDEST.batches, RECORDED);
    let batch = spot_at(page, places.batch, None);
    let access = spot_at(page, places.access, Some(LAST_REPLICA));
    let sent = spot_at(page, Some(last_sent(trace.written())), None);
    let changes = [
        Change {
            name: "another balance",
            frame: access,
            behind: LAST_OF_AFTER,
            asked: None,
        },
        Change {
            name: "another count of groups",
            frame: batch,
            behind: GROUP_COUNT,
            asked: None,
        },
        Change {
            name: "another count of entries",
            frame: Spot {
                at: access.at,
                replica: None,
            },
            behind: ENTRY_COUNT,
            asked: None,
        },
        Change {
            name: "another reply",
            frame: sent,
            behind: LAST_OF_SENT,
            asked: Some(Asked {
                name: "another reply, by itself",
                matter: Matter::Replies,
                spot: sent,
            }),
        },
    ];
    for change in &changes {
        tell_changed(rt, page, trace, change);
    }
}
