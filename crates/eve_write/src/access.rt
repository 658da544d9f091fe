//! Accesses and their frames.

ghost use Rattle.eve_grammar.specs.Frames.{OfAccess};
ghost use Rattle.eve_grammar.specs.Spelling.{frame_text};
ghost use Rattle.eve_write.specs.Data.{access as plain};
ghost use Rattle.eve_write.specs.Writes.{Writes};

use crate::access_list::{AccessNote, put_note};
use crate::fields::put_entries;
use crate::pieces::send;
use crate::short::LONGEST_SHORT;
use arrayvec::ArrayVec;
use eve_smallbank::{Entry, UpToThree};
use eve_streams::{SendFault, Sink};

/// What a worker noted of a request. Contracts see it by `access`.
#[derive(Clone, Copy)]
pub struct AccessData {
    /// The worker, from 0.
    pub worker: u8,
    /// The record's place among the worker's, from 0.
    pub place: u16,
    /// The request's index, from 0.
    pub index: u16,
    /// What was read and written, row by row.
    pub entries: UpToThree<Entry>,
}

/// Writes an Access frame.
///
/// docs/TRACE.md, "Frames". After a fault a prefix of the frame has been taken, and not all of it.
pub fn write_access<W: Sink>(out: &mut W, access: &AccessData) -> Result<(), SendFault>
    ensures { Writes W.written W.failures out.old out.new result (frame_text (OfAccess (plain access.now))) }
{
    let mut frame = ArrayVec::<u8, LONGEST_SHORT>::new();
    let note = AccessNote {
        worker: access.worker,
        count: access.entries.len() as u8,
        place: access.place,
        index: access.index,
    };
    put_note(&mut frame, &note);
    put_entries(&mut frame, &access.entries);
    send(out, frame.as_slice())
}
