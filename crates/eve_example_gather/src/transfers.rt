//! Transfer frames, read row by row and written again.

use crate::memory;
use eve_accounts::Cents;
use eve_frames::TransferView;
use eve_frames::laws::transfers_tell_their_rows;
use eve_grammar::{FRAME_HEAD_LEN, MOST_ROWS, TransferData, is_transfer_body};
use eve_smallbank::Versioned;
use eve_streams::failing::FailsAt;
use eve_streams::one_byte::OneByte;
use eve_write::write_transfer;
use std::alloc::{AllocError, Global};
use std::io;

/// The frame, where it has the body of a Transfer of this many rows.
fn view_of(rows: u32, bytes: &[u8]) -> Option<TransferView<'_>> {
    if bytes.len() < FRAME_HEAD_LEN || !is_transfer_body(rows, &bytes[FRAME_HEAD_LEN..]) {
        return None;
    }
    transfers_tell_their_rows();
    Some(TransferView::new(0, bytes))
}

/// What the frame says, read in one pass.
pub(crate) fn copy_of(alloc: Global, view: &TransferView<'_>) -> Result<TransferData, AllocError> {
    let mut rows = Vec::with_capacity(alloc, view.len())?;
    for versioned in view.rows() {
        rows.push(versioned)?;
    }
    Ok(TransferData {
        seq: view.seq(),
        view: view.view(),
        rows,
    })
}

/// Whether each row read by its number is the one that was read in the pass.
fn has_rows(view: &TransferView<'_>, rows: &[Versioned]) -> bool {
    if rows.len() != view.len() {
        return false;
    }
    for (number, passed) in rows.iter().enumerate() {
        let row = view.row(number);
        if row.version != passed.version || row.value.get() != passed.value.get() {
            return false;
        }
    }
    true
}

/// Whether the Transfer is written as these bytes.
fn is_written(alloc: Global, transfer: &TransferData, bytes: &[u8]) -> io::Result<bool> {
    if transfer.rows.len() > MOST_ROWS as usize {
        return Ok(false);
    }
    let mut out = memory(alloc, bytes.len())?;
    let written = write_transfer(&mut out, transfer);
    Ok(written.is_ok() && out.writer().as_slice() == bytes)
}

/// Whether a sink that fails at a byte has those before it, and no more.
fn stops_at(alloc: Global, transfer: &TransferData, bytes: &[u8], call: usize) -> io::Result<bool> {
    if transfer.rows.len() > MOST_ROWS as usize {
        return Ok(false);
    }
    let mut out = FailsAt::new(OneByte::new(memory(alloc, call)?), call as u64);
    let stopped = write_transfer(&mut out, transfer);
    let sent = out.stream().stream().writer().as_slice();
    Ok(stopped.is_err() && sent.len() + 1 == call && bytes.starts_with(sent))
}

/// What came of a frame that is to be a Transfer of this many rows.
pub(crate) fn came_of_transfer(alloc: Global, rows: u32, bytes: &[u8]) -> io::Result<&'static str> {
    let Some(view) = view_of(rows, bytes) else {
        return Ok("no Transfer");
    };
    let transfer = copy_of(alloc, &view)?;
    if !has_rows(&view, transfer.rows.as_slice()) {
        return Ok("another row");
    }
    if !is_written(alloc, &transfer, bytes)? {
        return Ok("other bytes");
    }
    for call in 1..=bytes.len() {
        if !stops_at(alloc, &transfer, bytes, call)? {
            return Ok("goes on where the sink failed");
        }
    }
    Ok("the same")
}

/// A Transfer of the most rows that there may be, each with a version and a value of its own.
fn largest(alloc: Global) -> Result<TransferData, AllocError> {
    let mut rows = Vec::with_capacity(alloc, MOST_ROWS as usize)?;
    for row in 0..MOST_ROWS {
        let value = Cents::new(row as i64 * 7).ok_or(AllocError)?;
        rows.push(Versioned {
            version: row as u64 * 5,
            value,
        })?;
    }
    Ok(TransferData {
        seq: 65_535,
        view: 3,
        rows,
    })
}

/// How many bytes the largest Transfer has, and what came of it once it was written.
pub(crate) fn came_of_largest(alloc: Global) -> io::Result<(usize, &'static str)> {
    let transfer = largest(alloc)?;
    let mut out = memory(alloc, FRAME_HEAD_LEN + 8 + 16 * MOST_ROWS as usize)?;
    if transfer.rows.len() > MOST_ROWS as usize || write_transfer(&mut out, &transfer).is_err() {
        return Ok((0, "not written"));
    }
    let bytes = out.writer().as_slice();
    let came = match view_of(MOST_ROWS, bytes) {
        Some(view) if has_rows(&view, transfer.rows.as_slice()) => "the same",
        Some(_) => "another row",
        None => "no Transfer",
    };
    Ok((bytes.len(), came))
}
