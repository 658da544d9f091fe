//! Transfers and their frames.

ghost use Rattle.std.specs.Prelude.{◌≡◌, ◌≤◌, ◌&&◌, ◌∷◌, ◌++◌, length};
ghost use Rattle.byteorder.specs.Endian.{big_bytes};
ghost use Rattle.eve_grammar.specs.Bodies.{transfer as plain};
ghost use Rattle.eve_grammar.specs.Frames.{OfTransfer, has_transfers};
ghost use Rattle.eve_grammar.specs.Limits.{row_count, is_no_debt, are_no_debts, is_transfer, is_versioned};
ghost use Rattle.eve_grammar.specs.Spelling.{frame_text, transfer_text};
ghost use Rattle.eve_write.specs.Writes.{Writes};

use crate::right::{Judge, all_right, row_count};
use crate::short::write_short;
use crate::spell::send_texts;
use eve_grammar::{Head, MOST_ROWS, MOST_VERSIONS, TRANSFER_FRAME, TransferData};
use eve_smallbank::Versioned;
use eve_streams::{SendFault, Sink};

/// How long the body of its frame is.
pub(crate) fn body_len(transfer: &TransferData) -> u32
    requires { length transfer.now.rows.items ≤ MOST_ROWS }
    ensures { result ≡ length (transfer_text (plain transfer.now)) }
{
    8 + 16 * transfer.rows.len() as u32
}

/// Writes what stands before the rows.
fn write_prefix<W: Sink>(out: &mut W, transfer: &TransferData) -> Result<(), SendFault>
    requires { length transfer.now.rows.items ≤ MOST_ROWS }
    ensures { Writes W.written W.failures out.old out.new result
        (TRANSFER_FRAME ∷ (big_bytes 4 (length (transfer_text (plain transfer.now)))
        ++ (big_bytes 4 transfer.now.seq ++ big_bytes 4 transfer.now.view))) }
{
    let body_len = body_len(transfer).to_be_bytes();
    let seq = transfer.seq.to_be_bytes();
    let view = transfer.view.to_be_bytes();
    send_texts(out, &[&[TRANSFER_FRAME], &body_len, &seq, &view])
}

/// Writes a Transfer frame with at most as many rows as there can be.
///
/// docs/TRACE.md, "Version 2". After a fault a prefix of the frame has been taken, and not all of it.
pub fn write_transfer<W: Sink>(out: &mut W, transfer: &TransferData) -> Result<(), SendFault>
    requires { length transfer.now.rows.items ≤ MOST_ROWS }
    ensures { Writes W.written W.failures out.old out.new result (frame_text (OfTransfer (plain transfer.now))) }
{
    write_prefix(out, transfer)?;
    write_short(out, transfer.rows.as_slice())
}

impl Judge for Versioned {
    ghost right = { λ h x. is_versioned x };

    fn is_right(&self, _head: &Head) -> bool {
        let _value = self.value.get();
        self.version <= MOST_VERSIONS
    }
}

/// Whether the value is none below 0, where savings stand in the row with this number.
fn is_no_debt(row: usize, versioned: Versioned) -> bool
    ensures { result ≡ is_no_debt row versioned }
{
    row % 2 != 0 || 0 <= versioned.value.get()
}

/// Whether no saving is below 0 in these rows, from the first on.
fn are_no_debts(rows: &[Versioned]) -> bool
    ensures { result ≡ are_no_debts 0 rows.now }
{
    for (row, versioned) in rows.iter().enumerate() {
        if !is_no_debt(row, *versioned) {
            return false;
        }
    }
    true
}

/// Whether the state may be transferred in a trace with this header: the version has transfers, and each row has what
/// it may have.
///
/// docs/TRACE.md, "Version 2". One look at each row.
pub fn is_right_transfer(head: &Head, transfer: &TransferData) -> bool
    ensures { result ≡ (has_transfers head.now.version && is_transfer (row_count head.now) (plain transfer.now)) }
{
    let _seq = transfer.seq;
    let _view = transfer.view;
    let rows = transfer.rows.as_slice();
    head.version == 2
        && rows.len() == row_count(head)
        && are_no_debts(rows)
        && all_right(rows, head)
}

impl Judge for TransferData {
    ghost right = { λ h x. has_transfers h.version && is_transfer (row_count h) (plain x) };

    fn is_right(&self, head: &Head) -> bool {
        is_right_transfer(head, self)
    }
}
