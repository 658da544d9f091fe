//! The members of Rollback and Transfer frames.

ghost use Rattle.std.specs.Prelude.{◌≡◌, ◌≤◌, ◌++◌, OnOk, length};
ghost use Rattle.std.specs.List.{enumerate_from, flat_map};
ghost use Rattle.eve_grammar.specs.declared.frame_kind.TheConstants.{FRAME_HEAD_LEN};
ghost use Rattle.eve_frames.specs.Views.{body_in, has_rollback_body, rollback_in, transfer_in};
ghost use Rattle.eve_lines.specs.Rest.{is_state_body};
ghost use Rattle.eve_objects.specs.Bytes.{members_if};
ghost use Rattle.eve_objects.specs.FrameObjects.{restore_item, rollback_members, row_item, transfer_members};

use crate::members::{begin_array, put_number};
use crate::rows::{put_restore, put_row_item};
use crate::short::put_batch_and_view;
use eve_frames::{RollbackView, TransferView};
use eve_grammar::{FRAME_HEAD_LEN, MOST_ROWS, is_rollback_body, is_transfer_body};
use json::Writer;
use std::alloc::AllocError;

/// Appends what a rollback restores.
fn put_restores(writer: &mut Writer, rollback: &RollbackView) -> Result<(), AllocError>
    ensures tokens { OnOk result (writer.new.tokens ≡ writer.old.tokens
        ++ flat_map restore_item (rollback_in rollback.now.bytes.now).restores) }
    ensures before { OnOk result (writer.new.before ≡ writer.old.before) }
{
    for restore in rollback.restores() {
        put_restore(writer, &restore)?;
    }
    Ok(())
}

/// Appends what a rollback says.
#[tactic(auto, unfolding(crate::specs::FrameObjects::rollback_members, crate::specs::Members::array_member))]
fn put_rollback(writer: &mut Writer, rollback: &RollbackView) -> Result<(), AllocError>
    ensures tokens { OnOk result (writer.new.tokens ≡ writer.old.tokens
        ++ rollback_members (rollback_in rollback.now.bytes.now)) }
    ensures before { OnOk result (writer.new.before ≡ writer.old.before) }
{
    put_number(writer, "to", u64::from(rollback.to()))?;
    put_number(writer, "view", u64::from(rollback.view()))?;
    begin_array(writer, "restores")?;
    put_restores(writer, rollback)?;
    writer.end_array()
}

/// Appends what a Rollback frame says, nothing where its body isn't right.
pub(crate) fn put_rollback_frame(writer: &mut Writer, frame: &[u8]) -> Result<(), AllocError>
    requires framed { FRAME_HEAD_LEN ≤ length frame.now }
    ensures tokens { OnOk result (writer.new.tokens ≡ writer.old.tokens
        ++ members_if (has_rollback_body frame.now) (rollback_members (rollback_in frame.now))) }
    ensures before { OnOk result (writer.new.before ≡ writer.old.before) }
{
    if !is_rollback_body(MOST_ROWS, &frame[FRAME_HEAD_LEN..]) {
        return Ok(());
    }
    put_rollback(writer, &RollbackView::new(0, frame))
}

/// Appends the rows of a state that was transferred.
fn put_rows(writer: &mut Writer, transfer: &TransferView) -> Result<(), AllocError>
    ensures tokens { OnOk result (writer.new.tokens ≡ writer.old.tokens
        ++ flat_map row_item (enumerate_from 0 (transfer_in transfer.now.bytes.now).rows)) }
    ensures before { OnOk result (writer.new.before ≡ writer.old.before) }
{
    for i in 0..transfer.len() {
        put_row_item(writer, i as u64, transfer.row(i))?;
    }
    Ok(())
}

/// Appends what a state that was transferred says.
#[tactic(auto, unfolding(crate::specs::FrameObjects::transfer_members, crate::specs::Members::array_member))]
fn put_transfer(writer: &mut Writer, transfer: &TransferView) -> Result<(), AllocError>
    ensures tokens { OnOk result (writer.new.tokens ≡ writer.old.tokens
        ++ transfer_members (transfer_in transfer.now.bytes.now)) }
    ensures before { OnOk result (writer.new.before ≡ writer.old.before) }
{
    put_batch_and_view(writer, transfer.seq(), transfer.view())?;
    begin_array(writer, "rows")?;
    put_rows(writer, transfer)?;
    writer.end_array()
}

/// Whether these bytes are the body of a Transfer frame with as many rows as its length tells, and no more than a trace
/// has.
fn is_state_body(body: &[u8]) -> bool
    ensures { result ≡ is_state_body body.now }
{
    let rows = body.len().saturating_sub(8) / 16;
    rows <= MOST_ROWS as usize && is_transfer_body(rows as u32, body)
}

/// Appends what a Transfer frame says, nothing where its body isn't right.
pub(crate) fn put_transfer_frame(writer: &mut Writer, frame: &[u8]) -> Result<(), AllocError>
    requires framed { FRAME_HEAD_LEN ≤ length frame.now }
    ensures tokens { OnOk result (writer.new.tokens ≡ writer.old.tokens
        ++ members_if (is_state_body (body_in frame.now)) (transfer_members (transfer_in frame.now))) }
    ensures before { OnOk result (writer.new.before ≡ writer.old.before) }
{
    if !is_state_body(&frame[FRAME_HEAD_LEN..]) {
        return Ok(());
    }
    put_transfer(writer, &TransferView::new(0, frame))
}
