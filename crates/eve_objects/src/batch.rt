//! The members of a Batch frame.

ghost use Rattle.std.specs.Prelude.{◌≡◌, ◌≤◌, ◌++◌, OnOk, length};
ghost use Rattle.std.specs.List.{flat_map};
ghost use Rattle.eve_grammar.specs.declared.frame_kind.TheConstants.{FRAME_HEAD_LEN};
ghost use Rattle.eve_frames.specs.Views.{has_batch_body, batch_in};
ghost use Rattle.eve_objects.specs.Bytes.{members_if};
ghost use Rattle.eve_objects.specs.FrameObjects.{asked_item, batch_members, index_item};

use crate::members::{begin_array, put_number};
use crate::operands::put_request;
use eve_frames::BatchView;
use eve_grammar::{FRAME_HEAD_LEN, batch_number};
use json::Writer;
use std::alloc::AllocError;

/// Appends the sizes of its parallelBatches.
fn put_sizes(writer: &mut Writer, batch: &BatchView) -> Result<(), AllocError>
    ensures tokens { OnOk result (writer.new.tokens
        ≡ writer.old.tokens ++ flat_map index_item (batch_in batch.now.bytes.now).1.sizes) }
    ensures before { OnOk result (writer.new.before ≡ writer.old.before) }
{
    for i in 0..batch.groups() {
        writer.u64(u64::from(batch.group(i)))?;
    }
    Ok(())
}

/// Appends its requests.
fn put_requests(writer: &mut Writer, batch: &BatchView) -> Result<(), AllocError>
    ensures tokens { OnOk result (writer.new.tokens
        ≡ writer.old.tokens ++ flat_map asked_item (batch_in batch.now.bytes.now).1.requests) }
    ensures before { OnOk result (writer.new.before ≡ writer.old.before) }
{
    for asked in batch.requests() {
        put_request(writer, &asked)?;
    }
    Ok(())
}

/// Appends what a batch says.
#[tactic(auto, unfolding(crate::specs::FrameObjects::batch_members, crate::specs::Members::array_member))]
fn put_batch(writer: &mut Writer, batch: &BatchView) -> Result<(), AllocError>
    ensures tokens { OnOk result (writer.new.tokens ≡ writer.old.tokens
        ++ batch_members (batch_in batch.now.bytes.now).0 (batch_in batch.now.bytes.now).1) }
    ensures before { OnOk result (writer.new.before ≡ writer.old.before) }
{
    put_number(writer, "batch", u64::from(batch.seq()))?;
    begin_array(writer, "sizes")?;
    put_sizes(writer, batch)?;
    writer.end_array()?;
    begin_array(writer, "requests")?;
    put_requests(writer, batch)?;
    writer.end_array()
}

/// Appends what a Batch frame says, nothing where its body isn't right.
pub(crate) fn put_batch_frame(writer: &mut Writer, frame: &[u8]) -> Result<(), AllocError>
    requires framed { FRAME_HEAD_LEN ≤ length frame.now }
    ensures tokens { OnOk result (writer.new.tokens ≡ writer.old.tokens
        ++ members_if (has_batch_body frame.now) (batch_members (batch_in frame.now).0 (batch_in frame.now).1)) }
    ensures before { OnOk result (writer.new.before ≡ writer.old.before) }
{
    if batch_number(&frame[FRAME_HEAD_LEN..]).is_none() {
        return Ok(());
    }
    put_batch(writer, &BatchView::new(0, frame))
}
