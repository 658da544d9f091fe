//! The members of an Attempt frame.

ghost use Rattle.std.specs.Prelude.{◌≡◌, ◌≤◌, ◌++◌, OnOk, codes, length};
ghost use Rattle.std.specs.List.{flat_map};
ghost use Rattle.eve_grammar.specs.declared.frame_kind.TheConstants.{FRAME_HEAD_LEN};
ghost use Rattle.eve_frames.specs.Views.{has_attempt_body, attempt_in};
ghost use Rattle.eve_objects.specs.Bytes.{members_if};
ghost use Rattle.eve_objects.specs.FrameObjects.{attempt_members, index_item, reply_item};
ghost use Rattle.eve_objects.specs.Members.{array_member};

use crate::members::{begin_array, put_string, put_token};
use crate::operands::put_reply_item;
use crate::short::put_batch_and_view;
use eve_frames::AttemptView;
use eve_grammar::{FRAME_HEAD_LEN, certificate_len};
use eve_lines::mode_word;
use json::Writer;
use std::alloc::{AllocError, Global};

/// Appends its certificate.
fn put_order(writer: &mut Writer, attempt: &AttemptView) -> Result<(), AllocError>
    ensures tokens { OnOk result (writer.new.tokens ≡ writer.old.tokens
        ++ flat_map index_item (attempt_in attempt.now.bytes.now).certificate) }
    ensures before { OnOk result (writer.new.before ≡ writer.old.before) }
{
    for index in attempt.certificate() {
        writer.u64(u64::from(index))?;
    }
    Ok(())
}

/// Appends its replies, by request index.
fn put_replies(writer: &mut Writer, attempt: &AttemptView) -> Result<(), AllocError>
    ensures tokens { OnOk result (writer.new.tokens ≡ writer.old.tokens
        ++ flat_map reply_item (attempt_in attempt.now.bytes.now).replies) }
    ensures before { OnOk result (writer.new.before ≡ writer.old.before) }
{
    for reply in attempt.replies() {
        put_reply_item(writer, reply)?;
    }
    Ok(())
}

/// Appends the order and the replies, in arrays.
#[tactic(auto, unfolding(crate::specs::Members::array_member))]
fn put_outcome(writer: &mut Writer, attempt: &AttemptView) -> Result<(), AllocError>
    ensures tokens { OnOk result (writer.new.tokens ≡ writer.old.tokens
        ++ (array_member (codes "order") (flat_map index_item (attempt_in attempt.now.bytes.now).certificate)
        ++ array_member (codes "replies") (flat_map reply_item (attempt_in attempt.now.bytes.now).replies))) }
    ensures before { OnOk result (writer.new.before ≡ writer.old.before) }
{
    begin_array(writer, "order")?;
    put_order(writer, attempt)?;
    writer.end_array()?;
    begin_array(writer, "replies")?;
    put_replies(writer, attempt)?;
    writer.end_array()
}

/// Appends what an attempt says.
#[tactic(auto, unfolding(crate::specs::FrameObjects::attempt_members))]
fn put_attempt(alloc: Global, writer: &mut Writer, attempt: &AttemptView) -> Result<(), AllocError>
    ensures tokens { OnOk result (writer.new.tokens ≡ writer.old.tokens
        ++ attempt_members (attempt_in attempt.now.bytes.now)) }
    ensures before { OnOk result (writer.new.before ≡ writer.old.before) }
{
    put_batch_and_view(writer, attempt.seq(), attempt.view())?;
    put_string(writer, "mode", mode_word(attempt.is_serial()))?;
    put_outcome(writer, attempt)?;
    put_token(alloc, writer, "token", attempt.token())
}

/// Appends what an Attempt frame says, nothing where its body isn't right.
pub(crate) fn put_attempt_frame(
    alloc: Global,
    writer: &mut Writer,
    frame: &[u8],
) -> Result<(), AllocError>
    requires framed { FRAME_HEAD_LEN ≤ length frame.now }
    ensures tokens { OnOk result (writer.new.tokens ≡ writer.old.tokens
        ++ members_if (has_attempt_body frame.now) (attempt_members (attempt_in frame.now))) }
    ensures before { OnOk result (writer.new.before ≡ writer.old.before) }
{
    if certificate_len(&frame[FRAME_HEAD_LEN..]).is_none() {
        return Ok(());
    }
    put_attempt(alloc, writer, &AttemptView::new(0, frame))
}
