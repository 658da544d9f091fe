//! The object of a frame.

ghost use Rattle.std.specs.Prelude.{◌≡◌, ◌≤◌, ◌++◌, OnOk, IfOk, length};
ghost use Rattle.eve_grammar.specs.declared.frame_kind.TheConstants.{FRAME_HEAD_LEN};
ghost use Rattle.eve_objects.specs.Bytes.{members_of_kind, object_of_view, short_members};

use crate::access::put_access_frame;
use crate::attempt::put_attempt_frame;
use crate::batch::put_batch_frame;
use crate::header::put_show;
use crate::line::{begin_line, end_line};
use crate::members::put_number;
use crate::short::{
    put_commit_frame, put_customer_frame, put_number_frame, put_sent_frame, put_vote_frame,
};
use crate::transfer::{put_rollback_frame, put_transfer_frame};
use eve_frames::FrameView;
use eve_grammar::{
    ACCESS_FRAME, ATTEMPT_FRAME, BATCH_FRAME, COMMIT_FRAME, CUSTOMER_FRAME, FRAME_HEAD_LEN,
    REPLICA_FRAME, ROLLBACK_FRAME, SENT_FRAME, TRANSFER_FRAME, VERIFIER_FRAME, VOTE_FRAME,
};
use json::Writer;
use std::alloc::{AllocError, Global};

/// Appends the members of a frame of this kind without arrays, which is frame number `number` of its trace.
fn put_short(
    alloc: Global,
    writer: &mut Writer,
    kind: u8,
    number: usize,
    frame: &[u8],
) -> Result<(), AllocError>
    requires framed { FRAME_HEAD_LEN ≤ length frame.now }
    ensures tokens { OnOk result (writer.new.tokens ≡ writer.old.tokens ++ short_members kind number frame.now) }
    ensures before { OnOk result (writer.new.before ≡ writer.old.before) }
{
    match kind {
        COMMIT_FRAME => put_commit_frame(alloc, writer, frame),
        CUSTOMER_FRAME => put_customer_frame(writer, number, frame),
        REPLICA_FRAME => put_number_frame(writer, "replica", frame),
        SENT_FRAME => put_sent_frame(writer, frame),
        VERIFIER_FRAME => put_number_frame(writer, "verifier", frame),
        VOTE_FRAME => put_vote_frame(alloc, writer, frame),
        _ => Ok(()),
    }
}

/// Appends the members of a frame of this kind, which is frame number `number` of its trace.
fn put_kind(
    alloc: Global,
    writer: &mut Writer,
    kind: u8,
    number: usize,
    frame: &[u8],
) -> Result<(), AllocError>
    requires framed { FRAME_HEAD_LEN ≤ length frame.now }
    ensures tokens { OnOk result (writer.new.tokens ≡ writer.old.tokens ++ members_of_kind kind number frame.now) }
    ensures before { OnOk result (writer.new.before ≡ writer.old.before) }
{
    match kind {
        ACCESS_FRAME => put_access_frame(writer, frame),
        ATTEMPT_FRAME => put_attempt_frame(alloc, writer, frame),
        BATCH_FRAME => put_batch_frame(writer, frame),
        ROLLBACK_FRAME => put_rollback_frame(writer, frame),
        TRANSFER_FRAME => put_transfer_frame(writer, frame),
        _ => put_short(alloc, writer, kind, number, frame),
    }
}

/// Appends the object of a frame, with its line feed: `{"frame":3,"offset":120,"kind":"Batch","bytes":61,..}`. It is
/// frame number `number` of its trace, from 0. What it says is left out where its kind is not known or its body
/// isn't right. The line is let go where memory is refused.
pub fn push_frame(
    alloc: Global,
    line: Vec<u8>,
    number: usize,
    frame: &FrameView<'_>,
) -> Result<Vec<u8>, AllocError>
    ensures { IfOk result (λ new. new.items ≡ line.items ++ object_of_view number frame.now) }
{
    let bytes = frame.bytes();
    let mut writer = begin_line(line)?;
    put_number(&mut writer, "frame", number as u64)?;
    put_show(
        &mut writer,
        frame.offset(),
        frame.kind_name(),
        frame.body_len() as u64,
    )?;
    put_kind(alloc, &mut writer, bytes[0], number, bytes)?;
    end_line(writer)
}
