//! The members of frames without arrays: none of one whose body isn't right.

ghost use Rattle.std.specs.Prelude.{◌≡◌, ◌≤◌, ◌++◌, OnOk, length};
ghost use Rattle.eve_grammar.specs.Readers.{number_of};
ghost use Rattle.eve_grammar.specs.Bodies.{borrowed_choice};
ghost use Rattle.eve_grammar.specs.declared.frame_kind.TheConstants.{FRAME_HEAD_LEN};
ghost use Rattle.eve_frames.specs.Views.{body_in, has_customer_body, has_commit_body, has_vote_body, has_sent_body};
ghost use Rattle.eve_frames.specs.Views.{customer_in, commit_in, vote_in, sent_in};
ghost use Rattle.eve_objects.specs.Bytes.{members_if, number_in_body};
ghost use Rattle.eve_objects.specs.FrameObjects.{batch_and_view_members, choice_members, commit_members};
ghost use Rattle.eve_objects.specs.FrameObjects.{customer_members, sent_members, vote_members};

use crate::members::{put_name, put_number, put_signed, put_string, put_token};
use crate::operands::put_reply;
use eve_frames::{CommitView, CustomerView, SentView, VoteView};
use eve_grammar::{
    Choice, FRAME_HEAD_LEN, MOST_BATCHES, MOST_REPLICAS, is_commit_body, is_customer_body,
    is_sent_body, is_vote_body, number_of,
};
use json::Writer;
use std::alloc::{AllocError, Global};

/// Appends the number of a batch, and of a view.
pub(crate) fn put_batch_and_view(
    writer: &mut Writer,
    batch: u32,
    view: u32,
) -> Result<(), AllocError>
    ensures tokens { OnOk result (writer.new.tokens ≡ writer.old.tokens ++ batch_and_view_members batch view) }
    ensures before { OnOk result (writer.new.before ≡ writer.old.before) }
{
    put_number(writer, "batch", u64::from(batch))?;
    put_number(writer, "view", u64::from(view))
}

/// Appends what a customer with this number says.
#[tactic(auto, unfolding(crate::specs::FrameObjects::customer_members))]
fn put_customer(
    writer: &mut Writer,
    number: usize,
    customer: &CustomerView,
) -> Result<(), AllocError>
    ensures tokens { OnOk result (writer.new.tokens ≡ writer.old.tokens
        ++ customer_members number (customer_in customer.now.bytes.now)) }
    ensures before { OnOk result (writer.new.before ≡ writer.old.before) }
{
    put_number(writer, "customer", number as u64)?;
    put_name(writer, "name", customer.name())?;
    put_signed(writer, "saving", customer.saving().get())?;
    put_signed(writer, "checking", customer.checking().get())
}

/// Appends what a Customer frame says. It is frame number `number` of its trace.
pub(crate) fn put_customer_frame(
    writer: &mut Writer,
    number: usize,
    frame: &[u8],
) -> Result<(), AllocError>
    requires framed { FRAME_HEAD_LEN ≤ length frame.now }
    ensures tokens { OnOk result (writer.new.tokens ≡ writer.old.tokens
        ++ members_if (has_customer_body frame.now) (customer_members number (customer_in frame.now))) }
    ensures before { OnOk result (writer.new.before ≡ writer.old.before) }
{
    if !is_customer_body(&frame[FRAME_HEAD_LEN..]) {
        return Ok(());
    }
    put_customer(writer, number, &CustomerView::new(0, frame))
}

/// Appends the number that the body of a frame is, as the member of this name.
pub(crate) fn put_number_frame(
    writer: &mut Writer,
    name: &str,
    frame: &[u8],
) -> Result<(), AllocError>
    requires framed { FRAME_HEAD_LEN ≤ length frame.now }
    ensures tokens { OnOk result (writer.new.tokens ≡ writer.old.tokens
        ++ number_in_body name.now (number_of (body_in frame.now))) }
    ensures before { OnOk result (writer.new.before ≡ writer.old.before) }
{
    match number_of(&frame[FRAME_HEAD_LEN..]) {
        Some(number) => put_number(writer, name, u64::from(number)),
        None => Ok(()),
    }
}

/// Appends what a commit says.
#[tactic(auto, unfolding(crate::specs::FrameObjects::commit_members))]
fn put_commit(alloc: Global, writer: &mut Writer, commit: &CommitView) -> Result<(), AllocError>
    ensures tokens { OnOk result (writer.new.tokens ≡ writer.old.tokens
        ++ commit_members (commit_in commit.now.bytes.now)) }
    ensures before { OnOk result (writer.new.before ≡ writer.old.before) }
{
    put_batch_and_view(writer, commit.seq(), commit.view())?;
    put_token(alloc, writer, "token", commit.token())
}

/// Appends what a Commit frame says.
pub(crate) fn put_commit_frame(
    alloc: Global,
    writer: &mut Writer,
    frame: &[u8],
) -> Result<(), AllocError>
    requires framed { FRAME_HEAD_LEN ≤ length frame.now }
    ensures tokens { OnOk result (writer.new.tokens ≡ writer.old.tokens
        ++ members_if (has_commit_body frame.now) (commit_members (commit_in frame.now))) }
    ensures before { OnOk result (writer.new.before ≡ writer.old.before) }
{
    if !is_commit_body(&frame[FRAME_HEAD_LEN..]) {
        return Ok(());
    }
    put_commit(alloc, writer, &CommitView::new(0, frame))
}

/// Appends what a vote is for.
fn put_choice(alloc: Global, writer: &mut Writer, choice: &Choice<'_>) -> Result<(), AllocError>
    ensures tokens { OnOk result (writer.new.tokens ≡ writer.old.tokens
        ++ choice_members (borrowed_choice choice.now)) }
    ensures before { OnOk result (writer.new.before ≡ writer.old.before) }
{
    match choice {
        Choice::ForRollback => put_string(writer, "choice", "rollback"),
        Choice::ForCommit(token) => {
            put_string(writer, "choice", "commit")?;
            put_token(alloc, writer, "token", token)
        }
    }
}

/// Appends what a vote says.
#[tactic(auto, unfolding(crate::specs::FrameObjects::vote_members))]
fn put_vote(alloc: Global, writer: &mut Writer, vote: &VoteView) -> Result<(), AllocError>
    ensures tokens { OnOk result (writer.new.tokens ≡ writer.old.tokens
        ++ vote_members (vote_in vote.now.bytes.now)) }
    ensures before { OnOk result (writer.new.before ≡ writer.old.before) }
{
    put_batch_and_view(writer, vote.seq(), vote.view())?;
    put_choice(alloc, writer, &vote.choice())
}

/// Appends what a Vote frame says.
pub(crate) fn put_vote_frame(
    alloc: Global,
    writer: &mut Writer,
    frame: &[u8],
) -> Result<(), AllocError>
    requires framed { FRAME_HEAD_LEN ≤ length frame.now }
    ensures tokens { OnOk result (writer.new.tokens ≡ writer.old.tokens
        ++ members_if (has_vote_body frame.now) (vote_members (vote_in frame.now))) }
    ensures before { OnOk result (writer.new.before ≡ writer.old.before) }
{
    if !is_vote_body(MOST_BATCHES, &frame[FRAME_HEAD_LEN..]) {
        return Ok(());
    }
    put_vote(alloc, writer, &VoteView::new(0, frame))
}

/// Appends what a reply that was sent says.
#[tactic(auto, unfolding(crate::specs::FrameObjects::sent_members))]
fn put_sent(writer: &mut Writer, sent: &SentView) -> Result<(), AllocError>
    ensures tokens { OnOk result (writer.new.tokens ≡ writer.old.tokens
        ++ sent_members (sent_in sent.now.bytes.now)) }
    ensures before { OnOk result (writer.new.before ≡ writer.old.before) }
{
    put_number(writer, "client", u64::from(sent.client()))?;
    put_number(writer, "number", sent.number())?;
    put_number(writer, "replica", u64::from(sent.replica()))?;
    put_number(writer, "batch", u64::from(sent.seq()))?;
    put_reply(writer, sent.reply())
}

/// Appends what a Sent frame says.
pub(crate) fn put_sent_frame(writer: &mut Writer, frame: &[u8]) -> Result<(), AllocError>
    requires framed { FRAME_HEAD_LEN ≤ length frame.now }
    ensures tokens { OnOk result (writer.new.tokens ≡ writer.old.tokens
        ++ members_if (has_sent_body frame.now) (sent_members (sent_in frame.now))) }
    ensures before { OnOk result (writer.new.before ≡ writer.old.before) }
{
    if !is_sent_body(MOST_REPLICAS, MOST_BATCHES, &frame[FRAME_HEAD_LEN..]) {
        return Ok(());
    }
    put_sent(writer, &SentView::new(0, frame))
}
