//! What the header and each kind of frames say, up to a frame's first list.

ghost use Rattle.std.specs.Prelude.{◌≡◌, ◌+◌, ◌≤◌, ◌++◌, length};
ghost use Rattle.arrayvec.specs.ArrayVec.{array_vec_len};
ghost use Rattle.eve_grammar.specs.Bodies.{borrowed_choice};
ghost use Rattle.eve_grammar.specs.Readers.{number_of};
ghost use Rattle.eve_grammar.specs.declared.frame_kind.TheConstants.{FRAME_HEAD_LEN};
ghost use Rattle.eve_frames.specs.Views.{access_in, attempt_in, batch_in, body_in, commit_in, customer_in, rollback_in};
ghost use Rattle.eve_frames.specs.Views.{has_access_body, has_attempt_body, has_batch_body, has_commit_body};
ghost use Rattle.eve_frames.specs.Views.{has_customer_body, has_rollback_body, has_sent_body, has_vote_body};
ghost use Rattle.eve_frames.specs.Views.{sent_in, transfer_in, vote_in};
ghost use Rattle.eve_lines.specs.FrameLines.{access_words, attempt_words, batch_words, choice_words, commit_words};
ghost use Rattle.eve_lines.specs.FrameLines.{customer_words, header_words, rollback_words, sent_words, transfer_words};
ghost use Rattle.eve_lines.specs.FrameLines.{vote_words};
ghost use Rattle.eve_lines.specs.Rest.{is_state_body, number_words, words_if, words_left};

use crate::frame::FrameWords;
use crate::line::{LINE_ROOM, LONGEST_PART, Line, put};
use crate::lists::{Items, Numbers, Sizes, StateRows};
use crate::table::Value::{Mode, Name, Number, Reply, Signed, Token};
use crate::table::put_word;
use eve_frames::{
    AccessView, AttemptView, BatchView, CommitView, CustomerView, RollbackView, SentView,
    TransferView, VoteView,
};
use eve_grammar::{
    Choice, FRAME_HEAD_LEN, Head, MOST_BATCHES, MOST_REPLICAS, MOST_ROWS, batch_number,
    certificate_len, is_access_body, is_commit_body, is_customer_body, is_rollback_body,
    is_sent_body, is_transfer_body, is_vote_body, number_of,
};

/// Appends what a header says: ` version 1 replicas 2 ..`.
#[tactic(auto, unfolding(crate::specs::FrameLines::header_words))]
pub fn put_header(line: &mut Line, head: &Head)
    requires { array_vec_len line.old + 300 ≤ LINE_ROOM }
    ensures items { line.new.items ≡ line.old.items ++ header_words head.now }
    ensures len { array_vec_len line.new ≤ array_vec_len line.old + 300 }
{
    put_word(line, " version ", Number(u64::from(head.version)));
    put_word(line, " replicas ", Number(u64::from(head.replicas)));
    put_word(line, " verifiers ", Number(u64::from(head.verifiers)));
    put_word(line, " quorum ", Number(u64::from(head.quorum)));
    put_word(line, " window ", Number(u64::from(head.window)));
    put_word(line, " workers ", Number(u64::from(head.workers)));
    put_word(line, " customers ", Number(u64::from(head.customers)));
    put_word(line, " batches ", Number(u64::from(head.batches)));
}

/// Appends ` worker 0 place 0 request 0` of an Access frame, and gives its entries.
#[tactic(auto, unfolding(crate::specs::FrameLines::access_words))]
pub(crate) fn begin_access<'a>(line: &mut Line, frame: &'a [u8]) -> FrameWords<'a>
    requires room { array_vec_len line.old + LONGEST_PART ≤ LINE_ROOM }
    requires framed { FRAME_HEAD_LEN ≤ length frame.now }
    ensures { line.new.items ++ words_left result ≡ line.old.items
        ++ words_if (has_access_body frame.now) (access_words (access_in frame.now)) }
{
    if !is_access_body(MOST_ROWS, &frame[FRAME_HEAD_LEN..]) {
        return FrameWords::of(Items::None);
    }
    let access = AccessView::new(0, frame);
    put_word(line, " worker ", Number(u64::from(access.worker())));
    put_word(line, " place ", Number(u64::from(access.place())));
    put_word(line, " request ", Number(u64::from(access.index())));
    if access.len() == 0 {
        put(line, ": none");
    }
    FrameWords::of(Items::Entries(access.entries()))
}

/// Appends ` batch 1 view 0 parallel order` of an Attempt frame, and gives the lists behind it.
#[tactic(auto, unfolding(crate::specs::FrameLines::attempt_words, crate::specs::Rest::words_left))]
pub(crate) fn begin_attempt<'a>(line: &mut Line, frame: &'a [u8]) -> FrameWords<'a>
    requires room { array_vec_len line.old + LONGEST_PART ≤ LINE_ROOM }
    requires framed { FRAME_HEAD_LEN ≤ length frame.now }
    ensures { line.new.items ++ words_left result ≡ line.old.items
        ++ words_if (has_attempt_body frame.now) (attempt_words (attempt_in frame.now)) }
{
    if certificate_len(&frame[FRAME_HEAD_LEN..]).is_none() {
        return FrameWords::of(Items::None);
    }
    let attempt = AttemptView::new(0, frame);
    put_word(line, " batch ", Number(u64::from(attempt.seq())));
    put_word(line, " view ", Number(u64::from(attempt.view())));
    put_word(line, " ", Mode(attempt.is_serial()));
    put(line, " order");
    FrameWords {
        numbers: Numbers::Indexes(attempt.certificate()),
        items: Items::Replies(attempt.replies()),
        has_begun: false,
        token: Some(attempt.token()),
    }
}

/// Appends ` batch 1 sizes` of a Batch frame, and gives the lists behind it.
#[tactic(auto, unfolding(crate::specs::FrameLines::batch_words, crate::specs::Rest::words_left))]
pub(crate) fn begin_batch<'a>(line: &mut Line, frame: &'a [u8]) -> FrameWords<'a>
    requires room { array_vec_len line.old + LONGEST_PART ≤ LINE_ROOM }
    requires framed { FRAME_HEAD_LEN ≤ length frame.now }
    ensures { line.new.items ++ words_left result ≡ line.old.items
        ++ words_if (has_batch_body frame.now) (batch_words (batch_in frame.now).0 (batch_in frame.now).1) }
{
    if batch_number(&frame[FRAME_HEAD_LEN..]).is_none() {
        return FrameWords::of(Items::None);
    }
    let batch = BatchView::new(0, frame);
    put_word(line, " batch ", Number(u64::from(batch.seq())));
    put(line, " sizes");
    FrameWords {
        numbers: Numbers::Sizes(Sizes { batch, came: 0 }),
        items: Items::Requests(batch.requests()),
        has_begun: false,
        token: None,
    }
}

/// Appends ` to 1 view 1` of a Rollback frame, and gives its restores.
#[tactic(auto, unfolding(crate::specs::FrameLines::rollback_words))]
pub(crate) fn begin_rollback<'a>(line: &mut Line, frame: &'a [u8]) -> FrameWords<'a>
    requires room { array_vec_len line.old + LONGEST_PART ≤ LINE_ROOM }
    requires framed { FRAME_HEAD_LEN ≤ length frame.now }
    ensures { line.new.items ++ words_left result ≡ line.old.items
        ++ words_if (has_rollback_body frame.now) (rollback_words (rollback_in frame.now)) }
{
    if !is_rollback_body(MOST_ROWS, &frame[FRAME_HEAD_LEN..]) {
        return FrameWords::of(Items::None);
    }
    let rollback = RollbackView::new(0, frame);
    put_word(line, " to ", Number(u64::from(rollback.to())));
    put_word(line, " view ", Number(u64::from(rollback.view())));
    if rollback.len() == 0 {
        put(line, ": none");
    }
    FrameWords::of(Items::Restores(rollback.restores()))
}

/// Whether these bytes are the body of a Transfer frame with as many rows as its length tells, and no more than a trace
/// has.
fn is_state_body(body: &[u8]) -> bool
    ensures { result ≡ is_state_body body.now }
{
    let rows = body.len().saturating_sub(8) / 16;
    rows <= MOST_ROWS as usize && is_transfer_body(rows as u32, body)
}

/// Appends ` batch 1 view 0` of a Transfer frame, and gives its rows.
#[tactic(auto, unfolding(crate::specs::FrameLines::transfer_words))]
pub(crate) fn begin_transfer<'a>(line: &mut Line, frame: &'a [u8]) -> FrameWords<'a>
    requires room { array_vec_len line.old + LONGEST_PART ≤ LINE_ROOM }
    requires framed { FRAME_HEAD_LEN ≤ length frame.now }
    ensures { line.new.items ++ words_left result ≡ line.old.items
        ++ words_if (is_state_body (body_in frame.now)) (transfer_words (transfer_in frame.now)) }
{
    if !is_state_body(&frame[FRAME_HEAD_LEN..]) {
        return FrameWords::of(Items::None);
    }
    let transfer = TransferView::new(0, frame);
    put_word(line, " batch ", Number(u64::from(transfer.seq())));
    put_word(line, " view ", Number(u64::from(transfer.view())));
    FrameWords::of(Items::Rows(StateRows { transfer, came: 0 }))
}

/// Appends ` #0 ann saving 0 checking 0` of a Customer frame, which is frame number `number` of its trace.
#[tactic(auto, unfolding(crate::specs::FrameLines::customer_words, crate::specs::FrameLines::balance_words))]
pub(crate) fn put_customer(line: &mut Line, number: usize, frame: &[u8])
    requires room { array_vec_len line.old + LONGEST_PART ≤ LINE_ROOM }
    requires framed { FRAME_HEAD_LEN ≤ length frame.now }
    ensures { line.new.items
        ≡ line.old.items ++ words_if (has_customer_body frame.now) (customer_words number (customer_in frame.now)) }
{
    if is_customer_body(&frame[FRAME_HEAD_LEN..]) {
        let customer = CustomerView::new(0, frame);
        put_word(line, " #", Number(number as u64));
        put_word(line, " ", Name(customer.name()));
        put_word(line, " saving ", Signed(customer.saving().get()));
        put_word(line, " checking ", Signed(customer.checking().get()));
    }
}

/// Appends a word, and the number that the body of a frame is: ` replica 0`.
pub(crate) fn put_number_frame(line: &mut Line, word: &str, frame: &[u8])
    requires room { array_vec_len line.old + LONGEST_PART ≤ LINE_ROOM }
    requires short { length word.now ≤ 16 }
    requires framed { FRAME_HEAD_LEN ≤ length frame.now }
    ensures { line.new.items ≡ line.old.items ++ number_words word.now (number_of (body_in frame.now)) }
{
    if let Some(number) = number_of(&frame[FRAME_HEAD_LEN..]) {
        put_word(line, word, Number(u64::from(number)));
    }
}

/// Appends ` batch 1 view 0 token ..` of a Commit frame.
#[tactic(auto, unfolding(crate::specs::FrameLines::commit_words))]
pub(crate) fn put_commit(line: &mut Line, frame: &[u8])
    requires room { array_vec_len line.old + LONGEST_PART ≤ LINE_ROOM }
    requires framed { FRAME_HEAD_LEN ≤ length frame.now }
    ensures { line.new.items
        ≡ line.old.items ++ words_if (has_commit_body frame.now) (commit_words (commit_in frame.now)) }
{
    if is_commit_body(&frame[FRAME_HEAD_LEN..]) {
        let commit = CommitView::new(0, frame);
        put_word(line, " batch ", Number(u64::from(commit.seq())));
        put_word(line, " view ", Number(u64::from(commit.view())));
        put_word(line, " token ", Token(commit.token()));
    }
}

/// Appends what a vote is for: ` commit ..`, or ` rollback`.
fn put_choice(line: &mut Line, choice: &Choice<'_>)
    requires { array_vec_len line.old + 80 ≤ LINE_ROOM }
    ensures { line.new.items ≡ line.old.items ++ choice_words (borrowed_choice choice.now) }
{
    match choice {
        Choice::ForRollback => put(line, " rollback"),
        Choice::ForCommit(token) => put_word(line, " commit ", Token(token)),
    }
}

/// Appends ` batch 1 view 0 commit ..`, or ` batch 1 view 0 rollback`, of a Vote frame.
#[tactic(auto, unfolding(crate::specs::FrameLines::vote_words))]
pub(crate) fn put_vote(line: &mut Line, frame: &[u8])
    requires room { array_vec_len line.old + LONGEST_PART ≤ LINE_ROOM }
    requires framed { FRAME_HEAD_LEN ≤ length frame.now }
    ensures { line.new.items
        ≡ line.old.items ++ words_if (has_vote_body frame.now) (vote_words (vote_in frame.now)) }
{
    if is_vote_body(MOST_BATCHES, &frame[FRAME_HEAD_LEN..]) {
        let vote = VoteView::new(0, frame);
        put_word(line, " batch ", Number(u64::from(vote.seq())));
        put_word(line, " view ", Number(u64::from(vote.view())));
        put_choice(line, &vote.choice());
    }
}

/// Appends ` client 7 number 1 replica 0 batch 1 reply Done` of a Sent frame.
#[tactic(auto, unfolding(crate::specs::FrameLines::sent_words))]
pub(crate) fn put_sent(line: &mut Line, frame: &[u8])
    requires room { array_vec_len line.old + LONGEST_PART ≤ LINE_ROOM }
    requires framed { FRAME_HEAD_LEN ≤ length frame.now }
    ensures { line.new.items
        ≡ line.old.items ++ words_if (has_sent_body frame.now) (sent_words (sent_in frame.now)) }
{
    if is_sent_body(MOST_REPLICAS, MOST_BATCHES, &frame[FRAME_HEAD_LEN..]) {
        let sent = SentView::new(0, frame);
        put_word(line, " client ", Number(u64::from(sent.client())));
        put_word(line, " number ", Number(sent.number()));
        put_word(line, " replica ", Number(u64::from(sent.replica())));
        put_word(line, " batch ", Number(u64::from(sent.seq())));
        put_word(line, " reply ", Reply(sent.reply()));
    }
}
