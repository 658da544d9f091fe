//! What one replica replied to the requests of one batch.

ghost use Rattle.std.specs.Prelude.{◌≡◌, ◌≤◌, ◌↔◌, ℕ, IsTrue, length};
ghost use Rattle.eve_grammar.specs.Trace.{Trace as TraceValue};
ghost use Rattle.eve_grammar.specs.Frames.{OfSent};
ghost use Rattle.eve_grammar.specs.Limits.{is_sent};
ghost use Rattle.eve_grammar.specs.Spelling.{frame_text};
ghost use Rattle.eve_frames.specs.Decoded.{sent_decoded};
ghost use Rattle.eve_history.specs.SectionHistory.{section_history, section_histories};
ghost use Rattle.eve_agree.specs.SentReplies.{IsReplied};
ghost use Rattle.eve_agree.specs.inner.KeptRequests.{AreRepliesOf, AreSpelled, replies_at};

use crate::agreement::{committed_attempt, has_committed, recall_replies};
use crate::batch_request_ids::BatchRequestIds;
use eve_frames::SentView;
use eve_history::History;
use eve_views::Trace;

/// What a replica replied to the requests of a batch, so that its attempt and the batch are looked up once for the
/// replies to them that stand one after another.
#[derive(Drop)]
pub struct BatchReplies<'a> {
    /// The replica, from 0.
    replica: u8,
    /// The batch, from 1; 0 before the first.
    batch: u32,
    /// The replies of the attempt by which it committed the batch, nine bytes each; none where it didn't.
    replies: &'a [u8],
    /// The requests of the batch.
    request_ids: BatchRequestIds,
}

impl<'a> BatchReplies<'a> {
    /// Of no batch.
    pub fn new() -> BatchReplies<'a>
        ensures { (t : TraceValue) → AreRepliesOf t result }
    {
        BatchReplies {
            replica: 0,
            batch: 0,
            replies: &[],
            request_ids: BatchRequestIds::new(),
        }
    }

    /// Whether the replica that sent a reply committed it. Turns to its batch, if another is at hand.
    /// Decides F90 Reply.
    pub fn have(
        &mut self,
        trace: &Trace<'_>,
        histories: &[History<'a>],
        sent: &SentView<'_>,
    ) -> bool
        requires histories { histories.now ≡ section_histories trace.now }
        requires fits { IsTrue (is_sent (length trace.now.sections) (length trace.now.batches)
            (sent_decoded sent.now)) }
        requires text { sent.now.bytes.now ≡ frame_text (OfSent (sent_decoded sent.now)) }
        requires old { AreRepliesOf trace.now self.old }
        ensures new { AreRepliesOf trace.now self.new }
        ensures replied { IsTrue result ↔ IsReplied trace.now (sent_decoded sent.now) }
    {
        self.turn_to(trace, histories, sent);
        self.request_ids.find(self.replies, sent)
    }

    /// Turns to the batch of a reply that was sent, if another is at hand.
    fn turn_to(&mut self, trace: &Trace<'_>, histories: &[History<'a>], sent: &SentView<'_>)
        requires histories { histories.now ≡ section_histories trace.now }
        requires fits { IsTrue (is_sent (length trace.now.sections) (length trace.now.batches)
            (sent_decoded sent.now)) }
        requires old { AreRepliesOf trace.now self.old }
        ensures new { AreRepliesOf trace.now self.new }
        ensures replica { self.new.replica ≡ (sent_decoded sent.now).replica }
        ensures batch { self.new.batch ≡ (sent_decoded sent.now).seq }
    {
        let replica = sent.replica();
        let batch = sent.seq();
        if !self.is_of(replica, batch) {
            self.look_up(trace, &histories[replica as usize], replica, batch);
        }
    }

    /// Whether this replica and batch are at hand.
    fn is_of(&self, replica: u8, batch: u32) -> bool
        ensures { IsTrue result → (self.now.replica ≡ replica) × (self.now.batch ≡ batch) }
    {
        self.replica == replica && self.batch == batch
    }

    /// Looks a batch of a replica up, by the batch's number from 1.
    fn look_up(&mut self, trace: &Trace<'_>, history: &History<'a>, replica: u8, batch: u32)
        requires history { history.now ≡ section_history trace.now replica }
        requires one { 1 ≤ batch }
        requires there { batch ≤ length trace.now.batches }
        requires old { AreRepliesOf trace.now self.old }
        ensures new { AreRepliesOf trace.now self.new }
        ensures replica { self.new.replica ≡ replica }
        ensures batch { self.new.batch ≡ batch }
    {
        self.request_ids.turn_to(trace, batch);
        self.replies = committed_replies(history, batch);
        self.replica = replica;
        self.batch = batch;
    }
}

/// The replies of the attempt by which a replica committed a batch, as they stand; none where it didn't.
/// Decides F90 Reply.
fn committed_replies<'a>(history: &History<'a>, batch: u32) -> &'a [u8]
    ensures { (t : TraceValue) (e : ℕ) → history.now ≡ section_history t e
        → AreSpelled (replies_at t e batch) result.now }
{
    if !has_committed(history, batch) {
        return &[];
    }
    let attempt = committed_attempt(history, batch);
    recall_replies(attempt.bytes());
    attempt.reply_bytes()
}
