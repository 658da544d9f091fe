//! The requests of the batch whose replies are judged.

ghost use Rattle.std.specs.Prelude.{◌≡◌, ◌≤◌, ◌<◌, ◌*◌, ◌↔◌, ℕ, Some, IsTrue, IfSome, IfNone};
ghost use Rattle.std.specs.Prelude.{length, map, take, drop, slice_get};
ghost use Rattle.eve_grammar.specs.Limits.{is_batch};
ghost use Rattle.eve_grammar.specs.Frames.{OfSent};
ghost use Rattle.eve_grammar.specs.Spelling.{frame_text};
ghost use Rattle.eve_frames.specs.Decoded.{batch_decoded, sent_decoded};
ghost use Rattle.eve_grammar.specs.Trace.{request_id};
ghost use Rattle.eve_history.specs.Order.{requests_decoded};
ghost use Rattle.eve_agree.specs.inner.KeptRequests.{kept_ids, AnswersAt, AreOf};

use byteorder::{BigEndian, ByteOrder};
use eve_frames::{BatchView, SentView};
use eve_grammar::MOST_REQUESTS;
use eve_views::Trace;

/// A request's client, and the client's number for it.
type RequestId = (u32, u64);

/// The clients and numbers of one batch's requests by their indexes, so that the batch is read once for all its
/// replies.
#[derive(Drop)]
pub struct BatchRequestIds {
    /// The batch, from 1; 0 before the first.
    batch: u32,
    /// How many requests it has.
    count: usize,
    /// The index after the one that was found last.
    next: usize,
    /// By index; those from the count on are none of the batch.
    items: [RequestId; MOST_REQUESTS],
}

impl BatchRequestIds {
    /// Of no batch.
    pub fn new() -> BatchRequestIds
        ensures few { result.count ≤ MOST_REQUESTS }
        ensures none { result.batch ≡ 0 }
    {
        BatchRequestIds {
            batch: 0,
            count: 0,
            next: 0,
            items: [(0, 0); MOST_REQUESTS],
        }
    }

    /// Turns to a batch of the trace, by its number from 1: reads it, if it isn't the one at hand.
    pub fn turn_to(&mut self, trace: &Trace<'_>, batch: u32)
        requires one { 1 ≤ batch }
        requires there { batch ≤ length trace.now.batches }
        requires old { AreOf trace.now self.old }
        ensures new { AreOf trace.now self.new }
        ensures batch { self.new.batch ≡ batch }
    {
        if self.batch != batch {
            trace.recall_limits();
            self.count = read(&trace.batch(batch), &mut self.items);
            self.batch = batch;
            self.next = 0;
        }
    }

    /// Whether, of an attempt's replies, spelled in nine bytes each, that to the request which a sent reply answers is
    /// the one that was sent. The request is looked for first after the one that was found last.
    pub fn find(&mut self, replies: &[u8], sent: &SentView<'_>) -> bool
        requires few { self.old.count ≤ MOST_REQUESTS }
        requires text { sent.now.bytes.now ≡ frame_text (OfSent (sent_decoded sent.now)) }
        ensures answer { IsTrue result
            ↔ ((i : ℕ) × AnswersAt (kept_ids self.old) replies.now (sent_decoded sent.now) i) }
        ensures batch { self.new.batch ≡ self.old.batch }
        ensures count { self.new.count ≡ self.old.count }
        ensures kept { kept_ids self.new ≡ kept_ids self.old }
    {
        match self.index_of(replies, sent) {
            Some(i) => {
                self.next = i + 1;
                true
            }
            None => false,
        }
    }

    /// The index at which an attempt's reply is the sent one, to the request that it answers.
    fn index_of(&self, replies: &[u8], sent: &SentView<'_>) -> Option<usize>
        requires few { self.now.count ≤ MOST_REQUESTS }
        requires text { sent.now.bytes.now ≡ frame_text (OfSent (sent_decoded sent.now)) }
        ensures below { IfSome result (λ i. i < MOST_REQUESTS) }
        ensures found { IfSome result (AnswersAt (kept_ids self.now) replies.now (sent_decoded sent.now)) }
        ensures none { IfNone result ((i : ℕ) → ¬ AnswersAt (kept_ids self.now) replies.now (sent_decoded sent.now) i) }
    {
        if self.is_answer(replies, sent, self.next) {
            return Some(self.next);
        }
        for i in 0..self.count {
            if self.is_answer(replies, sent, i) {
                return Some(i);
            }
        }
        None
    }

    /// Whether an attempt's reply at an index is the sent one, to the request that it answers.
    fn is_answer(&self, replies: &[u8], sent: &SentView<'_>, i: usize) -> bool
        requires few { self.now.count ≤ MOST_REQUESTS }
        requires text { sent.now.bytes.now ≡ frame_text (OfSent (sent_decoded sent.now)) }
        ensures below { IsTrue result → i < MOST_REQUESTS }
        ensures answer { IsTrue result ↔ AnswersAt (kept_ids self.now) replies.now (sent_decoded sent.now) i }
    {
        if !self.asks(sent, i) {
            return false;
        }
        is_reply(replies, i, sent.bytes())
    }

    /// Whether the request at an index is the one that a sent reply answers.
    fn asks(&self, sent: &SentView<'_>, i: usize) -> bool
        requires { self.now.count ≤ MOST_REQUESTS }
        ensures below { IsTrue result → i < MOST_REQUESTS }
        ensures asks { IsTrue result
            ↔ (slice_get (kept_ids self.now) i
            ≡ Some ((sent_decoded sent.now).client, (sent_decoded sent.now).number)) }
    {
        if i >= self.count {
            return false;
        }
        let (client, number) = self.items[i];
        client == sent.client() && number == sent.number()
    }
}

/// Whether, of replies that are spelled in nine bytes each, that of an index is the one of a Sent frame.
fn is_reply(replies: &[u8], i: usize, frame: &[u8]) -> bool
    requires few { i < MOST_REQUESTS }
    requires frame { length frame.now ≡ 31 }
    ensures { IsTrue result ↔ (take 9 (drop (9 * i) replies.now) ≡ drop 22 frame.now) }
{
    let at = 9 * i;
    if replies.len() < at + 9 {
        return false;
    }
    is_same_text(&replies[at..at + 9], &frame[22..])
}

/// Whether two texts of nine bytes are the same.
fn is_same_text(own: &[u8], its: &[u8]) -> bool
    requires own { length own.now ≡ 9 }
    requires its { length its.now ≡ 9 }
    ensures { IsTrue result ↔ (own.now ≡ its.now) }
{
    own[0] == its[0] && BigEndian::read_u64(&own[1..]) == BigEndian::read_u64(&its[1..])
}

/// Reads the client and the number of each request of a batch: how many there are.
fn read(batch: &BatchView<'_>, items: &mut [RequestId; MOST_REQUESTS]) -> usize
    requires { IsTrue (is_batch (batch_decoded batch.now).1) }
    ensures few { result ≤ MOST_REQUESTS }
    ensures kept { take result items.new ≡ map request_id (requests_decoded batch.now.bytes.now) }
{
    let mut count = 0;
    for asked in batch.requests() {
        items[count] = (asked.client, asked.number);
        count += 1;
    }
    count
}
