//! The evidence of a reply that was sent and not committed.

ghost use Rattle.std.specs.Prelude.{◌≡◌, ◌<◌, ◌≤◌, ◌↔◌, ℕ, IsTrue, IfSome, IfNone, Some, length, slice_get};
ghost use Rattle.eve_grammar.specs.Limits.{is_batch};
ghost use Rattle.eve_grammar.specs.Trace.{Sent as SentValue};
ghost use Rattle.eve_grammar.specs.Spelling.{sent_at};
ghost use Rattle.eve_frames.specs.Decoded.{attempt_decoded, batch_decoded, sent_decoded};
ghost use Rattle.eve_views.specs.declared.fault.Code.TheVariants as code;
ghost use Rattle.eve_history.specs.SectionHistory.{section_history, section_histories};
ghost use Rattle.eve_agree.specs.SentReplies.{IsReplied, StandsInReplies};
ghost use Rattle.eve_evidence_outcomes.specs.Sent.{NoneHas, IsFoundRequest, TellsSentIn, TellsReply};
ghost use Rattle.eve_evidence.specs.Told.{told_sent};

use crate::committed::committed_attempt;
use crate::given::given_by;
use eve_evidence::{Evidence, SentFault, ToldRequest, ToldSent, has_id, reply_of};
use eve_frames::{AttemptView, BatchView, SentView};
use eve_history::History;
use eve_smallbank::Reply;
use eve_views::Trace;

/// A reply that was sent, by its own frame.
fn told_sent(sent: &SentView<'_>) -> ToldSent
    ensures { result ≡ told_sent (sent_decoded sent.now) }
{
    ToldSent {
        client: sent.client(),
        number: sent.number(),
        replica: sent.replica(),
        batch: sent.seq(),
        reply: sent.reply(),
    }
}

/// The first request of a batch with this client and number, if there is one.
fn request_with<'a>(
    batch: &BatchView<'a>,
    seq: u32,
    client: u32,
    number: u64,
) -> Option<ToldRequest<'a>>
    requires { IsTrue (is_batch (batch_decoded batch.now).1) }
    ensures found { IfSome result (IsFoundRequest (client, number) (batch_decoded batch.now).1.requests) }
    ensures batch { IfSome result (λ r. r.batch ≡ seq) }
    ensures none { IfNone result (NoneHas (client, number) (batch_decoded batch.now).1.requests) }
{
    let mut index: u16 = 0;
    for asked in batch.requests() {
        if has_id(&asked, client, number) {
            return Some(ToldRequest {
                index,
                batch: seq,
                asked,
            });
        }
        index += 1;
    }
    None
}

/// Whether an attempt has this reply for the request of an index.
pub(crate) fn has_reply(attempt: &AttemptView<'_>, index: u16, reply: Reply) -> bool
    ensures { IsTrue result ↔ (slice_get (attempt_decoded attempt.now).replies index ≡ Some reply) }
{
    if attempt.len() <= index as usize {
        return false;
    }
    attempt.reply(index as usize) == reply
}

/// The first thing that is wrong with a reply that was sent, if it isn't one that its replica committed, and who
/// gave it.
fn wrong_with<'a>(
    trace: &Trace<'a>,
    history: &History<'_>,
    sent: &SentView<'_>,
) -> Option<Evidence<'a>>
    requires history { history.now ≡ section_history trace.now (sent_decoded sent.now).replica }
    requires one { 1 ≤ (sent_decoded sent.now).seq }
    requires there { (sent_decoded sent.now).seq ≤ length trace.now.batches }
    ensures told { IfSome result (TellsSentIn trace.now (sent_decoded sent.now)) }
    ensures none { IfNone result (IsReplied trace.now (sent_decoded sent.now)) }
{
    trace.recall_limits();
    let seq = sent.seq();
    let batch = trace.batch(seq);
    let told = told_sent(sent);
    let Some(request) = request_with(&batch, seq, told.client, told.number) else {
        return Some(Evidence::Reply {
            sent: told,
            wrong: SentFault::NoRequest,
            given: None,
        });
    };
    let index = request.index;
    let given = given_by(history, seq, index, told.reply);
    let Some(attempt) = committed_attempt(history, seq) else {
        return Some(Evidence::Reply {
            sent: told,
            wrong: SentFault::NotCommitted,
            given,
        });
    };
    if has_reply(&attempt, index, told.reply) {
        return None;
    }
    let due = reply_of(&attempt, index);
    Some(Evidence::Reply {
        sent: told,
        wrong: SentFault::Another { request, due },
        given,
    })
}

/// What is wrong with a reply sent, by its place from 0, if its frame begins at this byte and it was not committed.
fn at_sent<'a>(
    trace: &Trace<'a>,
    histories: &[History<'_>],
    i: usize,
    place: u64,
) -> Option<Evidence<'a>>
    requires there { i < length trace.now.sent }
    requires histories { histories.now ≡ section_histories trace.now }
    ensures told { IfSome result (TellsReply trace.now place) }
    ensures none { IfNone result ((s : ℕ × SentValue) → slice_get (sent_at trace.now) i ≡ Some s
        → s.0 ≡ place → IsReplied trace.now s.1) }
{
    trace.recall_limits();
    let sent = trace.sent(i);
    if sent.offset() != place {
        return None;
    }
    let history = &histories[sent.replica() as usize];
    wrong_with(trace, history, &sent)
}

/// The evidence of a reply that was sent and not committed, by the byte of its frame.
///
/// It says that the reply's batch has no such request, or that its replica didn't commit the batch by an attempt, or it
/// has the request with the reply sent and the one committed. For the last two it also has the first attempt of the
/// replica that gave the reply and wasn't committed.
///
/// docs/MODEL.md, "Sent replies" and "Evidence". It takes no memory. One pass over the replies sent, up to that frame,
/// and one over its batch. The histories are those of all replicas, in their order.
pub fn reply_evidence<'a>(trace: &Trace<'a>, histories: &[History<'_>], place: u64) -> Evidence<'a>
    requires histories { histories.now ≡ section_histories trace.now }
    requires stands { StandsInReplies code.Reply trace.now place }
    ensures told { TellsReply trace.now place result }
{
    for i in 0..trace.sent_count() {
        if let Some(found) = at_sent(trace, histories, i, place) {
            return found;
        }
    }
    unreachable!()
}
