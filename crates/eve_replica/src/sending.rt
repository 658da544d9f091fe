//! The replies that replicas send.

ghost use Rattle.std.specs.Prelude.{◌≡◌, ◌≤◌, ◌<◌, ◌++◌, ◌∷◌, [], map, IfOk, IsTrue, OnOk};
ghost use Rattle.std.specs.Prelude.{◌+◌, length, vec_len, vec_capacity};
ghost use Rattle.eve_grammar.specs.Limits.{is_sent};
ghost use Rattle.eve_write.specs.Data.{asked, attempt as plain_attempt, batch, section, sent as plain};
ghost use Rattle.eve_write.specs.Data.{step as plain_step};
ghost use Rattle.eve_replica.specs.SentReplies.{answered, answers_of, sent_along, sent_from_on};
ghost use Rattle.eve_replica.specs.inner.RunInvariant.{AreReplies};

use crate::server::Server;
use eve_grammar::{MOST_REPLICAS, reply_fits};
use eve_smallbank::Reply;
use eve_workload::MixedBatch;
use eve_write::{AttemptData, RequestData, SentData, Step};
use std::alloc::{AllocError, Global};

/// A reply for each request that a replica committed: by replica, then batch, then index.
///
/// docs/TRACE.md, "The deployment's procedure".
pub(crate) fn replies_of(
    alloc: Global,
    servers: &[Server],
    batches: &[MixedBatch],
) -> Result<Vec<SentData>, AllocError>
    requires few { length servers.now ≤ MOST_REPLICAS }
    ensures limits { IfOk result (λ replies. AreReplies (length servers.now) (length batches.now) replies.items) }
    ensures sent { IfOk result (λ replies. map plain replies.items
        ≡ sent_from_on (map (λ m. batch m.batch) batches.now) 0 (map (λ s. section s.steps) servers.now)) }
{
    let mut replies = Vec::with_capacity(alloc, count_replies(servers))?;
    for place in 0..servers.len() {
        let steps = servers[place].steps.as_slice();
        let sender = Sender {
            place: place as u8,
            replicas: servers.len(),
            batches,
        };
        sender.send_section(alloc, &mut replies, steps)?;
    }
    Ok(replies)
}

/// How many replies the attempts of the replicas have, as room for those that are sent: an attempt that isn't committed
/// sends none.
fn count_replies(servers: &[Server]) -> usize {
    let mut count = 0usize;
    for server in servers {
        for step in server.steps.as_slice() {
            if let Step::Attempt(attempt) = step {
                count = count.saturating_add(attempt.replies.len());
            }
        }
    }
    count
}

/// A replica that sends replies: its place among the replicas of a run, their number, and the batches of the run.
#[derive(Clone, Copy)]
struct Sender<'b> {
    place: u8,
    replicas: usize,
    batches: &'b [MixedBatch],
}

impl Sender<'_> {
    /// Sends the replies to each batch that it committed by these steps.
    fn send_section(
        &self,
        alloc: Global,
        replies: &mut Vec<SentData>,
        steps: &[Step],
    ) -> Result<(), AllocError>
        requires there { self.now.place < self.now.replicas }
        requires right { AreReplies self.now.replicas (length self.now.batches.now) replies.old.items }
        ensures limits { OnOk result (AreReplies self.now.replicas (length self.now.batches.now) replies.new.items) }
        ensures sent { let batches = map (λ m. batch m.batch) self.now.batches.now in
            OnOk result (map plain replies.new.items ≡ map plain replies.old.items
            ++ sent_along batches self.now.place [] (map plain_step steps.now)) }
    {
        let mut opened: Vec<&AttemptData> = Vec::new(alloc);
        for step in steps {
            match step {
                Step::Attempt(attempt) => opened.push(attempt)?,
                Step::Commit(_) => {
                    if !opened.is_empty() {
                        let attempt = opened.remove(0);
                        self.send_attempt(replies, attempt)?;
                    }
                }
                Step::Rollback(_) => opened.clear(),
                Step::Transfer(_) => opened.clear(),
            }
        }
        Ok(())
    }

    /// Sends the replies of the attempt.
    fn send_attempt(
        &self,
        replies: &mut Vec<SentData>,
        attempt: &AttemptData,
    ) -> Result<(), AllocError>
        requires there { self.now.place < self.now.replicas }
        requires right { AreReplies self.now.replicas (length self.now.batches.now) replies.old.items }
        ensures limits { OnOk result (AreReplies self.now.replicas (length self.now.batches.now) replies.new.items) }
        ensures sent { OnOk result (map plain replies.new.items ≡ map plain replies.old.items
            ++ answers_of (map (λ m. batch m.batch) self.now.batches.now) self.now.place (plain_attempt attempt.now)) }
    {
        let seq = attempt.seq;
        if seq < 1 || seq as usize > self.batches.len() {
            return Ok(());
        }
        let requests = self.batches[seq as usize - 1].batch.requests.as_slice();
        let answers = attempt.replies.as_slice();
        let count = requests.len().min(answers.len());
        replies.reserve(count)?;
        for index in 0..count {
            self.send(replies, seq, &requests[index], answers[index]);
        }
        Ok(())
    }

    /// Sends the reply to a request of the batch with this number, where there is room for it.
    fn send(&self, replies: &mut Vec<SentData>, seq: u32, request: &RequestData, reply: Reply)
        requires there { self.now.place < self.now.replicas }
        requires seq { (1 ≤ seq) × (seq ≤ length self.now.batches.now) }
        requires right { AreReplies self.now.replicas (length self.now.batches.now) replies.old.items }
        requires room { vec_len replies.old < vec_capacity replies.old }
        ensures limits { AreReplies self.now.replicas (length self.now.batches.now) replies.new.items }
        ensures sent { map plain replies.new.items ≡ map plain replies.old.items
            ++ answered self.now.place seq (asked request.now ∷ []) (reply ∷ []) }
        ensures len { vec_len replies.new ≡ vec_len replies.old + 1 }
        ensures capacity { vec_capacity replies.new ≡ vec_capacity replies.old }
    {
        let sent = SentData {
            client: request.client,
            number: request.number,
            replica: self.place,
            seq,
            reply,
        };
        sent_fits(&sent, self.replicas, self.batches.len());
        replies.push_reserved(sent);
    }
}

/// Does nothing: its contract says that the reply lies within the limits of the format, by the numbers of replicas and
/// batches.
fn sent_fits(sent: &SentData, replicas: usize, batches: usize)
    requires replica { sent.now.replica < replicas }
    requires seq { (1 ≤ sent.now.seq) × (sent.now.seq ≤ batches) }
    ensures { IsTrue (is_sent replicas batches (plain sent.now)) }
{
    let _client = sent.client;
    let _number = sent.number;
    reply_fits(sent.reply);
}
