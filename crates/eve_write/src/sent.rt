//! Replies sent and their frames.

ghost use Rattle.std.specs.Prelude.{◌+◌, ◌≤◌, true, length};
ghost use Rattle.arrayvec.specs.ArrayVec.{array_vec_len};
ghost use Rattle.eve_grammar.specs.Frames.{OfSent};
ghost use Rattle.eve_grammar.specs.Spelling.{frame_text};
ghost use Rattle.eve_grammar.specs.Limits.{is_sent};
ghost use Rattle.eve_write.specs.Data.{sent as plain};
ghost use Rattle.eve_write.specs.Writes.{Puts, Writes};

use crate::fields::{byte, put_reply};
use crate::measure::Measure;
use crate::pieces::{put, send};
use crate::right::Judge;
use crate::short::{MOST_GATHERED, Short};
use arrayvec::ArrayVec;
use eve_grammar::{Head, SENT_FRAME};
use eve_smallbank::Reply;
use eve_streams::{SendFault, Sink};

/// A reply that a replica sent to a client. Contracts see it by `sent`.
#[derive(Clone, Copy)]
pub struct SentData {
    /// The client.
    pub client: u32,
    /// The client's number for the request.
    pub number: u64,
    /// The replica, from 0.
    pub replica: u8,
    /// The batch's number, from 1.
    pub seq: u32,
    /// The reply.
    pub reply: Reply,
}

/// How many bytes a Sent frame has.
const LEN_OF_SENT: usize = 31;

/// Appends a Sent frame.
fn put_sent<const N: usize>(frame: &mut ArrayVec<u8, N>, sent: &SentData)
    requires { array_vec_len frame.old + LEN_OF_SENT ≤ N }
    ensures { Puts frame.old.items frame.new.items (frame_text (OfSent (plain sent.now))) }
{
    put(frame, &[SENT_FRAME, 0, 0, 0, 26]);
    put(frame, &sent.client.to_be_bytes());
    put(frame, &sent.number.to_be_bytes());
    put(frame, &byte(sent.replica));
    put(frame, &sent.seq.to_be_bytes());
    put_reply(frame, sent.reply);
}

/// Writes a Sent frame.
///
/// docs/TRACE.md, "Frames". After a fault a prefix of the frame has been taken, and not all of it.
pub fn write_sent<W: Sink>(out: &mut W, sent: &SentData) -> Result<(), SendFault>
    ensures { Writes W.written W.failures out.old out.new result (frame_text (OfSent (plain sent.now))) }
{
    let mut frame = ArrayVec::<u8, LEN_OF_SENT>::new();
    put_sent(&mut frame, sent);
    send(out, frame.as_slice())
}

impl Short for SentData {
    ghost text = { λ s. frame_text (OfSent (plain s)) };

    ghost fits = { λ _. true };

    fn put(&self, texts: &mut ArrayVec<u8, MOST_GATHERED>) {
        put_sent(texts, self);
    }
}

impl Measure for SentData {
    ghost size = { λ s. length (frame_text (OfSent (plain s))) };

    ghost fits = { λ _. true };

    fn text_len(&self) -> u64 {
        LEN_OF_SENT as u64
    }
}

impl Judge for SentData {
    ghost right = { λ h s. is_sent h.replicas h.batches (plain s) };

    fn is_right(&self, head: &Head) -> bool {
        let _client = self.client;
        let _number = self.number;
        self.replica < head.replicas
            && 1 <= self.seq
            && self.seq <= head.batches
            && self.reply.is_right(head)
    }
}
