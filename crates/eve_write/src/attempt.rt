//! Attempts and their frames.

ghost use Rattle.std.specs.Prelude.{◌≡◌, ◌+◌, ◌-◌, ◌≤◌, ◌^◌, ◌==◌, ◌&&◌, ◌*◌, ◌∷◌, ◌++◌, if◌then◌else◌, min, IsTrue};
ghost use Rattle.std.specs.Prelude.{length};
ghost use Rattle.std.specs.List.{flat_map, list_all};
ghost use Rattle.arrayvec.specs.ArrayVec.{array_vec_len};
ghost use Rattle.byteorder.specs.Endian.{big_bytes};
ghost use Rattle.eve_smallbank.specs.Spelling.{reply_text};
ghost use Rattle.eve_grammar.specs.Frames.{attempt_frames, OfAttempt};
ghost use Rattle.eve_grammar.specs.Spelling.{frames_text, body_text, frame_text};
ghost use Rattle.eve_grammar.specs.Limits.{row_count, is_access, is_whole_attempt, is_attempt};
ghost use Rattle.eve_write.specs.Data.{attempt as plain};
ghost use Rattle.eve_write.specs.Writes.{Puts, Writes};

use crate::access_list::{AccessList, write_accesses};
use crate::fields::{byte, indexes_fit, put_indexes, put_replies};
use crate::pieces::{put, send};
use crate::right::{all_right, row_count};
use arrayvec::ArrayVec;
use eve_grammar::{ATTEMPT_FRAME, FRAME_HEAD_LEN, Head, MOST_REQUESTS, token_fits};
use eve_smallbank::Reply;
use eve_streams::{SendFault, Sink};

/// An execution of a batch. Contracts see it by `attempt`.
#[derive(Drop)]
pub struct AttemptData {
    /// The batch's number, from 1.
    pub seq: u32,
    /// The view.
    pub view: u32,
    /// Whether one worker ran all requests in order of index.
    pub serial: bool,
    /// The indexes of the requests, in the order that the replica names.
    pub certificate: Vec<u16>,
    /// The replies, by index.
    pub replies: Vec<Reply>,
    /// The token of the balances after it and the replies.
    pub token: [u8; 32],
    /// What the workers noted, in the order in which it was taken.
    pub accesses: AccessList,
}

fn mode_byte(serial: bool) -> [u8; 1]
    ensures { result ≡ big_bytes 1 (if serial then 1 else 0) }
{
    if serial { byte(1) } else { byte(0) }
}

impl AttemptData {
    /// How long the body of its own frame is.
    pub(crate) fn body_len(&self) -> u32
        requires { IsTrue (is_attempt (plain self.now)) }
        ensures { result ≡ length (body_text (OfAttempt (plain self.now))) }
    {
        43 + 11 * self.certificate.len() as u32
    }

    /// Appends what stands before the certificate.
    fn put_prefix<const N: usize>(&self, frame: &mut ArrayVec<u8, N>)
        requires right { IsTrue (is_attempt (plain self.now)) }
        requires room { array_vec_len frame.old + 16 ≤ N }
        ensures puts { Puts frame.old.items frame.new.items
            (17 ∷ (big_bytes 4 (length (body_text (OfAttempt (plain self.now))))
            ++ (big_bytes 4 self.now.seq ++ (big_bytes 4 self.now.view
            ++ (big_bytes 1 (if self.now.serial then 1 else 0)
            ++ big_bytes 2 (length self.now.certificate.items)))))) }
        ensures len { array_vec_len frame.new ≡ array_vec_len frame.old + 16 }
    {
        put(frame, &byte(ATTEMPT_FRAME));
        put(frame, &self.body_len().to_be_bytes());
        put(frame, &self.seq.to_be_bytes());
        put(frame, &self.view.to_be_bytes());
        put(frame, &mode_byte(self.serial));
        put(frame, &(self.certificate.len() as u16).to_be_bytes());
    }

    /// Appends the certificate, the replies and the token.
    fn put_results<const N: usize>(&self, frame: &mut ArrayVec<u8, N>)
        requires right { IsTrue (is_attempt (plain self.now)) }
        requires room { array_vec_len frame.old + 32 + 11 * length self.now.certificate.items ≤ N }
        ensures { Puts frame.old.items frame.new.items
            (flat_map (big_bytes 2) self.now.certificate.items
            ++ (flat_map reply_text self.now.replies.items ++ self.now.token)) }
    {
        put_indexes(frame, self.certificate.as_slice());
        put_replies(frame, self.replies.as_slice());
        put(frame, &self.token);
    }
}

/// How many bytes an Attempt frame has at most.
const LONGEST_ATTEMPT: usize = 48 + 11 * MOST_REQUESTS;

/// Writes an Attempt frame, without the frames of its accesses, of an attempt within the limits but for those.
///
/// docs/TRACE.md, "Frames". After a fault a prefix of the frame has been taken, and not all of it.
pub fn write_attempt<W: Sink>(out: &mut W, attempt: &AttemptData) -> Result<(), SendFault>
    requires { IsTrue (is_attempt (plain attempt.now)) }
    ensures { Writes W.written W.failures out.old out.new result (frame_text (OfAttempt (plain attempt.now))) }
{
    let mut frame = ArrayVec::<u8, LONGEST_ATTEMPT>::new();
    attempt.put_prefix(&mut frame);
    attempt.put_results(&mut frame);
    send(out, frame.as_slice())
}

impl AttemptData {
    /// How many bytes its frames take, those of its accesses included, and 2^64 - 1 for more.
    pub(crate) fn text_len(&self) -> u64
        requires { IsTrue (is_attempt (plain self.now)) }
        ensures { result ≡ min (length (frames_text (attempt_frames (plain self.now)))) (2 ^ 64 - 1) }
    {
        let frame = FRAME_HEAD_LEN as u64 + self.body_len() as u64;
        self.accesses.text_len().saturating_add(frame)
    }

    /// Writes its frames, those of its accesses included.
    pub(crate) fn write_frames<W: Sink>(&self, out: &mut W) -> Result<(), SendFault>
        requires { IsTrue (is_attempt (plain self.now)) }
        ensures { Writes W.written W.failures out.old out.new result
            (frames_text (attempt_frames (plain self.now))) }
    {
        write_attempt(out, self)?;
        write_accesses(out, &self.accesses)
    }

    /// Whether its own frame lies within the limits.
    fn is_counted(&self, head: &Head) -> bool
        ensures { result ≡ is_attempt (plain self.now) }
    {
        let _seq = self.seq;
        let _view = self.view;
        token_fits(&self.token);
        indexes_fit(self.certificate.as_slice());
        let count = self.certificate.len();
        1 <= count
            && count <= MOST_REQUESTS
            && self.replies.len() == count
            && all_right(self.replies.as_slice(), head)
    }

    /// Whether it has as many accesses as replies, each within the limits.
    fn has_accesses(&self, head: &Head) -> bool
        ensures { result ≡ ((length (plain self.now).accesses == length self.now.certificate.items)
            && list_all (is_access (row_count head.now)) (plain self.now).accesses) }
    {
        self.accesses.len() == self.certificate.len() && self.accesses.are_within(row_count(head))
    }

    /// Whether it lies within the limits, with its accesses.
    pub(crate) fn is_right(&self, head: &Head) -> bool
        ensures { result ≡ is_whole_attempt (row_count head.now) (plain self.now) }
    {
        self.is_counted(head) && self.has_accesses(head)
    }
}
