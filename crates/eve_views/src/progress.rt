//! The walk over a trace without judging the bodies of batches, attempts, access records and transfers, which are most
//! of it.

ghost use Rattle.std.specs.Prelude.{◌≡◌, ℕ, ◌≤◌, ◌<◌, length, List, IsTrue, IfOk, IfSome, Some, drop};
ghost use Rattle.std.specs.Option.{option_map};
ghost use Rattle.byteorder.specs.Endian.{big_number};
ghost use Rattle.eve_grammar.specs.Kinds.{kind_byte};
ghost use Rattle.eve_grammar.specs.Limits.{row_count};
ghost use Rattle.eve_grammar.specs.Readers.{body_of};
ghost use Rattle.eve_views.specs.Form.{SaysHead};
ghost use Rattle.eve_views.specs.inner.Places.{accesses_in};
ghost use Rattle.eve_views.specs.Indexes.{kept_in, IsIndex};
ghost use Rattle.eve_views.specs.inner.SideBySide.{is_right_body, AreRightFrames, IsFramedUnjudged};
ghost use Rattle.eve_views.specs.inner.SideBySide.{access_kept, FindsUnjudged, IsWalkedUnjudged, WalksOn};

use crate::body::accesses_behind;
use crate::reached::Reached;
use crate::starts::Starts;
use crate::walk::{Framed, Index, kind_and_body};
use byteorder::{BigEndian, ByteOrder};
use eve_grammar::{FRAME_HEAD_LEN, FrameKind, HEADER_LEN, Head, MOST_BYTES, MOST_CUSTOMERS};
use std::alloc::{AllocError, Global};

/// How far a walk over the frames of a trace has come.
#[derive(Drop)]
pub struct Progress {
    /// The byte offset of each frame so far.
    pub offsets: Vec<u32>,
    /// Those of them that begin parts.
    pub starts: Starts,
    /// The place behind them.
    pub reached: Reached,
    /// The byte behind them.
    pub at: usize,
}

/// How many access frames the body of an attempt says to follow it. The rest of the body isn't judged.
#[inline(always)]
fn accesses_decoded(body: &[u8]) -> Option<usize>
    ensures { IfSome result (λ n. n ≡ big_number 2 (drop 9 body.now)) }
{
    if body.len() < 11 {
        return None;
    }
    Some(usize::from(BigEndian::read_u16(&body[9..])))
}

/// Whether the body of a batch says this number. The rest of the body isn't judged.
#[inline(always)]
fn says_number(body: &[u8], number: u32) -> bool
    ensures { IsTrue result → big_number 4 body.now ≡ number }
{
    4 <= body.len() && BigEndian::read_u32(body) == number
}

/// How many access frames have to follow a frame of this kind that stands here, if its body is right. Of a batch, an
/// attempt, an access record and a transfer nothing else of the body is judged; `None` where what is judged is wrong.
#[inline(always)]
fn accesses_unjudged(at: &Reached, kind: FrameKind, body: &[u8]) -> Option<usize>
    requires { at.now.head.customers ≤ MOST_CUSTOMERS }
    ensures { IfSome result (λ n. IsTrue (is_right_body (row_count at.now.head) (kind_byte kind) body.now)
        → Some n ≡ option_map accesses_in (body_of at.now.head at.now.place (kind_byte kind) body.now)) }
{
    match kind {
        FrameKind::Access | FrameKind::Transfer => Some(0),
        FrameKind::Attempt => accesses_decoded(body),
        FrameKind::Batch => {
            if at.place.batches < u32::MAX && says_number(body, at.place.batches + 1) {
                Some(0)
            } else {
                None
            }
        }
        _ => accesses_behind(at, kind, body),
    }
}

/// The frame at the beginning of the bytes, where nothing is wrong with it but for the body of a batch, an attempt, an
/// access record or a transfer, which isn't judged.
#[inline(always)]
fn frame_unjudged(at: &Reached, bytes: &[u8]) -> Option<Framed>
    requires { at.now.head.customers ≤ MOST_CUSTOMERS }
    ensures { IfSome result (λ f. IsFramedUnjudged at.now.head at.now.place bytes.now (kept_in f)) }
{
    let (kind, body) = kind_and_body(bytes)?;
    if !at.allows(kind) {
        return None;
    }
    let accesses = accesses_unjudged(at, kind, body)?;
    Some(Framed {
        kind,
        len: FRAME_HEAD_LEN + body.len(),
        accesses,
    })
}

/// The length of the access frame at the beginning of the bytes, where one lies there as a whole. Its body isn't
/// judged.
#[inline(always)]
fn access_unjudged(bytes: &[u8]) -> Option<usize>
    ensures { IfSome result (λ len. FindsUnjudged bytes.now (access_kept len)) }
{
    let (kind, body) = kind_and_body(bytes)?;
    match kind {
        FrameKind::Access => Some(FRAME_HEAD_LEN + body.len()),
        _ => None,
    }
}

impl Progress {
    /// Before the first frame.
    pub fn start(alloc: Global, head: Head) -> Progress
        ensures { (bytes : List ℕ) → HEADER_LEN ≤ length bytes → IsWalkedUnjudged head bytes result }
    {
        Progress {
            offsets: Vec::new(alloc),
            starts: Starts::new(),
            reached: Reached::start(head),
            at: HEADER_LEN,
        }
    }

    /// Goes on over one frame; no, where anything is wrong with it, but for a body that isn't judged.
    #[inline(always)]
    fn pass_frame(&mut self, head: Head, bytes: &[u8]) -> Result<bool, AllocError>
        requires says { SaysHead bytes.now head }
        requires length { length bytes.now ≤ MOST_BYTES }
        requires walked { IsWalkedUnjudged head bytes.now self.old }
        ensures walked { IfOk result (λ right. IsTrue right → IsWalkedUnjudged head bytes.now self.new) }
        ensures kept { IfOk result (λ right. IsTrue right → WalksOn self.old self.new) }
        ensures on { IfOk result (λ right. IsTrue right → self.old.at < self.new.at) }
    {
        let Some(frame) = frame_unjudged(&self.reached, &bytes[self.at..]) else {
            return Ok(false);
        };
        let number = self.offsets.len() as u32;
        self.starts.note(&self.reached.place, frame.kind, number);
        self.offsets.push(self.at as u32)?;
        self.reached.pass(frame.kind, frame.accesses);
        self.at += frame.len;
        Ok(true)
    }

    /// Goes on over the access frames that have to follow the last attempt; no, where they don't.
    #[inline(always)]
    fn pass_accesses(&mut self, head: Head, bytes: &[u8]) -> Result<bool, AllocError>
        requires says { SaysHead bytes.now head }
        requires length { length bytes.now ≤ MOST_BYTES }
        requires walked { IsWalkedUnjudged head bytes.now self.old }
        ensures walked { IfOk result (λ right. IsTrue right → IsWalkedUnjudged head bytes.now self.new) }
        ensures kept { IfOk result (λ right. IsTrue right → WalksOn self.old self.new) }
        ensures on { IfOk result (λ right. IsTrue right → self.old.at ≤ self.new.at) }
    {
        if self.reached.place.accesses == 0 {
            return Ok(true);
        }
        if !self.reached.allows(FrameKind::Access) {
            return Ok(false);
        }
        'frames: while 0 < self.reached.place.accesses {
            let at = self.at;
            let Some(len) = access_unjudged(&bytes[at..]) else {
                return Ok(false);
            };
            self.offsets.push(at as u32)?;
            self.reached.pass(FrameKind::Access, 0);
            self.at = at + len;
        }
        Ok(true)
    }

    /// Goes on until there are `most` frames, or up to the end, where that comes before; nothing where anything is
    /// wrong on the way, but for the bodies that aren't judged. Access frames aren't parted from their attempt.
    pub fn go_on(
        self,
        head: Head,
        bytes: &[u8],
        most: usize,
    ) -> Result<Option<Progress>, AllocError>
        requires says { SaysHead bytes.now head }
        requires length { length bytes.now ≤ MOST_BYTES }
        requires walked { IsWalkedUnjudged head bytes.now self }
        ensures walked { IfOk result (λ found. IfSome found (IsWalkedUnjudged head bytes.now)) }
        ensures kept { IfOk result (λ found. IfSome found (WalksOn self)) }
    {
        let mut walked = self;
        'frames: while walked.offsets.len() < most
            && (!walked.reached.place.ended || walked.at < bytes.len())
        {
            if !walked.pass_frame(head, bytes)? || !walked.pass_accesses(head, bytes)? {
                return Ok(None);
            }
        }
        Ok(Some(walked))
    }

    /// The frames up to the end, where it came as the last; nothing where it didn't come or bytes follow it.
    pub fn ended(self, head: Head, bytes: &[u8]) -> Option<Index>
        requires walked { IsWalkedUnjudged head bytes.now self }
        requires right { AreRightFrames (row_count head) bytes.now self.offsets.items }
        ensures { IfSome result (IsIndex head bytes.now) }
    {
        if self.reached.place.ended && bytes.len() <= self.at {
            Some(Index {
                offsets: self.offsets,
                starts: self.starts,
            })
        } else {
            None
        }
    }
}
