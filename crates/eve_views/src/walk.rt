//! The walk over a trace, frame by frame.

ghost use Rattle.std.specs.Prelude.{◌≡◌, ◌≤◌, length, IfOk, IfErr, IfSome, IfNone, IsFalse};
ghost use Rattle.eve_grammar.specs.declared.head.Head.{Head as HeadValue};
ghost use Rattle.eve_grammar.specs.declared.place.Place.{Place as PlaceValue};
ghost use Rattle.eve_grammar.specs.Kinds.{kind_byte};
ghost use Rattle.eve_views.specs.Form.{is_framed, SaysHead, IfFound, StandsInForm, IsFaultOutside};
ghost use Rattle.eve_views.specs.Walk.{frame_at, IsPrefixOf};
ghost use Rattle.eve_views.specs.Indexes.{answer_in, kept, IsIndex};

use crate::body::accesses_behind;
use crate::fault::{CheckFault, Code, Fault};
use crate::reached::Reached;
use crate::starts::Starts;
use eve_grammar::{
    FRAME_HEAD_LEN, FrameKind, HEADER_LEN, Head, MOST_BYTES, MOST_CUSTOMERS, u8_at, u32_at,
};
use std::alloc::Global;

/// A whole frame at the beginning of bytes.
#[derive(Clone, Copy)]
pub struct Framed {
    /// The kind.
    pub kind: FrameKind,
    /// How many bytes it has.
    pub len: usize,
    /// How many access frames have to follow it.
    pub accesses: usize,
}

/// The kind and the body of the frame at the beginning of the bytes, where one of some kind lies there as a whole.
#[inline(always)]
pub fn kind_and_body(bytes: &[u8]) -> Option<(FrameKind, &[u8])>
    ensures some { IfSome result (λ f. IsPrefixOf bytes.now (kind_byte f.0) f.1.now) }
    ensures none { IfNone result ((h : HeadValue) (p : PlaceValue) → IsFalse (is_framed h p bytes.now)) }
{
    let (first, rest) = u8_at(bytes)?;
    let (len, rest) = u32_at(rest)?;
    let kind = FrameKind::of(first)?;
    let len = len as usize;
    if rest.len() < len {
        return None;
    }
    Some((kind, &rest[..len]))
}

/// The frame at the beginning of the bytes, or what is wrong there.
/// Decides F4 Frame and F5 Body.
#[tactic(auto, unfolding(crate::specs::Walk::frame_at))]
fn first_frame(at: &Reached, bytes: &[u8]) -> Result<Framed, Code>
    requires { at.now.head.customers ≤ MOST_CUSTOMERS }
    ensures { answer_in result ≡ kept bytes.now (frame_at at.now.head at.now.place bytes.now) }
{
    let Some((kind, body)) = kind_and_body(bytes) else {
        return Err(Code::Frame);
    };
    if !at.allows(kind) {
        return Err(Code::Frame);
    }
    match accesses_behind(at, kind, body) {
        Some(accesses) => Ok(Framed {
            kind,
            len: FRAME_HEAD_LEN + body.len(),
            accesses,
        }),
        None => Err(Code::Body),
    }
}

/// Where the frames of a trace begin, and which of them begin its parts.
#[derive(Drop)]
pub struct Index {
    /// The byte offset of each frame.
    pub offsets: Vec<u32>,
    /// The frames that begin parts.
    pub starts: Starts,
}

/// Finds the frames after a header, or the first fault among them.
pub fn index_of(alloc: Global, head: Head, bytes: &[u8]) -> Result<Index, CheckFault>
    requires says { SaysHead bytes.now head }
    requires header { HEADER_LEN ≤ length bytes.now }
    requires length { length bytes.now ≤ MOST_BYTES }
    ensures found { IfOk result (IsIndex head bytes.now) }
    ensures fault { IfErr result (λ e. IfFound e (IsFaultOutside StandsInForm bytes.now)) }
{
    let mut offsets = Vec::new(alloc);
    let mut starts = Starts::new();
    let mut reached = Reached::start(head);
    let mut at: usize = HEADER_LEN;
    'frames: while !reached.place.ended || at < bytes.len() {
        match first_frame(&reached, &bytes[at..]) {
            Err(code) => {
                return Err(CheckFault::Found(Fault {
                    code,
                    offset: at as u64,
                    replica: None,
                }));
            }
            Ok(frame) => {
                starts.note(&reached.place, frame.kind, offsets.len() as u32);
                offsets.push(at as u32)?;
                reached.pass(frame.kind, frame.accesses);
                at += frame.len;
            }
        }
    }
    Ok(Index { offsets, starts })
}
