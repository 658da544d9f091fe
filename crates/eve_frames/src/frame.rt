//! A frame of any kind.

ghost use Rattle.std.specs.Prelude.{◌≡◌, ◌-◌, ◌≤◌, length, slice_index};
ghost use Rattle.eve_grammar.specs.Kinds.{kind_byte};
ghost use Rattle.eve_grammar.specs.declared.frame_kind.TheConstants.{FRAME_HEAD_LEN};
ghost use Rattle.eve_frames.specs.Kinds.{kind_name};

use eve_grammar::{FRAME_HEAD_LEN, FrameKind};

/// A frame of any kind, where it stands.
#[derive(Clone, Copy)]
pub struct FrameView<'a> {
    /// The byte of the trace at which it begins.
    pub offset: u64,
    /// Its kind, the length of its body, and the body, as they stand.
    pub bytes: &'a [u8],
    pub ghost whole: { FRAME_HEAD_LEN ≤ length bytes.now },
}

impl<'a> FrameView<'a> {
    /// The byte of the trace at which it begins.
    pub fn offset(&self) -> u64
        ensures { result ≡ self.now.offset }
    {
        self.offset
    }

    /// The whole frame, and no more.
    pub fn bytes(&self) -> &'a [u8]
        ensures { result.now ≡ self.now.bytes.now }
    {
        let bytes = self.bytes;
        bytes
    }

    /// The name of its kind: End also of a byte that no kind has, with which no frame of a trace begins.
    ///
    /// docs/TRACE.md, "Frames".
    pub fn kind_name(&self) -> &'static str
        ensures { result.now ≡ kind_name (slice_index self.now.bytes.now 0) }
    {
        match FrameKind::of(self.bytes[0]) {
            Some(kind) => name_of(kind),
            None => "End",
        }
    }

    /// How many bytes its body has.
    pub fn body_len(&self) -> usize
        ensures { result ≡ length self.now.bytes.now - FRAME_HEAD_LEN }
    {
        self.bytes.len() - FRAME_HEAD_LEN
    }
}

fn name_of(kind: FrameKind) -> &'static str
    ensures { result.now ≡ kind_name (kind_byte kind) }
{
    match kind {
        FrameKind::Customer => "Customer",
        FrameKind::Batch => "Batch",
        FrameKind::Replica => "Replica",
        FrameKind::Attempt => "Attempt",
        FrameKind::Access => "Access",
        FrameKind::Commit => "Commit",
        FrameKind::Rollback => "Rollback",
        FrameKind::Transfer => "Transfer",
        FrameKind::Verifier => "Verifier",
        FrameKind::Vote => "Vote",
        FrameKind::Sent => "Sent",
        FrameKind::End => "End",
    }
}
