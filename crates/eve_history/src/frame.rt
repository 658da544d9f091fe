//! Frames by the bytes at which they begin.

ghost use Rattle.std.specs.Prelude.{◌≡◌};
ghost use Rattle.eve_history.specs.FrameOffsets.{IsFramed, IsAttemptAt, IsAccessAt, IsRollbackAt, IsTransferAt};
ghost use Rattle.eve_history.specs.FrameOffsets.{frame_in};

use byteorder::{BigEndian, ByteOrder};
use eve_frames::{AccessView, AttemptView, RollbackView, TransferView};

/// The frame that begins at this byte: its kind, the length of its body, and the body.
fn frame_at(bytes: &[u8], at: u32) -> &[u8]
    requires { IsFramed bytes.now at }
    ensures { result.now ≡ frame_in bytes.now at }
{
    let behind = &bytes[at as usize..];
    let len = BigEndian::read_u32(&behind[1..]) as usize;
    &behind[..5 + len]
}

/// The attempt whose frame begins at this byte.
pub fn attempt_at(bytes: &[u8], at: u32) -> AttemptView<'_>
    requires { IsAttemptAt bytes.now at }
    ensures offset { result.offset ≡ at }
    ensures bytes { result.bytes.now ≡ frame_in bytes.now at }
{
    AttemptView::new(at as u64, frame_at(bytes, at))
}

/// The access record whose frame begins at this byte.
pub fn access_at(bytes: &[u8], at: u32) -> AccessView<'_>
    requires { IsAccessAt bytes.now at }
    ensures offset { result.offset ≡ at }
    ensures bytes { result.bytes.now ≡ frame_in bytes.now at }
{
    AccessView::new(at as u64, frame_at(bytes, at))
}

/// The rollback whose frame begins at this byte.
pub fn rollback_at(bytes: &[u8], at: u32) -> RollbackView<'_>
    requires { IsRollbackAt bytes.now at }
    ensures offset { result.offset ≡ at }
    ensures bytes { result.bytes.now ≡ frame_in bytes.now at }
{
    RollbackView::new(at as u64, frame_at(bytes, at))
}

/// The state transferred whose frame begins at this byte.
pub fn transfer_at(bytes: &[u8], at: u32) -> TransferView<'_>
    requires { IsTransferAt bytes.now at }
    ensures offset { result.offset ≡ at }
    ensures bytes { result.bytes.now ≡ frame_in bytes.now at }
{
    TransferView::new(at as u64, frame_at(bytes, at))
}
