//! Frames that begin a replica's section or a verifier's votes, and the last frame.

ghost use Rattle.eve_grammar.specs.Frames.{OfReplica, OfVerifier, End};
ghost use Rattle.eve_grammar.specs.Spelling.{frame_text};
ghost use Rattle.eve_write.specs.Writes.{Writes};

use crate::fields::byte;
use crate::spell::send_texts;
use eve_grammar::{END_FRAME, REPLICA_FRAME, VERIFIER_FRAME};
use eve_streams::{SendFault, Sink};

/// Writes a Replica frame.
///
/// docs/TRACE.md, "Frames". After a fault a prefix of the frame has been taken, and not all of it.
pub fn write_replica<W: Sink>(out: &mut W, number: u8) -> Result<(), SendFault>
    ensures { Writes W.written W.failures out.old out.new result (frame_text (OfReplica number)) }
{
    send_texts(out, &[&[REPLICA_FRAME, 0, 0, 0, 1], &byte(number)])
}

/// Writes a Verifier frame.
///
/// docs/TRACE.md, "Frames". After a fault a prefix of the frame has been taken, and not all of it.
pub fn write_verifier<W: Sink>(out: &mut W, number: u8) -> Result<(), SendFault>
    ensures { Writes W.written W.failures out.old out.new result (frame_text (OfVerifier number)) }
{
    send_texts(out, &[&[VERIFIER_FRAME, 0, 0, 0, 1], &byte(number)])
}

/// Writes the End frame.
///
/// docs/TRACE.md, "Frames". After a fault a prefix of the frame has been taken, and not all of it.
pub fn write_end<W: Sink>(out: &mut W) -> Result<(), SendFault>
    ensures { Writes W.written W.failures out.old out.new result (frame_text End) }
{
    send_texts(out, &[&[END_FRAME, 0, 0, 0, 0]])
}
