//! The header.

ghost use Rattle.eve_grammar.specs.Spelling.{head_text};
ghost use Rattle.eve_write.specs.Writes.{Writes};

use crate::fields::byte;
use crate::spell::send_texts;
use eve_grammar::Head;
use eve_streams::{SendFault, Sink};

/// Writes the header of a trace of this many bytes, the header's own 32 included.
///
/// docs/TRACE.md, "Header". After a fault a prefix of the header has been taken, and not all of it.
#[tactic(auto, unfolding(eve_grammar::specs::Spelling::head_text))]
pub fn write_header<W: Sink>(out: &mut W, head: &Head, total: u64) -> Result<(), SendFault>
    ensures { Writes W.written W.failures out.old out.new result (head_text head.now total) }
{
    let version = head.version.to_be_bytes();
    let replicas = byte(head.replicas);
    let verifiers = byte(head.verifiers);
    let quorum = byte(head.quorum);
    let window = byte(head.window);
    let workers = byte(head.workers);
    let customers = head.customers.to_be_bytes();
    let batches = head.batches.to_be_bytes();
    let total = total.to_be_bytes();
    send_texts(
        out,
        &[
            b"EVESBK",
            &version,
            &replicas,
            &verifiers,
            &quorum,
            &window,
            &workers,
            &[0, 0, 0],
            &customers,
            &batches,
            &total,
        ],
    )
}
