//! Many small parts that are sent through a buffer.

use crate::cases::{last_at, number_of};
use crate::streams::memory;
use eve_streams::failing::FailsAt;
use eve_streams::{Buffered, SendFault, SinkOf, send_all};
use eve_testing::Text;
use std::alloc::Global;

/// A buffer before a sink in memory, of which one call fails.
type Tried = Buffered<FailsAt<SinkOf<Vec<u8>>>>;

/// Tells what comes of 100,000 numbers where a call fails; false where the line asks for something else.
pub(crate) fn tell(alloc: Global, what: &str, words: &[&str], said: &mut Text) -> bool {
    if what != "buffer" {
        return false;
    }
    let call = number_of(last_at(words, 1, said), said);
    let bytes = numbers(alloc, said);
    let sink = FailsAt::new(memory(alloc, bytes.len(), said), call as u64);
    match Buffered::new(alloc, sink) {
        Ok(out) => tell_sent(out, bytes.as_slice(), said),
        Err(_) => said.refused(),
    }
    true
}

/// 100,000 numbers of four bytes.
fn numbers(alloc: Global, said: &mut Text) -> Vec<u8> {
    let mut bytes = Vec::new(alloc);
    for n in 0..100_000u32 {
        said.stored(bytes.extend_from_slice(&n.to_be_bytes()));
    }
    bytes
}

/// Sends the bytes in parts, then what is left of them, and flushes twice.
fn tell_sent(mut out: Tried, bytes: &[u8], said: &mut Text) {
    said.answer(" ", send_parts(&mut out, bytes));
    let rest = tell_state(&out, bytes, said);
    said.answer("; the rest ", send_all(&mut out, rest));
    said.answer(", ", out.flush());
    said.answer(", ", out.flush());
    tell_state(&out, bytes, said);
}

/// Sends bytes in parts of 40 until one fails.
fn send_parts(out: &mut Tried, bytes: &[u8]) -> Result<(), SendFault> {
    for part in bytes.chunks_exact(40) {
        let sent = send_all(out, part);
        if sent.is_err() {
            return sent;
        }
    }
    Ok(())
}

/// Tells what was sent on and what is held, whether both are in order, and how often the sink failed. Gives the bytes
/// that come after, if they are in order.
fn tell_state<'b>(out: &Tried, bytes: &'b [u8], said: &mut Text) -> &'b [u8] {
    let sent = out.sink().stream().writer().as_slice();
    let held = out.held();
    said.value(", ", sent.len());
    said.value(" sent, ", held.len());
    let rest = behind(bytes, sent, held);
    said.value(" held, in order ", rest.is_some());
    said.value(", ", out.sink().failures());
    said.words(" failed");
    rest.unwrap_or(&[])
}

/// The bytes behind those that were sent and those that are held, if all bytes are in order.
fn behind<'b>(bytes: &'b [u8], sent: &[u8], held: &[u8]) -> Option<&'b [u8]> {
    match bytes.strip_prefix(sent) {
        Some(rest) => rest.strip_prefix(held),
        None => None,
    }
}
