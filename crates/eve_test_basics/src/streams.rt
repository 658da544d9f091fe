//! Sinks and sources that move a byte a call, or fail at one.

use crate::cases::{bytes_at, bytes_of, number_at, word_at, words_from};
use eve_streams::failing::FailsAt;
use eve_streams::one_byte::OneByte;
use eve_streams::{ReadFault, Sink, SinkOf, Source, SourceOf, read_all, send_all};
use eve_testing::Text;
use std::alloc::Global;

/// A sink in memory with room for `room` bytes. Where memory is refused for them, that is noted here, and isn't told as
/// a fault of the sink.
pub(crate) fn memory(alloc: Global, room: usize, said: &mut Text) -> SinkOf<Vec<u8>> {
    let mut bytes = Vec::new(alloc);
    said.stored(bytes.reserve(room));
    SinkOf::new(bytes)
}

/// All that is read of a source up to a limit. Tells that the source fails, where it does.
pub(crate) fn read_of<S: Source>(
    alloc: Global,
    source: &mut S,
    limit: u32,
    said: &mut Text,
) -> Option<Vec<u8>> {
    match read_all(alloc, source, limit) {
        Ok(bytes) => return Some(bytes),
        Err(ReadFault::Read) => said.words(" Read"),
        Err(ReadFault::Memory) => said.refused(),
    }
    None
}

/// Tells what a line about streams asks for; false where it asks for something else.
pub(crate) fn tell(alloc: Global, line: &str, what: &str, words: &[&str], said: &mut Text) -> bool {
    match what {
        "send" => tell_send(alloc, line.len(), words, said),
        "fetch" => tell_fetch(alloc, words, said),
        "read" => tell_read(alloc, words, said),
        _ => return false,
    }
    true
}

/// Sends each part to a sink with this room, one call of which fails.
fn tell_send(alloc: Global, room: usize, words: &[&str], said: &mut Text) {
    let call = number_at(words, 1, said);
    let mut sink = FailsAt::new(OneByte::new(memory(alloc, room, said)), call as u64);
    send_parts(alloc, &mut sink, words_from(words, 2), said);
    said.value(" ", sink.failures());
    let taken = sink.stream().stream().writer().as_slice();
    quote(" failed, taken ", taken, said);
}

/// Sends each part, and tells what that answers.
fn send_parts<S: Sink>(alloc: Global, sink: &mut S, parts: &[&str], said: &mut Text) {
    for part in parts {
        let bytes = bytes_of(alloc, part, said);
        said.answer(" ", send_all(sink, bytes.as_slice()));
        said.words(",");
    }
}

/// Reads a source of which one call fails.
fn tell_fetch(alloc: Global, words: &[&str], said: &mut Text) {
    let call = number_at(words, 1, said);
    let limit = number_at(words, 2, said);
    let bytes = bytes_at(alloc, words, 3, said);
    let source = OneByte::new(SourceOf::new(bytes.as_slice()));
    let mut source = FailsAt::new(source, call as u64);
    tell_bytes(alloc, &mut source, limit, said);
    tell_left(source.failures(), source.stream().stream().reader(), said);
}

/// Reads a source.
fn tell_read(alloc: Global, words: &[&str], said: &mut Text) {
    let limit = number_at(words, 1, said);
    let bytes = bytes_at(alloc, words, 2, said);
    let mut source = SourceOf::new(bytes.as_slice());
    tell_bytes(alloc, &mut source, limit, said);
    tell_left(source.failures(), source.reader(), said);
}

/// Reads a source up to a limit, and tells the bytes.
fn tell_bytes<S: Source>(alloc: Global, source: &mut S, limit: u32, said: &mut Text) {
    if let Some(bytes) = read_of(alloc, source, limit, said) {
        quote(" read ", bytes.as_slice(), said);
    }
}

/// Tells bytes as the characters that they are, in quotes, behind their words.
fn quote(words: &str, bytes: &[u8], said: &mut Text) {
    said.words(words);
    said.bytes("\"", bytes);
    said.words("\"");
}

/// Tells how often a source failed, and what is left of its bytes.
fn tell_left(failures: u64, left: &[u8], said: &mut Text) {
    said.value(", ", failures);
    quote(" failed, left ", left, said);
}
