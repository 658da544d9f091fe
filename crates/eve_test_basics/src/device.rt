//! Sinks and sources over a device that does what it is told.

ghost use Rattle.std.specs.Prelude.{IfOk, ◌≤◌};

use crate::cases::{bytes_at, last_at, number_at, number_of, word_at};
use crate::streams::read_of;
use eve_streams::{SinkOf, Source, SourceOf, send_all};
use eve_testing::Text;
use std::alloc::Global;
use std::io;
use std::io::{Error, ErrorKind, Read, Write};

/// A device that takes its turns, separated by commas, one a call, and then moves nothing.
#[derive(Drop)]
struct Device<'a> {
    turns: &'a str,
    moved: usize,
}

impl Device<'_> {
    fn next(&mut self, most: usize) -> io::Result<usize>
        ensures { IfOk result (λ n. n ≤ most) }
    {
        let (turn, rest) = self.turns.split_once(',').unwrap_or((self.turns, ""));
        self.turns = rest;
        match turn {
            "" => Ok(0),
            "again" => Err(Error::new(ErrorKind::Interrupted, "again")),
            number => match number.parse::<usize>() {
                Ok(n) => {
                    let n = n.min(most);
                    self.moved = self.moved.wrapping_add(n);
                    Ok(n)
                }
                Err(_) => Err(Error::other("broken")),
            },
        }
    }
}

impl Write for Device<'_> {
    fn write(&mut self, bytes: &[u8]) -> io::Result<usize> {
        self.next(bytes.len())
    }

    fn flush(&mut self) -> io::Result<()> {
        Ok(())
    }
}

impl Read for Device<'_> {
    fn read(&mut self, buffer: &mut [u8]) -> io::Result<usize> {
        self.next(buffer.len())
    }
}

/// Tells what a line about a device asks for; false where it asks for something else.
pub(crate) fn tell(alloc: Global, what: &str, words: &[&str], said: &mut Text) -> bool {
    match what {
        "write-to" => tell_write(alloc, words, said),
        "tries" => tell_tries(alloc, words, said),
        "read-from" => tell_read(alloc, words, said),
        "reads" => tell_reads(alloc, words, said),
        _ => return false,
    }
    true
}

/// Tells how often a stream failed, and how many bytes its device moved.
fn tell_moved(failures: u64, moved: usize, said: &mut Text) {
    said.value(", ", failures);
    said.value(" failed, ", moved);
    said.words(" moved");
}

/// Sends bytes to a device.
fn tell_write(alloc: Global, words: &[&str], said: &mut Text) {
    let mut sink = SinkOf::new(Device {
        turns: word_at(words, 1, said),
        moved: 0,
    });
    let bytes = bytes_at(alloc, words, 2, said);
    said.answer(" ", send_all(&mut sink, bytes.as_slice()));
    tell_moved(sink.failures(), sink.writer().moved, said);
}

/// Sends bytes once to a device, which is called at most the given number of times.
fn tell_tries(alloc: Global, words: &[&str], said: &mut Text) {
    let mut sink = SinkOf::new(Device {
        turns: word_at(words, 2, said),
        moved: 0,
    });
    let count = number_at(words, 1, said);
    let bytes = bytes_at(alloc, words, 3, said);
    said.answer(" ", sink.send_within(bytes.as_slice(), count));
    tell_moved(sink.failures(), sink.writer().moved, said);
}

/// Reads a device to its end, or to a limit.
fn tell_read(alloc: Global, words: &[&str], said: &mut Text) {
    let source = SourceOf::new(Device {
        turns: word_at(words, 1, said),
        moved: 0,
    });
    let limit = number_of(last_at(words, 2, said), said);
    tell_source(alloc, source, limit, said);
}

/// The same, calling it at most the given number of times.
fn tell_reads(alloc: Global, words: &[&str], said: &mut Text) {
    let count = number_at(words, 1, said);
    let source = SourceOf::within(
        Device {
            turns: word_at(words, 2, said),
            moved: 0,
        },
        count,
    );
    let limit = number_of(last_at(words, 3, said), said);
    tell_source(alloc, source, limit, said);
}

/// Reads a source, tells how many bytes that gave, and fetches once more.
fn tell_source(alloc: Global, mut source: SourceOf<Device<'_>>, limit: u32, said: &mut Text) {
    if let Some(bytes) = read_of(alloc, &mut source, limit, said) {
        said.value(" ", bytes.len());
        said.words(" bytes");
    }
    tell_moved(source.failures(), source.reader().moved, said);
    said.answer("; ", source.fetch(&mut [0; 1]));
}
