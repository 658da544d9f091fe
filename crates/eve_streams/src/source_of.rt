//! Sources over the standard library's readers.

ghost use Rattle.std.specs.Prelude.{◌≡◌, ◌≤◌, ◌<◌, length, take, IsErr, IfOk, OnOk, OnErr};
ghost use Rattle.std.specs.Io.KnownBytes.{Consumes, IsAtEnd, Keeps};
ghost use Rattle.eve_streams.specs.Failures.{after_failure};
ghost use Rattle.eve_streams.specs.Readers.{reader_of, reads_left_of, failed_fetches};
ghost use Rattle.eve_streams.specs.declared.source_of.TheConstants.{MOST_READS};

use crate::{FetchFault, Source};
use std::io::{ErrorKind, Read};

/// A source over a reader: what is left is what the reader has left, and over a `&[u8]` it is a
/// source in memory. A read that a signal interrupts is tried again. A reader that has been read
/// 2^31 times is read no more: each further fetch fails.
#[derive(Drop)]
pub struct SourceOf<R: Drop> {
    reader: R,
    reads_left: u32,
    failures: u64,
}

/// How often a reader is read.
const MOST_READS: u32 = 1 << 31;

impl<R: Read + Drop> SourceOf<R> {
    /// A source that has not failed yet.
    pub fn new(reader: R) -> SourceOf<R>
        ensures reader { reader_of result ≡ reader }
        ensures fine { failed_fetches result ≡ 0 }
        ensures reads { reads_left_of result ≡ MOST_READS }
    {
        SourceOf::within(reader, MOST_READS)
    }

    /// The same, of a reader that is read `reads` times at most.
    pub fn within(reader: R, reads: u32) -> SourceOf<R>
        ensures reader { reader_of result ≡ reader }
        ensures fine { failed_fetches result ≡ 0 }
        ensures reads { reads_left_of result ≡ reads }
    {
        SourceOf {
            reader,
            reads_left: reads,
            failures: 0,
        }
    }

    /// The reader behind the source.
    pub fn reader(&self) -> &R
        ensures { result.now ≡ reader_of self.now }
    {
        &self.reader
    }

    /// How many fetches have failed, in 64 bits that wrap.
    pub fn failures(&self) -> u64
        ensures { result ≡ failed_fetches self.now }
    {
        self.failures
    }
}

impl<R: Read + Drop> Source for SourceOf<R> {
    ghost remaining = { λ s. R.remaining s.reader };

    ghost failures = { λ s. s.failures };

    /// Has the clauses of every source, and fails once its reads are used up. Each fetch that succeeds takes one read
    /// or more.
    fn fetch(&mut self, buffer: &mut [u8]) -> Result<usize, FetchFault>
        ensures within { IfOk result (λ n. n ≤ length buffer.new) }
        ensures gives { IfOk result
            (λ n. Consumes (R.remaining (reader_of self.old)) (R.remaining (reader_of self.new)) (take n buffer.new)) }
        ensures end { IfOk result
            (λ n. n ≡ 0 → 0 < length buffer.new → IsAtEnd (R.remaining (reader_of self.new))) }
        ensures nothing { OnErr result (Keeps (R.remaining (reader_of self.old)) (R.remaining (reader_of self.new))) }
        ensures fine { OnOk result (failed_fetches self.new ≡ failed_fetches self.old) }
        ensures counted { OnErr result (failed_fetches self.new ≡ after_failure (failed_fetches self.old)) }
        ensures spent { reads_left_of self.old ≡ 0 → IsErr result }
        ensures spends { OnOk result (reads_left_of self.new < reads_left_of self.old) }
        ensures reads { reads_left_of self.new ≤ reads_left_of self.old }
    {
        'reads: while self.reads_left > 0 {
            self.reads_left -= 1;
            match self.reader.read(buffer) {
                Ok(n) => return Ok(n),
                Err(e) if e.kind() == ErrorKind::Interrupted => {}
                Err(_) => break,
            }
        }
        self.failures = self.failures.wrapping_add(1);
        Err(FetchFault)
    }
}
