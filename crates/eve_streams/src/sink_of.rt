//! Sinks over the standard library's writers.

ghost use Rattle.std.specs.Prelude.{◌≡◌, ◌≤◌, ◌<◌, length, take, IfOk, OnOk, OnErr};
ghost use Rattle.std.specs.Io.KnownBytes.{Appends, Keeps};
ghost use Rattle.eve_streams.specs.Failures.{after_failure};
ghost use Rattle.eve_streams.specs.Writers.{writer_of, failed_sends};

use crate::{SendFault, Sink};
use std::io::{ErrorKind, Write};

/// A sink over a writer: its bytes are the writer's, and over a `Vec<u8>` it is a sink in memory.
/// A write that a signal interrupts is tried again; one that fails, or takes nothing where there
/// are bytes, is a failure.
#[derive(Drop)]
pub struct SinkOf<W: Drop> {
    writer: W,
    failures: u64,
}

/// How often one send tries a write that is interrupted.
const MOST_TRIES: u32 = 1 << 31;

impl<W: Write + Drop> SinkOf<W> {
    /// A sink that has not failed yet.
    pub fn new(writer: W) -> SinkOf<W>
        ensures writer { writer_of result ≡ writer }
        ensures fine { failed_sends result ≡ 0 }
    {
        SinkOf {
            writer,
            failures: 0,
        }
    }

    /// The writer behind the sink.
    pub fn writer(&self) -> &W
        ensures { result.now ≡ writer_of self.now }
    {
        &self.writer
    }

    /// Sends, or fails, as `send` does, and calls the writer `tries` times at most: that is how often a write that is
    /// interrupted is tried.
    pub fn send_within(&mut self, bytes: &[u8], tries: u32) -> Result<usize, SendFault>
        ensures within { IfOk result (λ n. n ≤ length bytes.now) }
        ensures some { IfOk result (λ n. 0 < length bytes.now → 0 < n) }
        ensures takes { IfOk result
            (λ n. Appends (W.contents (writer_of self.old)) (W.contents (writer_of self.new)) (take n bytes.now)) }
        ensures nothing { OnErr result (Keeps (W.contents (writer_of self.old)) (W.contents (writer_of self.new))) }
        ensures fine { OnOk result (failed_sends self.new ≡ failed_sends self.old) }
        ensures counted { OnErr result (failed_sends self.new ≡ after_failure (failed_sends self.old)) }
    {
        'tries: for _ in 0..tries {
            match self.writer.write(bytes) {
                Ok(0) if !bytes.is_empty() => break,
                Ok(n) => return Ok(n),
                Err(e) if e.kind() == ErrorKind::Interrupted => {}
                Err(_) => break,
            }
        }
        self.failures = self.failures.wrapping_add(1);
        Err(SendFault)
    }

    /// How many sends have failed, in 64 bits that wrap.
    pub fn failures(&self) -> u64
        ensures { result ≡ failed_sends self.now }
    {
        self.failures
    }
}

impl<W: Write + Drop> Sink for SinkOf<W> {
    ghost written = { λ s. W.contents s.writer };

    ghost failures = { λ s. s.failures };

    fn send(&mut self, bytes: &[u8]) -> Result<usize, SendFault> {
        self.send_within(bytes, MOST_TRIES)
    }
}
