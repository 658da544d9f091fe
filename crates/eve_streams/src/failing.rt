//! Streams that fail at one call, to see that no fault is passed over.

ghost use Rattle.std.specs.Bool.{OnFalse, OnTrue};
ghost use Rattle.std.specs.Prelude.{◌≡◌, ◌-◌, ◌↔◌, IsTrue};
ghost use Rattle.eve_streams.specs.Failures.{after_failure};
ghost use Rattle.eve_streams.specs.Trials.{failing_stream, calls_left, failed_calls};

use crate::{FetchFault, SendFault, Sink, Source};

/// A sink or a source that does what the stream behind it does, but for one call, which fails
/// before it reaches that stream. A failure of the stream behind it counts too.
#[derive(Drop)]
pub struct FailsAt<S: Drop> {
    stream: S,
    calls_left: u64,
    failures: u64,
}

impl<S: Drop> FailsAt<S> {
    /// Lets call number `call` fail, counted from 1; where that is 0, none.
    pub fn new(stream: S, call: u64) -> FailsAt<S>
        ensures stream { failing_stream result ≡ stream }
        ensures call { calls_left result ≡ call }
        ensures fine { failed_calls result ≡ 0 }
    {
        FailsAt {
            stream,
            calls_left: call,
            failures: 0,
        }
    }

    /// The stream behind.
    pub fn stream(&self) -> &S
        ensures { result.now ≡ failing_stream self.now }
    {
        &self.stream
    }

    /// How many calls have failed, in 64 bits that wrap.
    pub fn failures(&self) -> u64
        ensures { result ≡ failed_calls self.now }
    {
        self.failures
    }

    /// Counts a call, and a failure where this is the call that fails.
    fn is_due(&mut self) -> bool
        ensures due { IsTrue result ↔ (calls_left self.old ≡ 1) }
        ensures calls { calls_left self.new ≡ calls_left self.old - 1 }
        ensures stream { failing_stream self.new ≡ failing_stream self.old }
        ensures counted { OnTrue result (failed_calls self.new
            ≡ after_failure (failed_calls self.old)) }
        ensures fine { OnFalse result (failed_calls self.new ≡ failed_calls self.old) }
    {
        let is_due = self.calls_left == 1;
        self.calls_left = self.calls_left.saturating_sub(1);
        if is_due {
            self.count_failure();
        }
        is_due
    }

    fn count_failure(&mut self)
        ensures calls { calls_left self.new ≡ calls_left self.old }
        ensures stream { failing_stream self.new ≡ failing_stream self.old }
        ensures counted { failed_calls self.new ≡ after_failure (failed_calls self.old) }
    {
        self.failures = self.failures.wrapping_add(1);
    }
}

impl<S: Sink + Drop> Sink for FailsAt<S> {
    ghost written = { λ s. S.written s.stream };

    ghost failures = { λ s. s.failures };

    fn send(&mut self, bytes: &[u8]) -> Result<usize, SendFault> {
        if self.is_due() {
            return Err(SendFault);
        }
        let result = self.stream.send(bytes);
        if result.is_err() {
            self.count_failure();
        }
        result
    }
}

impl<S: Source + Drop> Source for FailsAt<S> {
    ghost remaining = { λ s. S.remaining s.stream };

    ghost failures = { λ s. s.failures };

    fn fetch(&mut self, buffer: &mut [u8]) -> Result<usize, FetchFault> {
        if self.is_due() {
            return Err(FetchFault);
        }
        let result = self.stream.fetch(buffer);
        if result.is_err() {
            self.count_failure();
        }
        result
    }
}
