//! Streams that move one byte a call, to try code on the shortest sends and fetches.

ghost use Rattle.std.specs.Prelude.{◌≡◌};
ghost use Rattle.eve_streams.specs.Trials.{slowed_stream};

use crate::{FetchFault, SendFault, Sink, Source};

/// A sink or a source that takes or gives at most one byte a call, by the stream behind it.
#[derive(Drop)]
pub struct OneByte<S: Drop> {
    stream: S,
}

impl<S: Drop> OneByte<S> {
    /// Slows a stream down.
    pub fn new(stream: S) -> OneByte<S>
        ensures { slowed_stream result ≡ stream }
    {
        OneByte { stream }
    }

    /// The stream behind.
    pub fn stream(&self) -> &S
        ensures { result.now ≡ slowed_stream self.now }
    {
        &self.stream
    }
}

impl<S: Sink + Drop> Sink for OneByte<S> {
    ghost written = { λ s. S.written s.stream };

    ghost failures = { λ s. S.failures s.stream };

    fn send(&mut self, bytes: &[u8]) -> Result<usize, SendFault> {
        let most = bytes.len().min(1);
        self.stream.send(&bytes[..most])
    }
}

impl<S: Source + Drop> Source for OneByte<S> {
    ghost remaining = { λ s. S.remaining s.stream };

    ghost failures = { λ s. S.failures s.stream };

    fn fetch(&mut self, buffer: &mut [u8]) -> Result<usize, FetchFault> {
        let most = buffer.len().min(1);
        self.stream.fetch(&mut buffer[..most])
    }
}
