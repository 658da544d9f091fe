//! Sinks: what takes bytes, and counts how often it failed.

ghost use Rattle.std.specs.Prelude.{◌≡◌, ◌≤◌, ◌<◌, ℕ, Option, List, length, take, IfOk, OnOk, OnErr};
ghost use Rattle.std.specs.Io.KnownBytes.{Appends, Keeps};
ghost use Rattle.eve_streams.specs.Failures.{after_failure};
ghost use Rattle.eve_streams.specs.Prefix.{AppendsPrefix};

/// A sink failed, and counted it.
#[derive(Clone, Copy, Debug)]
pub struct SendFault;

/// What takes bytes.
pub trait Sink {
    // The bytes taken so far, where they are known.
    ghost written: { Self → Option (List ℕ) };

    // How many sends have failed, in 64 bits that wrap. At every count, a call that stops at its first failure differs
    // from one that met none.
    ghost failures: { Self → ℕ };

    /// Takes a prefix of `bytes`, at least one byte where there is one, and returns its length; or fails, takes nothing
    /// and counts one failure.
    fn send(&mut self, bytes: &[u8]) -> Result<usize, SendFault>
        ensures within { IfOk result (λ n. n ≤ length bytes.now) }
        ensures some { IfOk result (λ n. 0 < length bytes.now → 0 < n) }
        ensures takes { IfOk result
            (λ n. Appends (written self.old) (written self.new) (take n bytes.now)) }
        ensures nothing { OnErr result (Keeps (written self.old) (written self.new)) }
        ensures fine { OnOk result (failures self.new ≡ failures self.old) }
        ensures counted { OnErr result (failures self.new ≡ after_failure (failures self.old)) };
}

/// Sends all of `bytes`. After a fault a prefix of them has been taken, but not all of them; the sink failed once, in
/// this call.
pub fn send_all<S: Sink>(sink: &mut S, bytes: &[u8]) -> Result<(), SendFault>
    ensures sent { OnOk result (Appends (S.written sink.old) (S.written sink.new) bytes.now) }
    ensures prefix { OnErr result
        (AppendsPrefix (S.written sink.old) (S.written sink.new) bytes.now) }
    ensures fine { OnOk result (S.failures sink.new ≡ S.failures sink.old) }
    ensures counted { OnErr result (S.failures sink.new ≡ after_failure (S.failures sink.old)) }
{
    let (_, result) = send_prefix(sink, bytes);
    result
}

/// Sends until all is sent or the sink fails, and returns how many bytes were sent.
pub(crate) fn send_prefix<S: Sink>(sink: &mut S, bytes: &[u8]) -> (usize, Result<(), SendFault>)
    ensures within { result.0 ≤ length bytes.now }
    ensures all { OnOk result.1 (result.0 ≡ length bytes.now) }
    ensures prefix { OnErr result.1 (result.0 < length bytes.now) }
    ensures sent { Appends (S.written sink.old) (S.written sink.new) (take result.0 bytes.now) }
    ensures fine { OnOk result.1 (S.failures sink.new ≡ S.failures sink.old) }
    ensures counted { OnErr result.1 (S.failures sink.new ≡ after_failure (S.failures sink.old)) }
{
    let mut sent = 0;
    'rest: while sent < bytes.len() {
        match sink.send(&bytes[sent..]) {
            Ok(n) => sent += n,
            Err(fault) => return (sent, Err(fault)),
        }
    }
    (sent, Ok(()))
}
