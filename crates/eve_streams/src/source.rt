//! Sources: what gives bytes, and counts how often it failed.

ghost use Rattle.std.specs.Prelude.{◌≡◌, ◌≤◌, ◌<◌, ℕ, Option, List, length, take, IfOk, OnOk, OnErr};
ghost use Rattle.std.specs.Io.KnownBytes.{Consumes, IsAtEnd, Keeps};
ghost use Rattle.eve_streams.specs.Failures.{after_failure};

/// A source failed, and counted it.
#[derive(Clone, Copy, Debug)]
pub struct FetchFault;

/// What gives bytes.
pub trait Source {
    // The bytes that are left, where they are known.
    ghost remaining: { Self → Option (List ℕ) };

    // How many fetches have failed, in 64 bits that wrap.
    ghost failures: { Self → ℕ };

    /// Puts the next bytes at the start of `buffer` and returns how many; 0 is the end, where the buffer has room. Or
    /// fails, gives nothing and counts one failure.
    fn fetch(&mut self, buffer: &mut [u8]) -> Result<usize, FetchFault>
        ensures within { IfOk result (λ n. n ≤ length buffer.new) }
        ensures gives { IfOk result
            (λ n. Consumes (remaining self.old) (remaining self.new) (take n buffer.new)) }
        ensures end { IfOk result
            (λ n. n ≡ 0 → 0 < length buffer.new → IsAtEnd (remaining self.new)) }
        ensures nothing { OnErr result (Keeps (remaining self.old) (remaining self.new)) }
        ensures fine { OnOk result (failures self.new ≡ failures self.old) }
        ensures counted { OnErr result (failures self.new ≡ after_failure (failures self.old)) };
}
