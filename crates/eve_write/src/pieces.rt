//! Frames spelled piece by piece in an array on the stack, and sent at once.

ghost use Rattle.std.specs.Prelude.{◌≡◌, ◌+◌, ◌≤◌, length};
ghost use Rattle.arrayvec.specs.ArrayVec.{array_vec_len};
ghost use Rattle.eve_write.specs.Writes.{Puts, Writes};

use arrayvec::ArrayVec;
use eve_streams::{SendFault, Sink, send_all};

/// Appends bytes to a frame that has room for them.
pub(crate) fn put<const N: usize>(frame: &mut ArrayVec<u8, N>, bytes: &[u8])
    requires { array_vec_len frame.old + length bytes.now ≤ N }
    ensures puts { Puts frame.old.items frame.new.items bytes.now }
    ensures len { array_vec_len frame.new ≡ array_vec_len frame.old + length bytes.now }
{
    let Ok(()) = frame.try_extend_from_slice(bytes) else {
        unreachable!()
    };
}

/// Sends a frame that was spelled.
pub(crate) fn send<W: Sink>(out: &mut W, frame: &[u8]) -> Result<(), SendFault>
    ensures { Writes W.written W.failures out.old out.new result frame.now }
{
    send_all(out, frame)
}
