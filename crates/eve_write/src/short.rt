//! What is spelled in few bytes: many are gathered in an array on the stack, and sent at once.

ghost use Rattle.std.specs.Prelude.{◌+◌, ◌≤◌, ℕ, List, Bool, IsTrue};
ghost use Rattle.std.specs.List.{flat_map, list_all};
ghost use Rattle.arrayvec.specs.ArrayVec.{array_vec_len};
ghost use Rattle.eve_write.specs.Writes.{Puts, Writes};

use crate::pieces::send;
use arrayvec::ArrayVec;
use eve_streams::{SendFault, Sink};

/// How many bytes a short text has at most: those of an Access frame.
pub(crate) const LONGEST_SHORT: usize = 11 + 3 * 29;

/// How many bytes are gathered at most.
pub(crate) const MOST_GATHERED: usize = 2000;

/// What has a spelling of at most `LONGEST_SHORT` bytes.
pub(crate) trait Short {
    // The bytes of a value.
    ghost text: { Self → List ℕ };

    // Whether `put` may be called of the value: lengths fit their fields, numbers lie in their ranges.
    ghost fits: { Self → Bool };

    /// Appends the bytes.
    fn put(&self, texts: &mut ArrayVec<u8, MOST_GATHERED>)
        requires fits { IsTrue (fits self.now) }
        requires room { array_vec_len texts.old + LONGEST_SHORT ≤ MOST_GATHERED }
        ensures { Puts texts.old.items texts.new.items (text self.now) };
}

/// Writes one short item after the other.
pub(crate) fn write_short<W: Sink, T: Short>(out: &mut W, items: &[T]) -> Result<(), SendFault>
    requires { IsTrue (list_all T.fits items.now) }
    ensures { Writes W.written W.failures out.old out.new result (flat_map T.text items.now) }
{
    let mut texts = ArrayVec::<u8, MOST_GATHERED>::new();
    for item in items {
        if texts.len() > MOST_GATHERED - LONGEST_SHORT {
            send(out, texts.as_slice())?;
            texts.clear();
        }
        item.put(&mut texts);
    }
    send(out, texts.as_slice())
}
