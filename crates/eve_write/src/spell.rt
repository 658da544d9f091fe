//! What is spelled in bytes, alone and one after the other.

ghost use Rattle.std.specs.Prelude.{ℕ, List, Bool, IsTrue};
ghost use Rattle.std.specs.List.{flat_map, list_all};
ghost use Rattle.eve_write.specs.Writes.{Writes, joined};

use eve_streams::{SendFault, Sink, send_all};

/// What has a spelling.
pub(crate) trait Spell {
    // The bytes of a value.
    ghost text: { Self → List ℕ };

    // Whether `write` may be called of the value: lengths fit their fields, numbers lie in their ranges, a vote for
    // a rollback has zeros.
    ghost fits: { Self → Bool };

    /// Writes the bytes.
    fn write<W: Sink>(&self, out: &mut W) -> Result<(), SendFault>
        requires { IsTrue (fits self.now) }
        ensures { Writes W.written W.failures out.old out.new result (text self.now) };
}

/// Sends texts one after the other.
pub(crate) fn send_texts<W: Sink>(out: &mut W, texts: &[&[u8]]) -> Result<(), SendFault>
    ensures { Writes W.written W.failures out.old out.new result (joined texts.now) }
{
    for text in texts {
        send_all(out, text)?;
    }
    Ok(())
}

/// Writes one item after the other.
pub(crate) fn write_each<W: Sink, T: Spell>(out: &mut W, items: &[T]) -> Result<(), SendFault>
    requires { IsTrue (list_all T.fits items.now) }
    ensures { Writes W.written W.failures out.old out.new result (flat_map T.text items.now) }
{
    for item in items {
        item.write(out)?;
    }
    Ok(())
}
