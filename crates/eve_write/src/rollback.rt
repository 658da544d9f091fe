//! Rollbacks and their frames.

ghost use Rattle.std.specs.Prelude.{◌≡◌, ◌≤◌, ◌∷◌, ◌++◌, length};
ghost use Rattle.byteorder.specs.Endian.{big_bytes};
ghost use Rattle.eve_grammar.specs.Frames.{OfRollback};
ghost use Rattle.eve_grammar.specs.Spelling.{body_text, frame_text};
ghost use Rattle.eve_grammar.specs.Limits.{row_count, is_rising, is_rollback};
ghost use Rattle.eve_write.specs.Data.{rollback as plain};
ghost use Rattle.eve_write.specs.Writes.{Writes};

use crate::right::all_right;
use crate::short::write_short;
use crate::spell::send_texts;
use eve_grammar::{Head, MOST_ROWS, ROLLBACK_FRAME, Restore};
use eve_streams::{SendFault, Sink};

/// The replica goes back to a committed number and on in the next view. Contracts see it by `rollback`.
#[derive(Drop)]
pub struct RollbackData {
    /// The number that it goes back to.
    pub to: u32,
    /// The next view.
    pub view: u32,
    /// What the rows go back to, by rising row.
    pub restores: Vec<Restore>,
}

impl RollbackData {
    /// How long the body of its frame is.
    pub(crate) fn body_len(&self) -> u32
        requires { length self.now.restores.items ≤ MOST_ROWS }
        ensures { result ≡ length (body_text (OfRollback (plain self.now))) }
    {
        12 + 20 * self.restores.len() as u32
    }

    /// Writes what stands before the restores.
    fn write_prefix<W: Sink>(&self, out: &mut W) -> Result<(), SendFault>
        requires { length self.now.restores.items ≤ MOST_ROWS }
        ensures { Writes W.written W.failures out.old out.new result
            (ROLLBACK_FRAME ∷ (big_bytes 4 (length (body_text (OfRollback (plain self.now))))
            ++ (big_bytes 4 self.now.to ++ (big_bytes 4 self.now.view
            ++ big_bytes 4 (length (plain self.now).restores))))) }
    {
        let body_len = self.body_len().to_be_bytes();
        let to = self.to.to_be_bytes();
        let view = self.view.to_be_bytes();
        let count = (self.restores.len() as u32).to_be_bytes();
        send_texts(out, &[&[ROLLBACK_FRAME], &body_len, &to, &view, &count])
    }
}

/// Writes a Rollback frame with at most one restore for each row that there can be.
///
/// docs/TRACE.md, "Frames". After a fault a prefix of the frame has been taken, and not all of it.
pub fn write_rollback<W: Sink>(out: &mut W, rollback: &RollbackData) -> Result<(), SendFault>
    requires { length rollback.now.restores.items ≤ MOST_ROWS }
    ensures { Writes W.written W.failures out.old out.new result (frame_text (OfRollback (plain rollback.now))) }
{
    rollback.write_prefix(out)?;
    write_short(out, rollback.restores.as_slice())
}

/// Whether each row is below the rows after it.
fn is_rising(restores: &[Restore]) -> bool
    ensures { result ≡ is_rising restores.now }
{
    let mut least = 0;
    for restore in restores {
        let row = restore.row.number();
        if row < least {
            return false;
        }
        least = row + 1;
    }
    true
}

impl RollbackData {
    /// Whether it lies within the limits.
    pub(crate) fn is_right(&self, head: &Head) -> bool
        ensures { result ≡ is_rollback (row_count head.now) (plain self.now) }
    {
        let _to = self.to;
        let _view = self.view;
        let restores = self.restores.as_slice();
        is_rising(restores) && all_right(restores, head)
    }
}
