//! An attempt as a trace has it.

use eve_frames::AttemptView;
use eve_views::Accesses;

/// An attempt as a trace has it: its frame, and those of its accesses.
#[derive(Clone, Copy)]
pub struct Framed<'f, 't, 'a> {
    pub attempt: &'f AttemptView<'a>,
    pub accesses: &'f Accesses<'t, 'a>,
}
