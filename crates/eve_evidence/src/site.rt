//! An attempt at which a fault is looked for.

use crate::course::Course;
use eve_frames::AttemptView;
use eve_views::{Accesses, Trace};

/// An attempt of a replica's section, and where the section has come to in front of it.
#[derive(Clone, Copy)]
pub struct Site<'s, 't, 'a> {
    /// The trace.
    pub trace: &'s Trace<'a>,
    /// Where the section has come to.
    pub course: &'s Course<'t, 'a>,
    /// The attempt's own frame.
    pub attempt: &'s AttemptView<'a>,
    /// The frames behind it.
    pub accesses: &'s Accesses<'t, 'a>,
}
