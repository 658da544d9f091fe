//! A replica's section, as it is judged.

use crate::grouped::Grouped;
use crate::note::Note;
use eve_accounts::Balances;
use eve_history::History;
use eve_views::Trace;

/// A replica's section: the trace that it stands in, and what it tells.
#[derive(Clone, Copy)]
pub struct Section<'s, 't, 'a> {
    /// The trace.
    pub trace: &'s Trace<'t>,
    /// What the section tells.
    pub history: &'s History<'a>,
}

/// The rows of a section, each of which can be walked by itself.
#[derive(Clone, Copy)]
pub struct SectionRows<'s, 't, 'a> {
    /// The section.
    pub section: Section<'s, 't, 'a>,
    /// What the rows have at first.
    pub opening: &'s Balances,
    /// The entries of its settled attempts, in parts, each of them in order by row.
    pub parts: &'s [Grouped<Note>],
}
