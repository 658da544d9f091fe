//! Where the live replicas of a run stand.

use eve_grammar::MOST_BATCHES;

/// Views of a run: two for each batch.
pub(crate) const MOST_VIEWS: u32 = 2 * MOST_BATCHES;

/// What all live replicas of a run have in common: their view, the last batch that they reached, and of how many
/// batches of the window they await the decision, with an attempt or without one.
#[derive(Clone, Copy)]
pub(crate) struct Standing {
    pub view: u32,
    pub committed: u32,
    pub opened: u32,
}
