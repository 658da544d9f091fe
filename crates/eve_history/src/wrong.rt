//! What is wrong with a frame.

use eve_views::Code;

/// What is wrong with a frame, and where it stands.
#[derive(Clone, Copy)]
pub struct Wrong {
    /// What is wrong.
    pub code: Code,
    /// The byte of the trace at which the frame begins.
    pub offset: u64,
}
