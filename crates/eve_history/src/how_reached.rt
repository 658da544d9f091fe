//! How a number was reached.

/// How a replica reached a number, as its section tells it.
///
/// docs/MODEL.md, "Section state, fate". Eight bytes, since there is one for each number.
#[derive(Clone, Copy, Debug)]
pub enum HowReached {
    /// By this one of its attempts, which was committed.
    Attempt(u32),
    /// By this one of the states that were transferred to it.
    Transfer(u32),
    /// Not at all: a state of a later number was transferred to it.
    Skipped,
}
