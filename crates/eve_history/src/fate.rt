//! What became of an attempt.

/// What became of an attempt in its replica's section.
///
/// docs/MODEL.md, "Section state, fate".
#[derive(Clone, Copy, Debug)]
pub enum Fate {
    /// Its commit came, and no rollback before it.
    Committed,
    /// A rollback came first.
    Discarded,
    /// Neither came.
    Open,
}
