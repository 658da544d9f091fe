//! How what is said is written.

/// How what is said is written. docs/USING.md has both.
#[derive(Clone, Copy)]
pub enum Style {
    /// In lines for people.
    Plain,
    /// As JSON, an object a line.
    Json,
}
