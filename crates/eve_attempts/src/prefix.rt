//! What an attempt says of itself.

/// What an attempt begins with.
///
/// docs/MODEL.md, "Section state, fate".
#[derive(Clone, Copy)]
pub struct AttemptHead {
    /// The batch's number, from 1.
    pub seq: u32,
    /// The view.
    pub view: u32,
    /// Whether one worker ran all requests in order of index.
    pub serial: bool,
}
