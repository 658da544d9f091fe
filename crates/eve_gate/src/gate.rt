//! Where a thread may be held before a piece of work.

use std::sync::Wait;

/// What a thread enters before each piece of its work. Tests hold threads here until others have come; nothing is
/// promised of what a gate does, and what is promised of the work holds whatever it does, if it returns.
pub trait Gate: Sync {
    /// Called with the number of the piece, before it is begun. It may wait.
    fn enter<R: Wait>(&self, rt: &R, piece: u32);
}

/// Lets everyone through.
#[derive(Clone, Copy)]
pub struct OpenGate;

impl Gate for OpenGate {
    fn enter<R: Wait>(&self, _rt: &R, _piece: u32) {}
}
