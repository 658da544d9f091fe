//! What the test programs share: a text that keeps what failed while it was written, what of a case was looked at, and
//! numbers that are drawn.
#![tactic(auto)]

mod draws;
mod seen;
mod text;

pub use draws::Draws;
pub use seen::Seen;
pub use text::Text;
