//! SmallBank: five transactions on a bank, what each reads and writes row by row, and the laws of
//! executed requests.
#![tactic(auto)]

mod apply_request;
mod decision;
mod entry;
mod few;
mod fit;
pub mod laws;
mod limits;
mod request;
mod rows;
mod spelling;
mod touch;
mod versioned;

pub use apply_request::apply;
pub use decision::{Decision, Effect, decide};
pub use entry::{Entry, Kind};
pub use few::UpToThree;
pub use fit::fits;
pub use limits::PENALTY;
pub use request::{Abort, Reply, Request};
pub use rows::Touched;
pub use spelling::reply_bytes;
pub use touch::touched;
pub use versioned::Versioned;
