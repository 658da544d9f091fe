//! What the arguments of the program's command line ask for. An internal crate of eve_tool.
#![tactic(auto)]

mod arguments;
mod format;
mod style;

pub use arguments::{Asked, Call, read_arguments};
pub use eve_grammar::WorkerCount;
pub use format::Format;
pub use style::Style;
