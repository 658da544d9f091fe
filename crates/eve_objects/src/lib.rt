//! Objects of JSON: what frames say, and the lines of `eve explain`, an object a line. An internal crate of eve_tool.
#![tactic(auto)]

mod access;
mod attempt;
mod batch;
mod evidence;
mod frame;
mod header;
pub mod laws;
mod line;
mod members;
mod operands;
mod rows;
mod short;
mod transfer;

pub use evidence::{LONGEST_NUMBER, put_line_object};
pub use frame::push_frame;
pub use header::push_header;
pub use line::{begin_line, end_line};
pub use members::{put_number, put_string};
