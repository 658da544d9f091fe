//! The program `eve` as a library: its command line, its lines, and `serve`, which is all of it.
#![tactic(auto)]

mod audit;
mod explain;
mod fault;
mod files;
mod lines;
mod listing;
mod objects;
mod program;
mod random;
mod run;
mod show;

pub use eve_tool_arguments;
pub use fault::ToolFault;
pub use files::{Folder, OpenFault, serve_files};
pub use program::{serve, stop};
pub use run::run_within;
