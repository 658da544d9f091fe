//! The lines that say why a verdict is so: the evidence of a no, and the counts of a yes, as text in a fixed array and
//! without memory.
#![tactic(auto)]

mod attempts;
mod counts;
mod form;
mod kinds;
mod lines;
mod orders;
mod outcomes;
mod polls;
mod reasons;
mod records;
mod rows;
mod shared;
mod structure;
mod word;

pub use counts::count_line;
pub use lines::MOST_LINES;
pub use reasons::reason_line;
