//! Where bytes go and where they come from: sinks and sources whose bytes contracts can name.
#![tactic(auto)]

mod buffered;
pub mod failing;
pub mod laws;
pub mod one_byte;
mod reading;
mod sink;
mod sink_of;
mod source;
mod source_of;

pub use buffered::Buffered;
pub use reading::{ReadFault, read_all};
pub use sink::{SendFault, Sink, send_all};
pub use sink_of::SinkOf;
pub use source::{FetchFault, Source};
pub use source_of::SourceOf;
