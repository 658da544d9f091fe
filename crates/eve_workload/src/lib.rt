//! Workloads, and how the requests of a batch are cut into parallelBatches.
#![tactic(auto)]

mod cut;
mod deployment;
mod draft;
mod fault;
mod group_set;
mod groups;
pub mod laws;
mod line;
mod lookups;
mod marks;
mod mixer;
mod numbers;
mod request_ids;
mod requests;
mod seats;
mod words;
mod workload;

pub use deployment::Deployment;
pub use fault::WorkloadFault;
pub use lookups::look_up;
pub use mixer::{MixedBatch, Mixer, MixingTable, mix, mix_touched};
pub use workload::Workload;
