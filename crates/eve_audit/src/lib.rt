//! The verdict on the bytes of a trace.
#![tactic(auto)]

mod auditing;
mod findings;
pub mod laws;
mod named;
mod replicas;
mod verdict;

pub use auditing::{audit, audit_one, audit_whole};
pub use verdict::{AcceptedTrace, AuditFault, Summary, Verdict, WholeVerdict};
