//! What a run of a deployment wrote is accepted by the audit.
#![tactic(auto)]

pub mod laws;
