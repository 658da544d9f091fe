//! Evidence of a fault of form: what stands where no trace can go on, and what was due there.
#![tactic(auto)]

mod access_body;
mod attempt_body;
mod batch_body;
mod body;
mod due;
mod fields;
mod form;
mod frame;
mod head;
mod names;
mod orders;
mod plain_body;
mod requests;
mod rows_body;
mod walk;

pub use form::form_evidence;
pub use orders::trace_evidence;
