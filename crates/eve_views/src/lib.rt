//! Traces read in place: the first fault of form, or a trace whose frames are lent as views.
#![tactic(auto)]

mod accesses;
mod body;
mod cut;
mod fault;
mod first;
mod frames;
mod header;
pub mod laws;
mod least;
mod progress;
mod reached;
mod side_by_side;
mod starts;
mod steps;
mod trace;
mod votes;
mod walk;

pub use accesses::Accesses;
pub use cut::{Part, part_at, part_size};
pub use eve_frames::{
    AccessView, AttemptView, BatchView, Certificate, CommitView, CustomerView, Entries, FrameView,
    Replies, Requests, Restores, RollbackView, SentView, VoteView,
};
pub use eve_grammar;
pub use fault::{CheckFault, Code, Fault};
pub use first::first_of;
pub use frames::Frames;
pub use least::lower;
pub use reached::Reached;
pub use steps::{Step, Steps};
pub use trace::Trace;
pub use votes::Votes;
