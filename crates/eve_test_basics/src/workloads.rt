//! Workloads that are read and cut.

mod greatest;
mod texts;

use crate::workloads::greatest::greatest;
use crate::workloads::texts::{cut, mixed, read, text_of};
use eve_testing::Text;
use std::alloc::Global;
use std::hash::RandomState;

/// Tells what a line asks for behind its first word.
pub(crate) fn tell(rt: &HostRuntime, line: &str, said: &mut Text) {
    match RandomState::new(rt) {
        Ok(keys) => tell_with(rt.alloc(), keys, line, said),
        Err(why) => said.fail(why),
    }
}

/// The same, with these random words.
fn tell_with(alloc: Global, keys: RandomState, line: &str, said: &mut Text) {
    let mut words = line.splitn(3, ' ');
    let what = words.next().unwrap_or("");
    let name = words.next().unwrap_or("");
    let text = text_of(alloc, words.next().unwrap_or(""), said);
    let text = text.as_slice();
    match what {
        "read" => read(alloc, name, text, 1, said),
        "cut" => cut(alloc, name, text, said),
        "mix" => mixed(alloc, keys, name, text, said),
        "greatest" => greatest(alloc, keys, said),
        _ => said.needs(false),
    }
}
