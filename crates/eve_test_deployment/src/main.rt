//! What replicas do with batches, through the public calls of the crates that do it. The first word of a line of the
//! input says where, and the rest is a case, of which a line is printed, or a few:
//!
//! - `floor CASE`: two workers execute a batch
//! - `ledger TRACE WORKLOAD MIXER CHANGE..`: what access records say is closed, committed and rolled back
//! - `replica CASE`: calls of a replica, or a whole run
//!
//! The files with these names have the cases. Where a line isn't as it must be, or memory is refused, nothing is
//! printed of it, and the program ends there.
#![tactic(auto)]

mod floor;
mod ledger;
mod replica;

use eve_testing::Text;
use std::io;

fn main(rt: HostRuntime) -> io::Result<()> {
    for line in rt.lines(rt.alloc()) {
        let line = line?;
        let mut said = Text::new(rt.alloc());
        match line.as_str().split_once(' ') {
            Some(("floor", case)) => floor::tell(&rt, case, &mut said),
            Some(("ledger", case)) => ledger::tell(&rt, case, &mut said),
            Some(("replica", case)) => replica::tell(&rt, case, &mut said),
            _ => said.needs(false),
        }
        said.print(&rt)?;
    }
    Ok(())
}
