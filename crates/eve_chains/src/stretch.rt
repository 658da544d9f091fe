//! Stretches of attempts or of rows, which are worked through side by side.

ghost use Rattle.std.specs.Prelude.{◌≡◌, ◌≤◌, ◌+◌, IfOk, OnOk, length};
ghost use Rattle.eve_chains.specs.inner.Stretches.{AreBetween};

use eve_views::part_size;
use std::alloc::{AllocError, Global};

/// Attempts of a replica, or rows, that stand after one another.
#[derive(Clone, Copy)]
pub struct Stretch {
    /// The place of the first of them.
    pub from: usize,
    /// The place after the last of them.
    pub to: usize,
}

impl Stretch {
    /// Cuts it into parts of about the same length, no more than the given number, and none but the last shorter than
    /// the least length.
    pub fn cut(&self, alloc: Global, parts: u8, least: usize) -> Result<Vec<Stretch>, AllocError>
        requires rising { self.now.from ≤ self.now.to }
        requires parts { 1 ≤ parts }
        ensures all { IfOk result (λ stretches. AreBetween self.now.from self.now.to stretches.items) }
    {
        let start = self.from;
        let to = self.to;
        let mut stretches = Vec::new(alloc);
        let mut from = start;
        let size = part_size(to - start, usize::from(parts), least);
        for _ in 1..parts {
            if to - from <= size {
                break;
            }
            append(&mut stretches, start, from, from + size)?;
            from += size;
        }
        append(&mut stretches, start, from, to)?;
        Ok(stretches)
    }
}

/// Appends what stands from one place up to another to stretches that reach from the start to the first.
#[tactic(auto, using(crate::proofs::Stretches::stretch_more))]
fn append(
    stretches: &mut Vec<Stretch>,
    start: usize,
    from: usize,
    to: usize,
) -> Result<(), AllocError>
    requires rising { from ≤ to }
    requires so_far { AreBetween start from stretches.old.items }
    ensures reached { OnOk result (AreBetween start to stretches.new.items) }
    ensures one_more { OnOk result (length stretches.new.items ≡ length stretches.old.items + 1) }
{
    let _start = start;
    stretches.push(Stretch { from, to })?;
    Ok(())
}
