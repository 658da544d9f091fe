//! Work cut into parts of one length.

ghost use Rattle.std.specs.Prelude.{◌≡◌, ◌≤◌, ◌+◌, ◌*◌};
ghost use Rattle.eve_views.specs.Cut.{part_start};

/// A part of a number of items.
#[derive(Clone, Copy)]
pub struct Part {
    /// The place of its first item.
    pub from: usize,
    /// The place after its last item.
    pub to: usize,
}

/// The size of parts of that many items, no more parts than are given and none but the last shorter than the least that
/// is worth a thread: together they have all items.
pub fn part_size(count: usize, parts: usize, least: usize) -> usize
    requires { 1 ≤ parts }
    ensures all { count ≤ parts * result }
    ensures least { least ≤ result }
{
    count.div_ceil(parts).max(least)
}

/// The part at a place, from 0 on, of parts of this size. The first begins at 0, each begins where the one before ends,
/// and none passes the last item.
pub fn part_at(count: usize, size: usize, place: usize) -> Part
    ensures from { result.from ≡ part_start count size place }
    ensures to { result.to ≡ part_start count size (place + 1) }
{
    let from = place.saturating_mul(size).min(count);
    let to = from.saturating_add(size).min(count);
    Part { from, to }
}
