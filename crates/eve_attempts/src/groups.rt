//! The parallelBatches of a batch.

ghost use Rattle.std.specs.Prelude.{◌≡◌, ◌<◌, ℕ, IsTrue, length, slice_get, slice_index, Some};
ghost use Rattle.eve_grammar.specs.Limits.{is_batch};
ghost use Rattle.eve_grammar.specs.Certificate.{group_of};
ghost use Rattle.eve_write.specs.Data.{batch as plain};

use eve_grammar::MOST_REQUESTS;
use eve_write::BatchData;

/// How many requests a batch has.
pub fn count_of(batch: &BatchData) -> usize
    ensures { result ≡ length (plain batch.now).requests }
{
    batch.requests.len()
}

/// How many requests a parallelBatch has.
fn size_of(batch: &BatchData, place: usize) -> u16
    requires { place < length (plain batch.now).sizes }
    ensures { slice_get (plain batch.now).sizes place ≡ Some result }
{
    batch.sizes[place]
}

/// The parallelBatch of each index of a batch, from 0.
pub fn groups_of(batch: &BatchData) -> [u8; MOST_REQUESTS]
    requires { IsTrue (is_batch (plain batch.now)) }
    ensures { (i : ℕ) → i < length (plain batch.now).requests
        → slice_index result i ≡ group_of (plain batch.now).sizes i }
{
    let mut groups = [0; MOST_REQUESTS];
    let mut group: u8 = 0;
    let mut end = size_of(batch, 0) as usize;
    for index in 0..count_of(batch) {
        if index == end {
            group += 1;
            end += size_of(batch, group as usize) as usize;
        }
        groups[index] = group;
    }
    groups
}
