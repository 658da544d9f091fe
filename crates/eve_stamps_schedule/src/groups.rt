//! The parallelBatch of an index.

ghost use Rattle.std.specs.Prelude.{◌≡◌};
ghost use Rattle.eve_grammar.specs.Certificate.{group_of};

/// The parallelBatch of an index, from 0, where they have these sizes.
pub fn group_of(sizes: &[u16], index: u16) -> usize
    ensures { result ≡ group_of sizes.now index }
{
    let mut rest = index;
    for (place, size) in sizes.iter().enumerate() {
        if rest < *size {
            return place;
        }
        rest -= *size;
    }
    sizes.len()
}
